// Whether lists name what is there.
ghost use Rattle.std.specs.Prelude.{◌≡◌, true, All};
ghost use Rattle.dep_form.specs.WithinFacts.{IsOfMethod, IsOfSites};
ghost use Rattle.checked_facts.specs.Parts.{IsAccessWithin, IsLineWithin, IsOfClass, IsOfNodes, IsPlaced, IsValueWithin};

use dep_form::access::Access;
use dep_form::texts::{MethodText, SiteName};
use slicer_ids::ids::{ClassId, NodeId, SiteId, Statement};
use slicer_ids::list::List;

/// How many of each thing there are.
#[derive(Clone, Copy)]
pub struct Sizes {
    pub nodes: usize,
    pub classes: usize,
    pub methods: usize,
    pub sites: usize,
}

fn is_of_method(n: Sizes, s: Statement) -> bool
    ensures { result ≡ true → IsOfMethod n.methods s }
{
    (s.method.0 as usize) < n.methods
}

fn are_of_methods(n: Sizes, statements: &[Statement]) -> bool
    ensures { result ≡ true → All (IsOfMethod n.methods) statements.now }
{
    for s in statements {
        if !is_of_method(n, *s) {
            return false;
        }
    }
    true
}

fn are_of_sites(n: Sizes, sites: &[SiteId]) -> bool
    ensures { result ≡ true → All (IsOfSites n.sites) sites.now }
{
    for h in sites {
        if h.0 as usize >= n.sites {
            return false;
        }
    }
    true
}

fn are_nodes(n: Sizes, nodes: &[NodeId]) -> bool
    ensures { result ≡ true → All (IsOfNodes n.nodes) nodes.now }
{
    for x in nodes {
        if x.0 as usize >= n.nodes {
            return false;
        }
    }
    true
}

/// Whether each method is of a class.
pub fn are_methods(n: Sizes, methods: &[MethodText]) -> bool
    ensures { result ≡ true → All (IsOfClass n.classes) methods.now }
{
    for text in methods {
        if text.class.0 as usize >= n.classes {
            return false;
        }
    }
    true
}

fn is_placed(n: Sizes, site: &SiteName) -> bool
    ensures { result ≡ true → IsPlaced n.methods site.now }
{
    match site.place {
        Some(place) => is_of_method(n, place),
        None => true,
    }
}

/// Whether each site stands in a method, or is the root's.
pub fn are_placed(n: Sizes, sites: &[SiteName]) -> bool
    ensures { result ≡ true → All (IsPlaced n.methods) sites.now }
{
    for site in sites {
        if !is_placed(n, site) {
            return false;
        }
    }
    true
}

/// Whether each line is of a class, and has statements of methods.
pub fn are_lines(n: Sizes, lines: &[(ClassId, u16, List<Statement>)]) -> bool
    ensures { result ≡ true → All (IsLineWithin n.classes n.methods) lines.now }
{
    for line in lines {
        if line.0.0 as usize >= n.classes || !are_of_methods(n, line.2.items()) {
            return false;
        }
    }
    true
}

fn is_access(n: Sizes, access: &(Statement, Access)) -> bool
    ensures { result ≡ true → IsAccessWithin n.nodes n.methods n.sites access.now }
{
    is_of_method(n, access.0)
        && are_nodes(n, access.1.object.items())
        && are_of_sites(n, access.1.sites.items())
}

/// Whether each access is a statement of a method, with nodes and sites that are there.
pub fn are_accesses(n: Sizes, accesses: &[(Statement, Access)]) -> bool
    ensures { result ≡ true → All (IsAccessWithin n.nodes n.methods n.sites) accesses.now }
{
    for access in accesses {
        if !is_access(n, access) {
            return false;
        }
    }
    true
}

/// Whether each value is that of a statement of a method, with sites that are there.
pub fn are_values(n: Sizes, values: &[(Statement, List<SiteId>)]) -> bool
    ensures { result ≡ true → All (IsValueWithin n.methods n.sites) values.now }
{
    for value in values {
        if !is_of_method(n, value.0) || !are_of_sites(n, value.1.items()) {
            return false;
        }
    }
    true
}
