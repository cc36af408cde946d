// Lists in the order of their items.
ghost use Rattle.std.specs.Prelude.{◌≡◌, ◌≤◌, ℕ, true, Some, AllPairs, slice_get};
ghost use Rattle.std.specs.declared.cmp.Ordering.TheVariants.{Less};
ghost use Rattle.dep_form.specs.Orders.{method_cmp, statement_cmp};
ghost use Rattle.dep_form.specs.Keys.{key_of_text};
ghost use Rattle.checked_facts.specs.Rising.{IsInOrderAt};

use dep_form::access::Access;
use dep_form::texts::MethodText;
use slicer_ids::ids::{ClassId, NodeId, SiteId, Statement};
use slicer_ids::list::List;
use slicer_ids::name::Name;
use std::cmp::Ordering;

/// What has a place in an order.
pub trait Ranked {
    ghost comes_before: { Self → Self → Type 0 };

    /// Whether it comes before the other.
    fn is_before(&self, other: &Self) -> bool
        ensures { result ≡ true → comes_before self.now other.now };
}

impl Ranked for NodeId {
    ghost use Rattle.dep_form.specs.WithinFacts.{NodeBefore};

    ghost comes_before = { NodeBefore };

    fn is_before(&self, other: &NodeId) -> bool {
        self.0 < other.0
    }
}

impl Ranked for Name {
    ghost use Rattle.checked_facts.specs.Rising.{NameBefore};

    ghost comes_before = { NameBefore };

    fn is_before(&self, other: &Name) -> bool {
        is_less(self.bytes().cmp(&other.bytes()))
    }
}

impl Ranked for MethodText {
    ghost use Rattle.checked_facts.specs.Rising.{TextBefore};

    ghost comes_before = { TextBefore };

    fn is_before(&self, other: &MethodText) -> bool {
        is_less(compare_texts(self, other))
    }
}

impl Ranked for (ClassId, u16, List<Statement>) {
    ghost use Rattle.checked_facts.specs.Rising.{LineBefore};

    ghost comes_before = { LineBefore };

    fn is_before(&self, other: &(ClassId, u16, List<Statement>)) -> bool {
        is_less(self.0.cmp(&other.0).then(self.1.cmp(&other.1)))
    }
}

impl Ranked for (Statement, Access) {
    ghost use Rattle.checked_facts.specs.Rising.{AccessBefore};

    ghost comes_before = { AccessBefore };

    fn is_before(&self, other: &(Statement, Access)) -> bool {
        is_less(compare_statements(self.0, other.0))
    }
}

impl Ranked for (Statement, List<SiteId>) {
    ghost use Rattle.checked_facts.specs.Rising.{ValueBefore};

    ghost comes_before = { ValueBefore };

    fn is_before(&self, other: &(Statement, List<SiteId>)) -> bool {
        is_less(compare_statements(self.0, other.0))
    }
}

fn is_less(ordering: Ordering) -> bool
    ensures { result ≡ true → ordering ≡ Less }
{
    matches!(ordering, Ordering::Less)
}

fn compare_texts(a: &MethodText, b: &MethodText) -> Ordering
    ensures { result ≡ method_cmp (key_of_text a.now) (key_of_text b.now) }
{
    a.class.cmp(&b.class).then(
        a.name
            .bytes()
            .cmp(&b.name.bytes())
            .then(a.descriptor.bytes().cmp(&b.descriptor.bytes())),
    )
}

fn compare_statements(a: Statement, b: Statement) -> Ordering
    ensures { result ≡ statement_cmp a b }
{
    a.method.cmp(&b.method).then(a.pc.cmp(&b.pc))
}

// Whether it comes before the item at this place, where one is there.
fn is_before_at<T: Ranked>(x: &T, xs: &[T], l: usize) -> bool
    ensures { result ≡ true → (y : T) → slice_get xs.now l ≡ Some y → T.comes_before x.now y }
{
    match xs.get(l) {
        Some(y) => x.is_before(y),
        None => true,
    }
}

// Whether it comes before all items from a place on.
fn is_before_from<T: Ranked>(x: &T, xs: &[T], start: usize) -> bool
    ensures { result ≡ true → (l : ℕ) (y : T) → start ≤ l → slice_get xs.now l ≡ Some y → T.comes_before x.now y }
{
    for l in start..xs.len() {
        if !is_before_at(x, xs, l) {
            return false;
        }
    }
    true
}

fn is_in_order_at<T: Ranked>(xs: &[T], k: usize) -> bool
    ensures { result ≡ true → IsInOrderAt T.comes_before xs.now k }
{
    match xs.get(k) {
        Some(x) => is_before_from(x, xs, k + 1),
        None => true,
    }
}

/// Whether each item comes before all that follow it.
pub fn rise<T: Ranked>(xs: &[T]) -> bool
    ensures { result ≡ true → AllPairs T.comes_before xs.now }
{
    for k in 0..xs.len() {
        if !is_in_order_at(xs, k) {
            return false;
        }
    }
    true
}
