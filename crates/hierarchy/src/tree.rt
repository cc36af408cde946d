// The classes of a folder.
ghost use Rattle.std.specs.Prelude.{◌≡◌, ◌<◌, ◌+◌, ◌^◌, ◌⊎◌, ◌↔◌, ℕ, List, length, map, All, IfOk, IfErr, MatchOption, IsTrue, IsPermutation};
ghost use Rattle.class_form.specs.Classes.{AreInOrder, IsNamed, IsOutside, IsAbove, IsSub};
ghost use Rattle.class_form.specs.Numbers.{IsNamedClass, AreMethods, AreFields};
ghost use Rattle.class_form.specs.Folders.{IsHierarchyOf, AreAcyclic, IsOwnAncestor, IsLeastName};
ghost use Rattle.digraph.specs.Graphs.{HasEdge, IsGraph};
ghost use Rattle.digraph.specs.Orders.{IsOnCycle, IsOrder};
ghost use Rattle.hierarchy.specs.Trees.{AreOrdered, IsTree, AreFew};
ghost use Rattle.hierarchy.specs.Searched.{IsSearched};
ghost use Rattle.hierarchy.specs.Causes.{IsCause};
ghost use Rattle.hierarchy.specs.Places.{declared_at};
ghost use Rattle.hierarchy.specs.Selections.{member_key, IsFoundField, IsFoundMethod, IsSelection};
ghost use Rattle.hierarchy.specs.Names.{IsByName, AreEdges};
ghost use Rattle.hierarchy.specs.declared.parents.Above.TheVariants.{Interfaces, Parents};

use crate::graph::Graph;
use crate::look_up::Tree;
use crate::members::{Kind, Members};
use crate::parents::{Above, edges};
use crate::sorted::{find_class, find_twice, name_of, sort_classes};
use class_form::class_file::ClassFile;
use digraph::cycle::first_on_cycle;
use digraph::order::find_order;
use digraph::rows::{has_bit, reach_rows};
use slicer_ids::ids::{ClassId, FieldId, MethodId, NoMemory};
use slicer_ids::name::Name;
use std::alloc::Global;
use std::marker::Model;
use thiserror::Error;

/// Why class files are no hierarchy.
#[derive(Debug, Drop, Error)]
pub enum TreeError {
    #[error("no memory")]
    NoMemory,
    /// The first name, by its bytes, that stands twice.
    #[error("duplicate class")]
    Duplicate(Name),
    /// Where no name stands twice: the first name, by its bytes, of a class that is its own ancestor.
    #[error("cyclic class")]
    Cycle(Name),
}

/// What a class selects for a name and descriptor.
#[derive(Clone, Copy, PartialEq, Eq, Debug)]
pub enum Select {
    /// A method that isn't abstract.
    Folder(MethodId),
    /// A method that is abstract.
    Abstract,
    /// No method of the folder.
    Outside,
}

/// The classes of a folder, by number: in the order of their names. Contracts see it as the list of its class files.
#[derive(Drop)]
pub struct Hierarchy {
    tree: Tree,
}

impl Model for Hierarchy {
    ghost use Rattle.std.specs.Prelude.{List};
    ghost use Rattle.class_form.specs.declared.class_file.ClassFile.{ClassFile};
    ghost use Rattle.hierarchy.specs.Trees.{IsTree};

    ghost Value = { List ClassFile };

    ghost view = { λ h. h.tree.classes.items };

    ghost invariant = { λ h. IsTree h.tree };
}

// The classes in the order of their names.
fn in_order(classes: Vec<ClassFile>) -> Vec<ClassFile>
    ensures same { IsPermutation classes.items result.items }
    ensures sorted { IsByName result.items }
{
    let mut classes = classes;
    sort_classes(classes.as_mut_slice());
    classes
}

// A name stands twice.
fn duplicate(alloc: Global, name: &[u8]) -> TreeError
    ensures { (result ≡ TreeError.NoMemory) ⊎ (result ≡ TreeError.Duplicate name.now) }
{
    match Name::from_bytes(alloc, name) {
        Ok(name) => TreeError::Duplicate(name),
        Err(_) => TreeError::NoMemory,
    }
}

// A class is its own ancestor.
fn cycle(alloc: Global, name: &[u8]) -> TreeError
    ensures { (result ≡ TreeError.NoMemory) ⊎ (result ≡ TreeError.Cycle name.now) }
{
    match Name::from_bytes(alloc, name) {
        Ok(name) => TreeError::Cycle(name),
        Err(_) => TreeError::NoMemory,
    }
}

// The first class that is its own ancestor.
fn find_cycle(alloc: Global, classes: &[ClassFile], rows: &[Vec<u32>]) -> TreeError
    requires ordered { AreOrdered classes.now }
    requires edges { AreEdges Parents classes.now rows.now }
    requires some { (n : ℕ) × (n < length rows.now) × IsOnCycle rows.now n }
    ensures { (result ≡ TreeError.NoMemory) ⊎ ((name : List ℕ) × (result ≡ TreeError.Cycle name) × IsLeastName (IsOwnAncestor classes.now) name) }
{
    match first_on_cycle(alloc, rows) {
        Ok(Some(first)) => cycle(alloc, name_of(&classes[first as usize])),
        Ok(None) => unreachable!(),
        Err(_) => TreeError::NoMemory,
    }
}

// An order in which each class comes after those that it names; where there is none, the first class that is its own
// ancestor.
fn order_of(alloc: Global, classes: &[ClassFile], rows: &[Vec<u32>]) -> Result<Vec<u32>, TreeError>
    requires ordered { AreOrdered classes.now }
    requires edges { AreEdges Parents classes.now rows.now }
    ensures ok { IfOk result (λ order. IsOrder rows.now order.items) }
    ensures err { IfErr result (λ e. (e ≡ TreeError.NoMemory) ⊎ ((name : List ℕ) × (e ≡ TreeError.Cycle name) × IsLeastName (IsOwnAncestor classes.now) name)) }
{
    match find_order(alloc, rows) {
        Ok(Some(order)) => Ok(order),
        Ok(None) => Err(find_cycle(alloc, classes, rows)),
        Err(_) => Err(TreeError::NoMemory),
    }
}

// A graph with what is reached from each class.
fn with_rows(alloc: Global, edges: Vec<Vec<u32>>, order: &[u32]) -> Result<Graph, NoMemory>
    requires graph { IsGraph edges.items }
    requires order { IsOrder edges.items order.now }
    ensures { IfOk result (λ graph. (graph.edges.items ≡ edges.items) × IsSearched graph order.now) }
{
    let rows = reach_rows(alloc, edges.as_slice(), order)?;
    Ok(Graph { edges, rows })
}

// The interfaces of the classes.
fn interfaces_of(
    alloc: Global,
    classes: &[ClassFile],
    rows: &[Vec<u32>],
    order: &[u32],
) -> Result<Graph, NoMemory>
    requires ordered { AreOrdered classes.now }
    requires edges { AreEdges Parents classes.now rows.now }
    requires order { IsOrder rows.now order.now }
    ensures { IfOk result (λ graph. AreEdges Interfaces classes.now graph.edges.items × IsSearched graph order.now) }
{
    let edges = edges(alloc, Above::Interfaces, classes)?;
    with_rows(alloc, edges, order)
}

// What is kept of classes in order.
fn make_tree(
    alloc: Global,
    classes: Vec<ClassFile>,
    rows: Vec<Vec<u32>>,
    order: Vec<u32>,
) -> Result<Tree, NoMemory>
    requires ordered { AreOrdered classes.items }
    requires few { AreFew classes.items }
    requires edges { AreEdges Parents classes.items rows.items }
    requires order { IsOrder rows.items order.items }
    ensures { IfOk result (λ tree. (tree.classes.items ≡ classes.items) × IsTree tree) }
{
    let interfaces = interfaces_of(alloc, classes.as_slice(), rows.as_slice(), order.as_slice())?;
    let parents = with_rows(alloc, rows, order.as_slice())?;
    let fields = Members::new(alloc, Kind::Field, classes.as_slice())?;
    let methods = Members::new(alloc, Kind::Method, classes.as_slice())?;
    Ok(Tree {
        classes,
        order,
        parents,
        interfaces,
        fields,
        methods,
    })
}

// The hierarchy of classes in order, of which none is its own ancestor.
fn with_order(
    alloc: Global,
    classes: Vec<ClassFile>,
    rows: Vec<Vec<u32>>,
    order: Vec<u32>,
) -> Result<Hierarchy, TreeError>
    requires ordered { AreOrdered classes.items }
    requires few { AreFew classes.items }
    requires edges { AreEdges Parents classes.items rows.items }
    requires order { IsOrder rows.items order.items }
    ensures ok { IfOk result (λ h. (h ≡ classes.items) × AreAcyclic classes.items) }
    ensures err { IfErr result (λ e. e ≡ TreeError.NoMemory) }
{
    match make_tree(alloc, classes, rows, order) {
        Ok(tree) => Ok(Hierarchy { tree }),
        Err(_) => Err(TreeError::NoMemory),
    }
}

// The hierarchy of classes in order, by the classes that they name.
fn with_edges(
    alloc: Global,
    classes: Vec<ClassFile>,
    rows: Vec<Vec<u32>>,
) -> Result<Hierarchy, TreeError>
    requires ordered { AreOrdered classes.items }
    requires few { AreFew classes.items }
    requires edges { AreEdges Parents classes.items rows.items }
    ensures ok { IfOk result (λ h. (h ≡ classes.items) × AreAcyclic classes.items) }
    ensures err { IfErr result (λ e. (e ≡ TreeError.NoMemory) ⊎ ((name : List ℕ) × (e ≡ TreeError.Cycle name) × IsLeastName (IsOwnAncestor classes.items) name)) }
{
    match order_of(alloc, classes.as_slice(), rows.as_slice()) {
        Ok(order) => with_order(alloc, classes, rows, order),
        Err(error) => Err(error),
    }
}

// The hierarchy of classes in order.
fn of_ordered(alloc: Global, classes: Vec<ClassFile>) -> Result<Hierarchy, TreeError>
    requires ordered { AreOrdered classes.items }
    requires few { AreFew classes.items }
    ensures ok { IfOk result (λ h. (h ≡ classes.items) × AreAcyclic classes.items) }
    ensures err { IfErr result (λ e. (e ≡ TreeError.NoMemory) ⊎ ((name : List ℕ) × (e ≡ TreeError.Cycle name) × IsLeastName (IsOwnAncestor classes.items) name)) }
{
    match edges(alloc, Above::Parents, classes.as_slice()) {
        Ok(rows) => with_edges(alloc, classes, rows),
        Err(_) => Err(TreeError::NoMemory),
    }
}

/// The hierarchy of the class files of a folder (JVMS SE 7 5.3.5).
///
/// Refused are a name that stands twice, and where there is none, a class that is its own ancestor by superclasses and
/// interfaces; of several, the first by the bytes of its name. Takes n log n comparisons of names, and each superclass
/// and interface twice; where it refuses a cycle, each for each class. It keeps a bit for each pair of classes.
pub fn build(alloc: Global, classes: Vec<ClassFile>) -> Result<Hierarchy, TreeError>
    requires few { AreFew classes.items }
    requires named { All IsNamedClass classes.items }
    ensures ok { IfOk result (λ h. IsHierarchyOf classes.items h) }
    ensures err { IfErr result (λ e. IsCause classes.items e) }
{
    let classes = in_order(classes);
    match find_twice(classes.as_slice()) {
        Some(name) => Err(duplicate(alloc, name)),
        None => of_ordered(alloc, classes),
    }
}

impl Hierarchy {
    /// The class files, by the number of the class.
    pub fn classes(&self) -> &[ClassFile]
        ensures classes { result.now ≡ self.now }
        ensures order { AreInOrder self.now }
        ensures acyclic { AreAcyclic self.now }
    {
        self.tree.classes.as_slice()
    }

    /// The class of this name; none where no class of the folder has it. Takes a logarithmic number of comparisons.
    pub fn find_class(&self, name: &[u8]) -> Option<ClassId>
        ensures { MatchOption result (IsOutside self.now name.now) (λ c. IsNamed self.now name.now c.0) }
    {
        match find_class(self.tree.classes.as_slice(), name) {
            Some(c) => Some(ClassId(c)),
            None => None,
        }
    }

    /// Where the methods stand, by number: the class, and the place in its list of methods.
    pub fn method_places(&self) -> &[(ClassId, u16)]
        ensures { AreMethods self.now (map declared_at result.now) }
    {
        self.tree.methods.places.as_slice()
    }

    /// Where the fields stand, by number: the class, and the place in its list of fields.
    pub fn field_places(&self) -> &[(ClassId, u16)]
        ensures { AreFields self.now (map declared_at result.now) }
    {
        self.tree.fields.places.as_slice()
    }

    /// The field that a search from the class of this name finds (JVMS SE 7 5.4.3.2): in the class, then in its
    /// superinterfaces in their order, then in its superclass. None where it finds none in the folder. Goes to no class
    /// twice, and takes no memory.
    pub fn find_field(&self, class: &[u8], name: &[u8], descriptor: &[u8]) -> Option<FieldId>
        ensures { IsFoundField self.now (member_key class.now name.now descriptor.now) result }
    {
        let Some(from) = find_class(self.tree.classes.as_slice(), class) else {
            return None;
        };
        match self.tree.field_from(from, name, descriptor) {
            Some(number) => Some(FieldId(number)),
            None => None,
        }
    }

    /// The method that a search from the class of this name finds (JVMS SE 7 5.4.3.3): in the class and its superclasses,
    /// then in the superinterfaces of each of these, in their order. None where it finds none in the folder. Goes to no
    /// class twice, and takes no memory.
    pub fn find_method(&self, class: &[u8], name: &[u8], descriptor: &[u8]) -> Option<MethodId>
        ensures { IsFoundMethod self.now (member_key class.now name.now descriptor.now) result }
    {
        let Some(from) = find_class(self.tree.classes.as_slice(), class) else {
            return None;
        };
        match self.tree.method_from(from, name, descriptor) {
            Some(number) => Some(MethodId(number)),
            None => None,
        }
    }

    /// The method that a class selects (JVMS SE 7 6.5, invokevirtual): the first of this name and descriptor, from the
    /// class upwards, that is neither private nor static. Takes no memory.
    pub fn select(&self, class: ClassId, name: &[u8], descriptor: &[u8]) -> Select
        requires { class.0 < length self.now }
        ensures { IsSelection self.now class.0 name.now descriptor.now result }
    {
        let Some(number) = self.tree.selected(class.0, name, descriptor) else {
            return Select::Outside;
        };
        if self.tree.is_abstract(number) {
            Select::Abstract
        } else {
            Select::Folder(MethodId(number))
        }
    }

    /// Whether a class is the other one or, by superclasses and interfaces, below it. Takes one step.
    pub fn is_sub(&self, a: ClassId, b: ClassId) -> bool
        requires { (a.0 < length self.now) × (b.0 < length self.now) }
        ensures { IsTrue result ↔ IsSub self.now a.0 b.0 }
    {
        has_bit(self.tree.parents.rows[a.0 as usize].as_slice(), b.0)
    }
}
