// Searches for fields and methods, and the selection of methods.
ghost use Rattle.std.specs.Prelude.{◌≡◌, ◌<◌, ◌↔◌, ℕ, List, length, IsTrue, MatchOption};
ghost use Rattle.class_form.specs.Classes.{IsPrivate, IsStatic, IsAbstract};
ghost use Rattle.hierarchy.specs.declared.members.Kind.TheVariants.{Method};
ghost use Rattle.hierarchy.specs.declared.look_up.Wanted.TheVariants.{Instance};
ghost use Rattle.hierarchy.specs.Names.{IsSuperOf};
ghost use Rattle.hierarchy.specs.Numbered.{IsNumber, DeclaresNone};
ghost use Rattle.hierarchy.specs.Places.{IsPlace};
ghost use Rattle.hierarchy.specs.Trees.{IsTree};
ghost use Rattle.hierarchy.specs.Visits.{AreWithin, IsOneOf};
ghost use Rattle.hierarchy.specs.Finds.{HasFlags, IsAbstractAt, IsInstance, IsWanted, MethodBeside, IsFitting, FitsNone, Upwards, BesideUpwards, FindsNumber, FieldFrom, MethodFrom};

use crate::graph::Graph;
use crate::members::{Kind, Members, Place};
use crate::parents::class_named;
use class_form::class_file::ClassFile;

/// The classes of a folder, with what is kept for searches.
#[derive(Drop)]
pub struct Tree {
    pub classes: Vec<ClassFile>,
    /// The classes, each after those that it names.
    pub order: Vec<u32>,
    pub parents: Graph,
    pub interfaces: Graph,
    pub fields: Members,
    pub methods: Members,
}

/// Which methods of a name and descriptor.
#[derive(Clone, Copy)]
pub enum Wanted {
    Declaration,
    /// Neither private nor static.
    Instance,
}

// Whether a method is neither private nor static.
fn is_selectable(flags: u16) -> bool
    ensures { IsTrue result ↔ ((IsPrivate flags → ⊥) × (IsStatic flags → ⊥)) }
{
    flags & 2 == 0 && flags & 8 == 0
}

// Whether a method is abstract.
fn has_abstract(flags: u16) -> bool
    ensures { IsTrue result ↔ IsAbstract flags }
{
    flags & 1024 != 0
}

// The flags of a method.
fn flags_at(classes: &[ClassFile], place: Place) -> u16
    requires { IsPlace Method classes.now place }
    ensures { HasFlags classes.now place result }
{
    let file = &classes[place.0.0 as usize];
    let methods = file.methods.items();
    methods[place.1 as usize].flags
}

impl Tree {
    // The superclass of a class; none where it is no class of the folder.
    fn super_of(&self, class: u32) -> Option<u32>
        requires tree { IsTree self.now }
        requires class { class < length self.now.classes.items }
        ensures { IsSuperOf self.now.classes.items class result }
    {
        let classes = self.classes.as_slice();
        let file = &classes[class as usize];
        class_named(classes, file, file.super_class)
    }

    // Whether a method is neither private nor static.
    fn is_instance(&self, number: u32) -> bool
        requires tree { IsTree self.now }
        requires number { number < length self.now.methods.places.items }
        ensures { IsTrue result ↔ IsInstance self.now.classes.items self.now.methods.places.items number }
    {
        let place = self.methods.places[number as usize];
        is_selectable(flags_at(self.classes.as_slice(), place))
    }

    // Whether a method is neither private nor static, where that is asked.
    fn is_wanted(&self, wanted: Wanted, number: u32) -> bool
        requires tree { IsTree self.now }
        requires number { number < length self.now.methods.places.items }
        ensures { IsTrue result ↔ IsWanted wanted self.now.classes.items self.now.methods.places.items number }
    {
        match wanted {
            Wanted::Declaration => true,
            Wanted::Instance => self.is_instance(number),
        }
    }

    /// Whether a method is abstract.
    pub fn is_abstract(&self, number: u32) -> bool
        requires tree { IsTree self.now }
        requires number { number < length self.now.methods.places.items }
        ensures { IsTrue result ↔ IsAbstractAt self.now.classes.items self.now.methods.places.items number }
    {
        let place = self.methods.places[number as usize];
        has_abstract(flags_at(self.classes.as_slice(), place))
    }

    // The method that a class declares.
    fn declared(&self, class: u32, name: &[u8], descriptor: &[u8]) -> Option<u32>
        requires tree { IsTree self.now }
        ensures { MatchOption result (DeclaresNone Method self.now.classes.items name.now descriptor.now class) (IsNumber Method self.now.classes.items self.now.methods.places.items name.now descriptor.now class) }
    {
        self.methods.number(
            Kind::Method,
            self.classes.as_slice(),
            class,
            name,
            descriptor,
        )
    }

    // The wanted method that a class declares.
    fn wanted_in(&self, wanted: Wanted, class: u32, name: &[u8], descriptor: &[u8]) -> Option<u32>
        requires tree { IsTree self.now }
        ensures { MatchOption result (FitsNone wanted self.now.classes.items name.now descriptor.now class) (IsFitting wanted self.now.classes.items self.now.methods.places.items name.now descriptor.now class) }
    {
        let Some(number) = self.declared(class, name, descriptor) else {
            return None;
        };
        if self.is_wanted(wanted, number) {
            Some(number)
        } else {
            None
        }
    }

    // The first wanted method from a class upwards.
    fn upwards(&self, wanted: Wanted, class: u32, name: &[u8], descriptor: &[u8]) -> Option<u32>
        requires tree { IsTree self.now }
        requires class { class < length self.now.classes.items }
        ensures { FindsNumber (Upwards wanted self.now.classes.items name.now descriptor.now class) self.now.methods.places.items result }
    {
        let mut at = class;
        for _ in self.order.as_slice() {
            if let Some(number) = self.wanted_in(wanted, at, name, descriptor) {
                return Some(number);
            }
            let Some(next) = self.super_of(at) else {
                return None;
            };
            at = next;
        }
        unreachable!()
    }

    // The first class with one of some methods among the superinterfaces of a class, then of its superclasses.
    fn beside(&self, places: &[Place], class: u32) -> Option<u32>
        requires tree { IsTree self.now }
        requires class { class < length self.now.classes.items }
        requires within { AreWithin self.now.interfaces.edges.items places.now }
        ensures { BesideUpwards self.now.classes.items places.now class result }
    {
        let order = self.order.as_slice();
        let mut at = class;
        for _ in order {
            if let Some(found) = self.interfaces.first_beyond(order, places, at) {
                return Some(found);
            }
            let Some(next) = self.super_of(at) else {
                return None;
            };
            at = next;
        }
        unreachable!()
    }

    // The method that is found in the superinterfaces of a class or its superclasses.
    fn method_beside(&self, class: u32, name: &[u8], descriptor: &[u8]) -> Option<u32>
        requires tree { IsTree self.now }
        requires class { class < length self.now.classes.items }
        ensures { FindsNumber (MethodBeside self.now.classes.items name.now descriptor.now class) self.now.methods.places.items result }
    {
        let classes = self.classes.as_slice();
        let places = self.methods.named(Kind::Method, classes, name, descriptor);
        let Some(found) = self.beside(places, class) else {
            return None;
        };
        self.declared(found, name, descriptor)
    }

    /// The number of the method that a search from a class finds (JVMS SE 7 5.4.3.3).
    pub fn method_from(&self, class: u32, name: &[u8], descriptor: &[u8]) -> Option<u32>
        requires tree { IsTree self.now }
        requires class { class < length self.now.classes.items }
        ensures { FindsNumber (MethodFrom self.now.classes.items name.now descriptor.now class) self.now.methods.places.items result }
    {
        match self.upwards(Wanted::Declaration, class, name, descriptor) {
            Some(number) => Some(number),
            None => self.method_beside(class, name, descriptor),
        }
    }

    /// The number of the field that a search from a class finds (JVMS SE 7 5.4.3.2).
    pub fn field_from(&self, class: u32, name: &[u8], descriptor: &[u8]) -> Option<u32>
        requires tree { IsTree self.now }
        requires class { class < length self.now.classes.items }
        ensures { FindsNumber (FieldFrom self.now.classes.items name.now descriptor.now class) self.now.fields.places.items result }
    {
        let classes = self.classes.as_slice();
        let places = self.fields.named(Kind::Field, classes, name, descriptor);
        let Some(found) = self
            .parents
            .first_from(self.order.as_slice(), places, class)
        else {
            return None;
        };
        self.fields
            .number(Kind::Field, classes, found, name, descriptor)
    }

    /// The number of the method that a class selects, abstract or not (JVMS SE 7 5.4.6 and invokevirtual in 6.5).
    pub fn selected(&self, class: u32, name: &[u8], descriptor: &[u8]) -> Option<u32>
        requires tree { IsTree self.now }
        requires class { class < length self.now.classes.items }
        ensures { FindsNumber (Upwards Instance self.now.classes.items name.now descriptor.now class) self.now.methods.places.items result }
    {
        self.upwards(Wanted::Instance, class, name, descriptor)
    }
}
