// The fields or the methods of classes, in the order of their numbers and in that of their names.
ghost use Rattle.std.specs.Prelude.{◌≡◌, ◌↔◌, ◌<◌, ◌≤◌, ◌+◌, ◌^◌, ◌++◌, ◌∷◌, [], ℕ, length, take, map, All, Contains, sum_by, IfOk, OnOk, Some, slice_get, MatchOption, IsPermutation, IsSortedByKey};
ghost use Rattle.class_form.specs.Classes.{IsClass, Declared};
ghost use Rattle.class_form.specs.Numbers.{IsNamedClass};
ghost use Rattle.class_form.specs.declared.class_file.ClassFile.{ClassFile};
ghost use Rattle.slicer_ids.specs.Sets.{IsOrderedListOf};
ghost use Rattle.slicer_ids.specs.declared.ids.ClassId.{ClassId};
ghost use Rattle.std.specs.Prelude.{true, false};
ghost use Rattle.std.specs.Ordering.{is_lt, is_le};
ghost use Rattle.std.specs.List.Sorted.{IsPartitionPoint};
ghost use Rattle.hierarchy.specs.Visits.{IsOneOf};
ghost use Rattle.hierarchy.specs.Numbered.{AreMembers, IsNumber, DeclaresNone, DeclaresSome};
ghost use Rattle.hierarchy.specs.Places.{members_of, count_members, text_bytes, name_in, descriptor_in, texts_at, number_key_at, texts_of, number_key_of, texts_cmp, number_cmp, ArePlaces, PlaceBefore, IsPlaceUpTo, Declares, declared_at};

use class_form::class_file::{ClassFile, Member};
use class_form::pool::Pool;
use slicer_ids::ids::{ClassId, NoMemory};
use std::alloc::Global;
use std::cmp::Ordering;

/// A member by its class and its place in the class's list.
pub type Place = (ClassId, u16);

/// Which members.
#[derive(Clone, Copy)]
pub enum Kind {
    Field,
    Method,
}

// The members of a class.
fn members_in(kind: Kind, class: &ClassFile) -> &[Member]
    ensures { result.now ≡ members_of kind class.now }
{
    match kind {
        Kind::Field => class.fields.items(),
        Kind::Method => class.methods.items(),
    }
}

// The text at an index, or no bytes.
fn text(pool: &Pool, index: u16) -> &[u8]
    ensures { result.now ≡ text_bytes pool.now index }
{
    match pool.utf(index) {
        Some(text) => text,
        None => &[],
    }
}

// The name of a member of a class.
fn name_of(kind: Kind, class: &ClassFile, index: u16) -> &[u8]
    ensures { result.now ≡ name_in kind class.now index }
{
    match members_in(kind, class).get(index as usize) {
        Some(member) => text(&class.pool, member.name),
        None => &[],
    }
}

// The descriptor of a member of a class.
fn descriptor_of(kind: Kind, class: &ClassFile, index: u16) -> &[u8]
    ensures { result.now ≡ descriptor_in kind class.now index }
{
    match members_in(kind, class).get(index as usize) {
        Some(member) => text(&class.pool, member.descriptor),
        None => &[],
    }
}

// The name of a member.
fn name_at(kind: Kind, classes: &[ClassFile], place: Place) -> &[u8]
    ensures { result.now ≡ (texts_at kind classes.now place).name }
{
    match classes.get(place.0.0 as usize) {
        Some(class) => name_of(kind, class, place.1),
        None => &[],
    }
}

// The descriptor of a member.
fn descriptor_at(kind: Kind, classes: &[ClassFile], place: Place) -> &[u8]
    ensures { result.now ≡ (texts_at kind classes.now place).descriptor }
{
    match classes.get(place.0.0 as usize) {
        Some(class) => descriptor_of(kind, class, place.1),
        None => &[],
    }
}

// The order of a member and a name and descriptor.
fn compare_texts(
    kind: Kind,
    classes: &[ClassFile],
    place: Place,
    name: &[u8],
    descriptor: &[u8],
) -> Ordering
    ensures { result ≡ texts_cmp (texts_at kind classes.now place) (texts_of name.now descriptor.now) }
{
    match name_at(kind, classes, place).cmp(name) {
        Ordering::Less => Ordering::Less,
        Ordering::Equal => descriptor_at(kind, classes, place).cmp(descriptor),
        Ordering::Greater => Ordering::Greater,
    }
}

// The order of a member and a name and descriptor in a class.
fn compare_number(
    kind: Kind,
    classes: &[ClassFile],
    place: Place,
    class: u32,
    name: &[u8],
    descriptor: &[u8],
) -> Ordering
    ensures { result ≡ number_cmp (number_key_at kind classes.now place) (number_key_of class name.now descriptor.now) }
{
    match place.0.0.cmp(&class) {
        Ordering::Less => Ordering::Less,
        Ordering::Equal => compare_texts(kind, classes, place, name, descriptor),
        Ordering::Greater => Ordering::Greater,
    }
}

// The order of two members by name and descriptor.
fn compare_two_texts(kind: Kind, classes: &[ClassFile], a: Place, b: Place) -> Ordering
    ensures { result ≡ texts_cmp (texts_at kind classes.now a) (texts_at kind classes.now b) }
{
    compare_texts(
        kind,
        classes,
        a,
        name_at(kind, classes, b),
        descriptor_at(kind, classes, b),
    )
}

// The order of two members by their numbers.
fn compare_two_numbers(kind: Kind, classes: &[ClassFile], a: Place, b: Place) -> Ordering
    ensures { result ≡ number_cmp (number_key_at kind classes.now a) (number_key_at kind classes.now b) }
{
    match a.0.0.cmp(&b.0.0) {
        Ordering::Less => Ordering::Less,
        Ordering::Equal => compare_two_texts(kind, classes, a, b),
        Ordering::Greater => Ordering::Greater,
    }
}

// Adds a place.
fn push(places: &mut Vec<Place>, place: Place) -> Result<(), NoMemory>
    ensures { OnOk result (places.new.items ≡ places.old.items ++ place ∷ []) }
{
    match places.push(place) {
        Ok(()) => Ok(()),
        Err(_) => Err(NoMemory),
    }
}

// Adds the places of the members of a class.
fn push_class(
    kind: Kind,
    classes: &[ClassFile],
    class: u32,
    places: &mut Vec<Place>,
) -> Result<(), NoMemory>
    requires class { class < length classes.now }
    requires few { All IsNamedClass classes.now }
    requires listed { IsOrderedListOf PlaceBefore places.old.items (IsPlaceUpTo kind classes.now class 0) }
    ensures listed { OnOk result (IsOrderedListOf PlaceBefore places.new.items (IsPlaceUpTo kind classes.now (class + 1) 0)) }
    ensures count { (k : ClassFile) → IsClass classes.now class k → OnOk result (length places.new.items ≡ length places.old.items + length (members_of kind k)) }
{
    let members = members_in(kind, &classes[class as usize]);
    for i in 0..members.len() {
        push(places, (ClassId(class), i as u16))?;
    }
    Ok(())
}

// The places of the members of all classes.
fn all_places(alloc: Global, kind: Kind, classes: &[ClassFile]) -> Result<Vec<Place>, NoMemory>
    requires few { length classes.now < 2 ^ 32 }
    requires named { All IsNamedClass classes.now }
    ensures places { IfOk result (λ places. ArePlaces kind classes.now places.items) }
    ensures count { IfOk result (λ places. length places.items ≡ count_members kind classes.now) }
{
    let mut places = Vec::new(alloc);
    for class in 0..classes.len() {
        push_class(kind, classes, class as u32, &mut places)?;
    }
    Ok(places)
}

// Puts members in the order of their numbers.
fn sort_by_number(kind: Kind, classes: &[ClassFile], places: &mut [Place])
    ensures same { IsPermutation places.old places.new }
    ensures sorted { IsSortedByKey (number_key_at kind classes.now) number_cmp places.new }
{
    places.sort_unstable_by(|a, b| compare_two_numbers(kind, classes, *a, *b));
}

// Puts members in the order of their names and descriptors.
fn sort_by_texts(kind: Kind, classes: &[ClassFile], places: &mut [Place])
    ensures same { IsPermutation places.old places.new }
    ensures sorted { IsSortedByKey (texts_at kind classes.now) texts_cmp places.new }
{
    places.sort_unstable_by(|a, b| compare_two_texts(kind, classes, *a, *b));
}

// Members in the order of their numbers.
fn by_number(kind: Kind, classes: &[ClassFile], places: Vec<Place>) -> Vec<Place>
    ensures same { IsPermutation places.items result.items }
    ensures sorted { IsSortedByKey (number_key_at kind classes.now) number_cmp result.items }
{
    let mut places = places;
    sort_by_number(kind, classes, places.as_mut_slice());
    places
}

// Members in the order of their names and descriptors.
fn by_texts(kind: Kind, classes: &[ClassFile], places: Vec<Place>) -> Vec<Place>
    ensures same { IsPermutation places.items result.items }
    ensures sorted { IsSortedByKey (texts_at kind classes.now) texts_cmp result.items }
{
    let mut places = places;
    sort_by_texts(kind, classes, places.as_mut_slice());
    places
}

// A copy of a list of places.
fn copy(alloc: Global, places: &[Place]) -> Result<Vec<Place>, NoMemory>
    ensures { IfOk result (λ copied. copied.items ≡ places.now) }
{
    match Vec::from_slice(alloc, places) {
        Ok(copied) => Ok(copied),
        Err(_) => Err(NoMemory),
    }
}

/// All members of one kind, twice.
#[derive(Drop)]
pub struct Members {
    /// By number.
    pub places: Vec<Place>,
    /// By name and descriptor.
    pub by_texts: Vec<Place>,
}

impl Members {
    /// The members of classes, in n log n comparisons.
    pub fn new(alloc: Global, kind: Kind, classes: &[ClassFile]) -> Result<Members, NoMemory>
        requires few { length classes.now < 2 ^ 32 }
        requires count { count_members kind classes.now < 2 ^ 32 }
        requires named { All IsNamedClass classes.now }
        ensures { IfOk result (λ members. AreMembers kind classes.now members) }
    {
        let places = all_places(alloc, kind, classes)?;
        let copied = copy(alloc, places.as_slice())?;
        Ok(Members {
            places: by_number(kind, classes, places),
            by_texts: by_texts(kind, classes, copied),
        })
    }

    /// The number of the member of this name and descriptor that a class declares; none where it declares none.
    /// Takes a logarithmic number of comparisons.
    pub fn number(
        &self,
        kind: Kind,
        classes: &[ClassFile],
        class: u32,
        name: &[u8],
        descriptor: &[u8],
    ) -> Option<u32>
        requires members { AreMembers kind classes.now self.now }
        requires named { All IsNamedClass classes.now }
        ensures { MatchOption result (DeclaresNone kind classes.now name.now descriptor.now class) (IsNumber kind classes.now self.now.places.items name.now descriptor.now class) }
    {
        let places = self.places.as_slice();
        match places.binary_search_by(|place| {
            compare_number(kind, classes, *place, class, name, descriptor)
        }) {
            Ok(n) => Some(n as u32),
            Err(_) => None,
        }
    }
}

// Whether a member comes before a name and descriptor.
fn is_before(
    kind: Kind,
    classes: &[ClassFile],
    place: Place,
    name: &[u8],
    descriptor: &[u8],
) -> bool
    ensures { result ≡ is_lt (texts_cmp (texts_at kind classes.now place) (texts_of name.now descriptor.now)) }
{
    compare_texts(kind, classes, place, name, descriptor).is_lt()
}

// Whether a member has a name and descriptor, or comes before.
fn is_up_to(kind: Kind, classes: &[ClassFile], place: Place, name: &[u8], descriptor: &[u8]) -> bool
    ensures { result ≡ is_le (texts_cmp (texts_at kind classes.now place) (texts_of name.now descriptor.now)) }
{
    compare_texts(kind, classes, place, name, descriptor).is_le()
}

// How many members come before a name and descriptor.
fn count_before(
    kind: Kind,
    classes: &[ClassFile],
    places: &[Place],
    name: &[u8],
    descriptor: &[u8],
) -> usize
    requires { IsSortedByKey (texts_at kind classes.now) texts_cmp places.now }
    ensures within { result ≤ length places.now }
    ensures point { IsPartitionPoint (λ p. is_lt (texts_cmp (texts_at kind classes.now p) (texts_of name.now descriptor.now)) ≡ true)
        (λ p. is_lt (texts_cmp (texts_at kind classes.now p) (texts_of name.now descriptor.now)) ≡ false) places.now result }
{
    places.partition_point(|place| is_before(kind, classes, *place, name, descriptor))
}

// How many members have a name and descriptor, or come before.
fn count_up_to(
    kind: Kind,
    classes: &[ClassFile],
    places: &[Place],
    name: &[u8],
    descriptor: &[u8],
) -> usize
    requires { IsSortedByKey (texts_at kind classes.now) texts_cmp places.now }
    ensures within { result ≤ length places.now }
    ensures point { IsPartitionPoint (λ p. is_le (texts_cmp (texts_at kind classes.now p) (texts_of name.now descriptor.now)) ≡ true)
        (λ p. is_le (texts_cmp (texts_at kind classes.now p) (texts_of name.now descriptor.now)) ≡ false) places.now result }
{
    places.partition_point(|place| is_up_to(kind, classes, *place, name, descriptor))
}

impl Members {
    /// The members of this name and descriptor. Takes a logarithmic number of comparisons.
    pub fn named(
        &self,
        kind: Kind,
        classes: &[ClassFile],
        name: &[u8],
        descriptor: &[u8],
    ) -> &[Place]
        requires members { AreMembers kind classes.now self.now }
        requires named { All IsNamedClass classes.now }
        ensures within { All (λ p. p.0.0 < length classes.now) result.now }
        ensures exact { (c : ℕ) → IsOneOf result.now c ↔ DeclaresSome kind classes.now name.now descriptor.now c }
    {
        let places = self.by_texts.as_slice();
        let low = count_before(kind, classes, places, name, descriptor);
        let high = count_up_to(kind, classes, places, name, descriptor);
        let (_before, rest) = places.split_at(low);
        let (run, _after) = rest.split_at(high - low);
        run
    }
}
