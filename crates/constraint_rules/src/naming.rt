// What an instruction names.
ghost use Rattle.std.specs.Prelude.{◌≡◌, ◌↔◌, List, IsTrue, Some, None, option_map};
ghost use Rattle.slicer_ids.specs.declared.ids.FieldId.{FieldId};
ghost use Rattle.class_form.specs.Pools.{member_at};
ghost use Rattle.dep_form.specs.Constraints.{state_field};
ghost use Rattle.dep_form.specs.declared.system.System.{System};
ghost use Rattle.program_form.specs.Programs.{Program};
ghost use Rattle.program_form.specs.Statements.{NamesField};
ghost use Rattle.constraint_form.specs.Variables.{Meaning};
ghost use Rattle.constraint_rules.specs.One.{IsOne};
ghost use Rattle.constraint_rules.specs.Settings.{IsSetting, IsPlaced, place_of};
ghost use Rattle.constraint_rules.specs.Statements.{IsFieldOf, IsKeptBy};
ghost use Rattle.constraint_rules.specs.Naming.{key_in};

use crate::numbers::state;
use crate::tables::{Reachable, Tables};
use class_form::member_name::MemberName;
use slicer_ids::ids::{ClassId, FieldId};

/// The field or method that an instruction names.
#[derive(Clone, Copy)]
pub struct Reference<'a> {
    pub class: &'a [u8],
    pub name: &'a [u8],
    pub descriptor: &'a [u8],
}

/// The field or method that the instruction names; none where it names none.
pub fn named_member<'a>(x: &Reachable<'a>) -> Option<Reference<'a>>
    ensures { option_map key_in result ≡ member_at x.now.file.now.pool x.now.instr.now.index }
{
    match x.file.pool.member(x.instr.index) {
        Some(
            MemberName {
                class,
                name,
                descriptor,
                interface: _,
            },
        ) => Some(Reference {
            class,
            name,
            descriptor,
        }),
        None => None,
    }
}

/// The field of the folder that the instruction names, or that the search finds none; none where it names no member.
pub(crate) fn named_field(t: &Tables<'_>, x: &Reachable<'_>) -> Option<Option<FieldId>>
    ensures { (p : Program) (s : System) (names : List Meaning) → IsSetting t.now p s names → IsPlaced p x.now → IsOne (NamesField p (place_of x.now)) result }
{
    match named_member(x) {
        Some(r) => Some(t.h.find_field(r.class, r.name, r.descriptor)),
        None => None,
    }
}

// The number of a field that was found; of one that wasn't, the state of the object.
fn number_of(t: &Tables<'_>, found: Option<FieldId>) -> Option<FieldId>
    ensures named { (f : FieldId) → found ≡ Some f → result ≡ Some f }
    ensures state { (p : Program) (s : System) (names : List Meaning) → IsSetting t.now p s names → found ≡ None → IsOne (λ g. g ≡ state_field s) result }
{
    match found {
        Some(field) => Some(field),
        None => state(t),
    }
}

/// The number of the field that the instruction names.
pub fn field_of(t: &Tables<'_>, x: &Reachable<'_>) -> Option<FieldId>
    ensures { (p : Program) (s : System) (names : List Meaning) → IsSetting t.now p s names → IsPlaced p x.now → IsOne (IsFieldOf p s (place_of x.now)) result }
{
    match named_field(t, x) {
        Some(found) => number_of(t, found),
        None => None,
    }
}

// Whether nothing was found.
fn is_none(found: Option<FieldId>) -> bool
    ensures { IsTrue result ↔ (found ≡ None) }
{
    match found {
        Some(_) => false,
        None => true,
    }
}

/// Whether the instruction names a field that isn't found.
pub(crate) fn names_no_field(t: &Tables<'_>, x: &Reachable<'_>) -> bool
    ensures { (p : Program) (s : System) (names : List Meaning) → IsSetting t.now p s names → IsPlaced p x.now → IsTrue result ↔ NamesField p (place_of x.now) None }
{
    match named_field(t, x) {
        Some(found) => is_none(found),
        None => false,
    }
}

/// The class that a cast keeps: the one that it names, where that is of the folder, or all; none where it names no class.
pub(crate) fn kept(t: &Tables<'_>, x: &Reachable<'_>) -> Option<Option<ClassId>>
    ensures { (p : Program) (s : System) (names : List Meaning) → IsSetting t.now p s names → IsPlaced p x.now → IsOne (IsKeptBy p (place_of x.now)) result }
{
    match x.file.pool.class(x.instr.index) {
        Some(text) => Some(t.h.find_class(text)),
        None => None,
    }
}
