// The methods by which a program starts.
ghost use Rattle.std.specs.Prelude.{◌≡◌, ◌↔◌, ◌<◌, ◌^◌, ◌++◌, ◌∷◌, [], Some, IsTrue, IfErr, IfOk, OnOk, if◌then◌else◌, length, map, option_map, slice_get};
ghost use Rattle.class_form.specs.declared.class_file.Member.{Member};
ghost use Rattle.class_form.specs.Numbers.{AreMethods};
ghost use Rattle.hierarchy.specs.Places.{declared_at};
ghost use Rattle.call_graph.specs.Entries.{AreEntries, HasNoEntry, IsEntryMethod};
ghost use Rattle.call_graph.specs.Looking.{AreEntriesBelow, HasChosenName, IsMainMethod, entry_of};

use crate::texts::{has_code, is_class_text, is_public, is_static, is_text};
use class_form::class_file::{ClassFile, Member};
use dep_form::rules::Entry;
use hierarchy::Hierarchy;
use slicer_ids::ids::{ClassId, MethodId, NoMemory};
use slicer_ids::list::List;
use std::alloc::Global;
use thiserror::Error;

/// Why a program has no entries.
#[derive(Clone, Copy, PartialEq, Eq, Debug, Drop, Error)]
pub enum EntryError {
    #[error("no memory")]
    NoMemory,
    #[error("no entry method")]
    NoEntry,
}

fn is_chosen(main: Option<&[u8]>, class: &ClassFile) -> bool
    ensures { IsTrue result ↔ HasChosenName (option_map (λ b. b.now) main.entry) class.now }
{
    match main {
        None => true,
        Some(name) => is_class_text(&class.pool, class.this_class, name),
    }
}

// Whether the method is one by which a program starts, where its class is chosen.
fn is_main(class: &ClassFile, method: &Member) -> bool
    ensures { IsTrue result ↔ IsMainMethod class.now method.now }
{
    is_public(method.flags)
        && is_static(method.flags)
        && is_text(&class.pool, method.name, b"main")
        && is_text(&class.pool, method.descriptor, b"([Ljava/lang/String;)V")
        && has_code(method.attributes.items())
}

fn is_entry_of(class: &ClassFile, index: u16, main: Option<&[u8]>) -> bool
    ensures { IsTrue result ↔ ((m : Member) × (slice_get class.now.methods index ≡ Some m) × IsMainMethod class.now m × HasChosenName (option_map (λ b. b.now) main.entry) class.now) }
{
    match class.methods.items().get(index as usize) {
        None => false,
        Some(method) => is_main(class, method) && is_chosen(main, class),
    }
}

// Whether the method that stands there is an entry method.
fn is_entry(classes: &[ClassFile], place: (ClassId, u16), main: Option<&[u8]>) -> bool
    ensures { IsTrue result ↔ IsEntryMethod classes.now (option_map (λ b. b.now) main.entry) (declared_at place) }
{
    match classes.get(place.0.0 as usize) {
        None => false,
        Some(class) => is_entry_of(class, place.1, main),
    }
}

// One more method was looked at.
fn add_entry(all: &mut Vec<Entry>, is: bool, number: u32) -> Result<(), NoMemory>
    ensures { OnOk result (all.new.items ≡ (if is then all.old.items ++ entry_of number ∷ [] else all.old.items)) }
{
    if !is {
        return Ok(());
    }
    match all.push(Entry {
        method: MethodId(number),
        arguments: true,
    }) {
        Ok(()) => Ok(()),
        Err(_) => Err(NoMemory),
    }
}

fn place_at(places: &[(ClassId, u16)], number: usize) -> (ClassId, u16)
    requires { number < length places.now }
    ensures { slice_get places.now number ≡ Some result }
{
    places[number]
}

fn listed(
    alloc: Global,
    classes: &[ClassFile],
    places: &[(ClassId, u16)],
    main: Option<&[u8]>,
) -> Result<Vec<Entry>, NoMemory>
    requires { length places.now < 2 ^ 32 }
    ensures { IfOk result (λ v. AreEntriesBelow classes.now (map declared_at places.now) (option_map (λ b. b.now) main.entry) v.items (length places.now)) }
{
    let mut all = Vec::new(alloc);
    for number in 0..places.len() {
        let is = is_entry(classes, place_at(places, number), main);
        add_entry(&mut all, is, number as u32)?;
    }
    Ok(all)
}

fn with_places(
    alloc: Global,
    classes: &[ClassFile],
    places: &[(ClassId, u16)],
    main: Option<&[u8]>,
) -> Result<List<Entry>, EntryError>
    requires methods { AreMethods classes.now (map declared_at places.now) }
    ensures entries { IfOk result (λ v. AreEntries classes.now (option_map (λ b. b.now) main.entry) v) }
    ensures none { IfErr result (λ e. (e ≡ EntryError.NoEntry) → HasNoEntry classes.now (option_map (λ b. b.now) main.entry)) }
{
    if places.len() >= 0x1_0000_0000 {
        return Err(EntryError::NoMemory);
    }
    let Ok(all) = listed(alloc, classes, places, main) else {
        return Err(EntryError::NoMemory);
    };
    if all.is_empty() {
        return Err(EntryError::NoEntry);
    }
    Ok(List::from_vec(all))
}

/// The entry methods of a program, in order: each public static `main` with the descriptor `([Ljava/lang/String;)V` and code
/// (JVMS SE 7, 5.2) that is declared in the class of this name, or in any class of the folder where no name is given. Each is
/// given the arguments.
///
/// `NoEntry` is answered exactly where there is none; the other error is want of memory. A folder with 2^32 methods has it too.
/// Each method is looked at once.
pub fn entries(alloc: Global, h: &Hierarchy, main: Option<&[u8]>) -> Result<List<Entry>, EntryError>
    ensures entries { IfOk result (λ v. AreEntries h.now (option_map (λ b. b.now) main.entry) v) }
    ensures none { IfErr result (λ e. (e ≡ EntryError.NoEntry) → HasNoEntry h.now (option_map (λ b. b.now) main.entry)) }
{
    with_places(alloc, h.classes(), h.method_places(), main)
}
