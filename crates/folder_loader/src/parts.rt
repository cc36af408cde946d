// The program of a hierarchy.
ghost use Rattle.std.specs.Prelude.{◌≡◌, ℕ, List, All, IfOk, Err, codes, option_map};
ghost use Rattle.class_form.specs.Classes.{Declared};
ghost use Rattle.class_form.specs.Numbers.{AreMethods, AreFields};
ghost use Rattle.program_form.specs.Programs.{Program};
ghost use Rattle.call_graph.specs.Entries.{AreEntries, HasNoEntry};
ghost use Rattle.class_loader.specs.Sound.{IsSoundClass, AreBodiesOf};
ghost use Rattle.folder_loader.specs.Loading.{HasParts, IsLoaded};

use crate::error::LoadError;
use crate::lines::no_entry;
use call_graph::{EntryError, entries};
use class_form::body::Body;
use class_loader::bodies;
use dep_form::rules::Entry;
use hierarchy::Hierarchy;
use slicer_ids::list::List;
use std::alloc::Global;

/// The parts of a program that was loaded.
#[derive(Drop)]
pub struct Loaded {
    /// Its classes, fields and methods, by number.
    pub hierarchy: Hierarchy,
    /// The bodies of its methods with code, in order of method.
    pub bodies: Vec<Body>,
    /// Where it starts, in order of method.
    pub entries: List<Entry>,
}

// The methods and fields of a hierarchy have numbers. Nothing is done.
fn numbered(h: &Hierarchy)
    ensures { (methods : List Declared) × (fields : List Declared) × AreMethods h.now methods × AreFields h.now fields }
{
    let _methods = h.method_places();
    let _fields = h.field_places();
}

// Where the program of a hierarchy starts.
fn entries_of(alloc: Global, h: &Hierarchy, main: Option<&[u8]>) -> Result<List<Entry>, LoadError>
    ensures entries { IfOk result (λ v. AreEntries h.now (option_map (λ b. b.now) main.entry) v) }
    ensures refused { (line : List ℕ) → result ≡ Err (LoadError.Refused line) → HasNoEntry h.now (option_map (λ b. b.now) main.entry) × (line ≡ codes "refused no entry method") }
    ensures host { result ≡ Err LoadError.Host → ⊥ }
{
    match entries(alloc, h, main) {
        Ok(entries) => Ok(entries),
        Err(EntryError::NoEntry) => Err(no_entry(alloc)),
        Err(EntryError::NoMemory) => Err(LoadError::NoMemory),
    }
}

fn bodies_of(alloc: Global, h: &Hierarchy) -> Result<Vec<Body>, LoadError>
    requires { All IsSoundClass h.now }
    ensures bodies { IfOk result (λ v. AreBodiesOf h.now v.items) }
    ensures refused { (line : List ℕ) → result ≡ Err (LoadError.Refused line) → ⊥ }
    ensures host { result ≡ Err LoadError.Host → ⊥ }
{
    match bodies(alloc, h) {
        Ok(bodies) => Ok(bodies),
        Err(_) => Err(LoadError::NoMemory),
    }
}

/// The parts of the program of a hierarchy of sound classes, or the line that there is no entry. The classes are looked at for an
/// entry before their code is read.
pub fn parts_of(
    alloc: Global,
    hierarchy: Hierarchy,
    main: Option<&[u8]>,
) -> Result<Loaded, LoadError>
    requires { All IsSoundClass hierarchy }
    ensures classes { IfOk result (λ l. l.hierarchy ≡ hierarchy) }
    ensures program { IfOk result (λ l. (p : Program) × HasParts l.hierarchy l.bodies.items l.entries p × IsLoaded (option_map (λ b. b.now) main.entry) p) }
    ensures refused { (line : List ℕ) → result ≡ Err (LoadError.Refused line) → HasNoEntry hierarchy (option_map (λ b. b.now) main.entry) × (line ≡ codes "refused no entry method") }
    ensures host { result ≡ Err LoadError.Host → ⊥ }
{
    numbered(&hierarchy);
    let entries = entries_of(alloc, &hierarchy, main)?;
    let bodies = bodies_of(alloc, &hierarchy)?;
    Ok(Loaded {
        hierarchy,
        bodies,
        entries,
    })
}
