// The names of classes.
ghost use Rattle.std.specs.Prelude.{◌≡◌, ◌++◌, ◌∷◌, [], All, IfOk, OnOk};
ghost use Rattle.class_form.specs.Numbers.{IsNamedClass};
ghost use Rattle.hierarchy.specs.Names.{name_bytes};
ghost use Rattle.program_form.specs.Programs.{Program};
ghost use Rattle.fact_form.specs.FactTables.{AreClassNames};

use class_form::class_file::ClassFile;
use hierarchy::tree::Hierarchy;
use slicer_ids::ids::NoMemory;
use slicer_ids::list::List;
use slicer_ids::name::Name;
use std::alloc::Global;

fn name_of(class: &ClassFile) -> &[u8]
    ensures { result.now ≡ name_bytes class.now }
{
    match class.pool.class(class.this_class) {
        Some(name) => name,
        None => &[],
    }
}

fn push(names: &mut Vec<Name>, name: Name) -> Result<(), NoMemory>
    ensures { OnOk result (names.new.items ≡ names.old.items ++ name ∷ []) }
{
    match names.push(name) {
        Ok(()) => Ok(()),
        Err(_) => Err(NoMemory),
    }
}

// Adds the name of a class.
fn add_name(alloc: Global, names: &mut Vec<Name>, class: &ClassFile) -> Result<(), NoMemory>
    ensures { OnOk result (names.new.items ≡ names.old.items ++ name_bytes class.now ∷ []) }
{
    let name = Name::from_bytes(alloc, name_of(class))?;
    push(names, name)
}

/// The name of each class of a program, by number. The only error is want of memory.
pub fn class_names(alloc: Global, h: &Hierarchy) -> Result<List<Name>, NoMemory>
    requires named { All IsNamedClass h.now }
    ensures { IfOk result (λ names. (p : Program) → p.classes ≡ h.now → AreClassNames p names) }
{
    let mut names = Vec::new(alloc);
    for class in h.classes() {
        add_name(alloc, &mut names, class)?;
    }
    Ok(List::from_vec(names))
}
