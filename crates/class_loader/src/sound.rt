// The class of one file.
ghost use Rattle.std.specs.Prelude.{◌≡◌, ◌<◌, ◌^◌, ℕ, List, IfOk, Err, length};
ghost use Rattle.byte_form.specs.Places.{IsBytes};
ghost use Rattle.class_form.specs.ClassRules.{Spells};
ghost use Rattle.class_form.specs.FirstFaults.{ClassFault, IsFirstFault};
ghost use Rattle.refusal_lines.specs.Refusals.{file_refusal};
ghost use Rattle.body_rules.specs.Methods.{IsSound};
ghost use Rattle.body_rules.specs.Refused.{Refuses};

use crate::code::try_bodies;
use crate::error::ClassesError;
use class_form::class_file::ClassFile;
use class_reader::read_class;
use refusal_lines::file_refusal;
use std::alloc::Global;

// The class that the bytes of the file at a path spell.
fn class_of(alloc: Global, path: &[u8], bytes: &[u8]) -> Result<ClassFile, ClassesError>
    requires { length bytes.now < 2 ^ 32 }
    ensures octets { IsBytes bytes.now }
    ensures found { IfOk result (Spells bytes.now) }
    ensures refused { (line : List ℕ) → result ≡ Err (ClassesError.Refused line) → (fault : ClassFault) × IsFirstFault bytes.now fault × (line ≡ file_refusal path.now fault) }
{
    match read_class(alloc, bytes) {
        Ok(class) => Ok(class),
        Err(error) => match file_refusal(alloc, path, error) {
            Ok(line) => Err(ClassesError::Refused(line)),
            Err(_) => Err(ClassesError::NoMemory),
        },
    }
}

/// The class that the bytes of the file at a path spell, all of whose code has bodies.
pub fn read_sound(alloc: Global, path: &[u8], bytes: &[u8]) -> Result<ClassFile, ClassesError>
    requires { length bytes.now < 2 ^ 32 }
    ensures sound { IfOk result (IsSound bytes.now) }
    ensures refused { (line : List ℕ) → result ≡ Err (ClassesError.Refused line) → Refuses path.now bytes.now line }
{
    let class = class_of(alloc, path, bytes)?;
    try_bodies(alloc, path, &class)?;
    Ok(class)
}
