// How many arguments methods and calls have.
ghost use Rattle.std.specs.Prelude.{◌≡◌, ◌↔◌, ◌<◌, ℕ, true, false, IsTrue, IfOk};
ghost use Rattle.slicer_ids.specs.declared.ids.Statement.{Statement};
ghost use Rattle.class_form.specs.Classes.{IsStatic, IsNative};
ghost use Rattle.class_form.specs.declared.body.Body.{Body};
ghost use Rattle.class_form.specs.declared.types.MethodType.{MethodType};
ghost use Rattle.body_form.specs.Bodies.{HasType};
ghost use Rattle.program_form.specs.Programs.{Program, ClassOf};
ghost use Rattle.program_form.specs.Statements.{IsAt};
ghost use Rattle.program_form.specs.Nodes.{HasArgument};
ghost use Rattle.constraint_form.specs.Asked.{IsReadProgram};
ghost use Rattle.variable_tables.specs.Arguments.{IsCountOf, IsWithReceiver, AreFormals, AreArgumentsOf};

use crate::kinds::{has_receiver, is_call};
use class_form::body::Instr;
use class_form::class_file::{ClassFile, Member};
use class_form::pool::Pool;
use jvm_names::{NameError, method_type};
use slicer_ids::ids::NoMemory;
use std::alloc::Global;

/// Whether the method has no receiver (JVMS SE 7, table 4.6-A).
pub(crate) fn is_static(flags: u16) -> bool
    ensures { IsTrue result ↔ IsStatic flags }
{
    flags & 0x0008 != 0
}

/// Whether the method is native (JVMS SE 7, table 4.6-A).
pub(crate) fn is_native(flags: u16) -> bool
    ensures { IsTrue result ↔ IsNative flags }
{
    flags & 0x0100 != 0
}

// How many arguments a descriptor has; none where it is no method descriptor. A text of 4 GiB, which no class file has, is
// answered with want of memory.
fn count_types(alloc: Global, bytes: &[u8]) -> Result<Option<usize>, NoMemory>
    ensures { IfOk result (IsCountOf bytes.now) }
{
    if bytes.len() > u32::MAX as usize {
        return Err(NoMemory);
    }
    match method_type(alloc, bytes) {
        Ok(found) => Ok(Some(found.arguments.items().len())),
        Err(NameError::Malformed(_)) => Ok(None),
        Err(NameError::NoMemory) => Err(NoMemory),
    }
}

// So many, and one for the receiver, where there is one. Lists are shorter than 2^63.
fn with_receiver(count: usize, receiver: bool) -> Result<usize, NoMemory>
    ensures { IfOk result (IsWithReceiver (receiver ≡ false) (receiver ≡ true) count) }
{
    if !receiver {
        return Ok(count);
    }
    match count.checked_add(1) {
        Some(all) => Ok(all),
        None => Err(NoMemory),
    }
}

/// How many arguments a method has, a receiver counted; none where its descriptor is no method descriptor.
pub(crate) fn formals(alloc: Global, pool: &Pool, method: &Member) -> Result<usize, NoMemory>
    requires { (t : MethodType) × HasType pool.now method.now t }
    ensures { IfOk result (AreFormals pool.now method.now) }
{
    match pool.utf(method.descriptor) {
        Some(text) => match count_types(alloc, text)? {
            Some(count) => with_receiver(count, !is_static(method.flags)),
            None => Ok(0),
        },
        None => Ok(0),
    }
}

// How many arguments the descriptor of a call has, a receiver counted.
fn described(alloc: Global, pool: &Pool, instr: &Instr) -> Result<usize, NoMemory>
    ensures { IfOk result (AreArgumentsOf pool.now instr.now) }
{
    match pool.descriptor(instr.index) {
        Some(text) => match count_types(alloc, text)? {
            Some(count) => with_receiver(count, has_receiver(instr.op)),
            None => Ok(0),
        },
        None => Ok(0),
    }
}

/// How many arguments the instruction has, where it is a call, a receiver counted; none for others.
pub(crate) fn arguments(alloc: Global, file: &ClassFile, instr: &Instr) -> Result<usize, NoMemory>
    ensures { IfOk result (λ n. (p : Program) (t : Statement) (b : Body) (c : ℕ) → IsReadProgram p → IsAt p t b instr.now → ClassOf p t.method c file.now → (i : ℕ) → HasArgument p t i ↔ (i < n)) }
{
    if is_call(instr.op) {
        described(alloc, &file.pool, instr)
    } else {
        Ok(0)
    }
}
