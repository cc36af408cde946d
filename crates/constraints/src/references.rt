// Which arguments of a call are references.
ghost use Rattle.std.specs.Prelude.{◌≡◌, ◌↔◌, IsTrue, IfOk};
ghost use Rattle.class_form.specs.Opcodes.{IsInstanceCall};
ghost use Rattle.class_form.specs.Types.{is_reference as is_reference_type};
ghost use Rattle.constraints.specs.Calls.{flags_of, AreFlagsOf, AreFlagsAt};
ghost use Rattle.std.specs.Prelude.{[]};

use class_form::types::{BaseType, FieldType};
use constraint_rules::tables::Reachable;
use jvm_names::{NameError, method_type};
use slicer_ids::ids::NoMemory;
use std::alloc::Global;

/// Whether a call has a receiver.
pub(crate) fn has_receiver(op: u8) -> bool
    ensures { IsTrue result ↔ IsInstanceCall op }
{
    matches!(op, 182 | 183 | 185)
}

// Whether the values of a type are references (JVMS SE 7, 2.4).
fn is_reference(kind: &FieldType) -> bool
    ensures { result ≡ is_reference_type kind.now }
{
    if kind.dims > 0 {
        return true;
    }
    match &kind.base {
        BaseType::Class(_) => true,
        BaseType::Primitive(_) => false,
    }
}

// A receiver is a reference.
fn first(alloc: Global, receiver: bool) -> Result<Vec<bool>, NoMemory>
    ensures { IfOk result (λ flags. flags.items ≡ flags_of receiver []) }
{
    let mut flags = Vec::new(alloc);
    if !receiver {
        return Ok(flags);
    }
    flags.push(true)?;
    Ok(flags)
}

// Whether each of some arguments is a reference; a receiver comes first.
fn each(alloc: Global, receiver: bool, arguments: &[FieldType]) -> Result<Vec<bool>, NoMemory>
    ensures { IfOk result (λ flags. flags.items ≡ flags_of receiver arguments.now) }
{
    let mut flags = first(alloc, receiver)?;
    for argument in arguments {
        flags.push(is_reference(argument))?;
    }
    Ok(flags)
}

// .. of a call of a method with this descriptor. A text of 4 GiB, which no class file has, is answered with want of memory, as is
// one that is no descriptor of a method.
fn described(alloc: Global, receiver: bool, text: &[u8]) -> Result<Vec<bool>, NoMemory>
    ensures { IfOk result (λ flags. AreFlagsOf receiver text.now flags.items) }
{
    if text.len() > u32::MAX as usize {
        return Err(NoMemory);
    }
    match method_type(alloc, text) {
        Ok(found) => each(alloc, receiver, found.arguments.items()),
        Err(NameError::Malformed(_)) => Err(NoMemory),
        Err(NameError::NoMemory) => Err(NoMemory),
    }
}

/// Whether each argument of a call is a reference, a receiver counted. A call without a method descriptor, which no class file
/// that is well formed has, is answered with want of memory.
pub(crate) fn references(
    alloc: Global,
    x: &Reachable<'_>,
    receiver: bool,
) -> Result<Vec<bool>, NoMemory>
    ensures { IfOk result (λ flags. AreFlagsAt receiver x.now.file.now.pool x.now.instr.now.index flags.items) }
{
    match x.file.pool.descriptor(x.instr.index) {
        Some(text) => described(alloc, receiver, text),
        None => Err(NoMemory),
    }
}
