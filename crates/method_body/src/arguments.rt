// The slots of a method's arguments.
ghost use Rattle.std.specs.Prelude.{◌≡◌, ◌↔◌, ◌+◌, ◌++◌, ℕ, List, map, sum, IsTrue, IfOk, IfErr};
ghost use Rattle.class_form.specs.Classes.{IsStatic};
ghost use Rattle.class_form.specs.Types.{width};
ghost use Rattle.class_form.specs.declared.types.MethodType.{MethodType};
ghost use Rattle.class_form.specs.declared.code_error.CodeError.TheVariants.{NoMemory};
ghost use Rattle.body_form.specs.Bodies.{HasType, HasRoom, IsReceiver, AreSlotsOf, IsReadable, FitsIn};

use class_form::class_file::{CodeBody, Member};
use class_form::code_error::CodeError;
use class_form::pool::Pool;
use class_form::types::{FieldType, MethodType};
use jvm_names::{method_type, parameter_slots};
use std::alloc::Global;

// Whether the method has no receiver (JVMS SE 7, table 4.6-A).
fn is_static(flags: u16) -> bool
    ensures { IsTrue result ↔ IsStatic flags }
{
    flags & 0x0008 != 0
}

// So many slots, and one for the receiver where there is one.
fn with_receiver(slots: u8, flags: u16) -> u16
    ensures { (receiver : List ℕ) × IsReceiver flags receiver × (result ≡ sum receiver + slots) }
{
    let slots = slots as u16;
    if is_static(flags) { slots } else { slots + 1 }
}

// Whether arguments of so many slots, with a receiver where there is one, are few enough for a method with so many locals.
fn fits(slots: u8, flags: u16, locals: u16) -> bool
    ensures { IsTrue result ↔ FitsIn slots flags locals }
{
    let all = with_receiver(slots, flags);
    all <= 255 && all <= locals
}

// Whether the method has a type, and room for its arguments.
fn has_room(pool: &Pool, method: &Member, locals: u16) -> bool
    ensures { IsTrue result ↔ HasRoom pool.now method.now locals }
{
    let Some(text) = pool.utf(method.descriptor) else {
        return false;
    };
    let Some(slots) = parameter_slots(text) else {
        return false;
    };
    fits(slots, method.flags, locals)
}

/// Whether the code of a method can be read: it has 1 to 65535 bytes, and the method's descriptor is a method type whose arguments,
/// with the receiver, take at most 255 slots and have locals of their own (JVMS SE 7, 4.3.3, 4.7.3 and 4.11). A method of a class
/// file that keeps the rules is of this kind.
///
/// It takes time for the descriptor, and no memory.
pub fn is_readable(pool: &Pool, method: &Member, code: &CodeBody) -> bool
    ensures { IsTrue result ↔ IsReadable pool.now method.now code.now }
{
    let size = code.code.bytes().len();
    0 < size && size <= 65535 && has_room(pool, method, code.max_locals)
}

// The type of the method. A text of 4 GiB, which no class file has, is taken for want of memory.
fn type_of(alloc: Global, pool: &Pool, method: &Member) -> Result<MethodType, CodeError>
    requires { (t : MethodType) × HasType pool.now method.now t }
    ensures found { IfOk result (HasType pool.now method.now) }
    ensures memory { IfErr result (λ e. e ≡ NoMemory) }
{
    let Some(text) = pool.utf(method.descriptor) else {
        return Err(CodeError::NoMemory);
    };
    if text.len() > u32::MAX as usize {
        return Err(CodeError::NoMemory);
    }
    match method_type(alloc, text) {
        Ok(found) => Ok(found),
        Err(_) => Err(CodeError::NoMemory),
    }
}

// Some slots, and those of each type after them.
fn with_types(slots: Vec<u8>, types: &[FieldType]) -> Result<Vec<u8>, CodeError>
    ensures found { IfOk result (λ v. v.items ≡ slots.items ++ map width types.now) }
    ensures memory { IfErr result (λ e. e ≡ NoMemory) }
{
    let mut all = slots;
    for t in types {
        all.push(t.width())?;
    }
    Ok(all)
}

// The slots of the receiver, where there is one.
fn receiver(alloc: Global, flags: u16) -> Result<Vec<u8>, CodeError>
    ensures found { IfOk result (λ v. IsReceiver flags v.items) }
    ensures memory { IfErr result (λ e. e ≡ NoMemory) }
{
    if is_static(flags) {
        Ok(Vec::new(alloc))
    } else {
        Ok(vec![in alloc; 1]?)
    }
}

/// The slots of each argument of a method, the receiver's first. It takes time for the descriptor.
pub(crate) fn slots_of(alloc: Global, pool: &Pool, method: &Member) -> Result<Vec<u8>, CodeError>
    requires { (t : MethodType) × HasType pool.now method.now t }
    ensures found { IfOk result (λ v. AreSlotsOf pool.now method.now v.items) }
    ensures memory { IfErr result (λ e. e ≡ NoMemory) }
{
    let method_type = type_of(alloc, pool, method)?;
    let front = receiver(alloc, method.flags)?;
    with_types(front, method_type.arguments.items())
}
