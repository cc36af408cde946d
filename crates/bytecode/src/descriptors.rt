// The types of the constants that instructions name.
ghost use Rattle.std.specs.Prelude.{◌≡◌, IfOk, IfErr, MatchOption};
ghost use Rattle.class_form.specs.Types.{IsFieldType, IsMethodType};
ghost use Rattle.class_form.specs.declared.code_error.CodeError.TheVariants.{NoMemory};
ghost use Rattle.class_form.specs.declared.types.FieldType.{FieldType};
ghost use Rattle.class_form.specs.declared.types.MethodType.{MethodType};

use class_form::code_error::CodeError;
use class_form::types::{FieldType, MethodType};
use jvm_names::{NameError, field_type, method_type};
use std::alloc::Global;

/// The type of a field, or of something that is called.
#[derive(Drop)]
pub(crate) enum Described {
    Nothing,
    Field(FieldType),
    Call(MethodType),
}

/// The type that a descriptor of a field spells; none where it is no such descriptor. A text of 4 GiB, which no class file
/// has, is taken for want of memory.
pub(crate) fn field(alloc: Global, bytes: &[u8]) -> Result<Option<FieldType>, CodeError>
    ensures read { IfOk result (λ o. MatchOption o ((t : FieldType) → IsFieldType bytes.now t → ⊥) (IsFieldType bytes.now)) }
    ensures memory { IfErr result (λ e. e ≡ NoMemory) }
{
    if bytes.len() > u32::MAX as usize {
        return Err(CodeError::NoMemory);
    }
    match field_type(alloc, bytes) {
        Ok(field) => Ok(Some(field)),
        Err(NameError::Malformed(_)) => Ok(None),
        Err(NameError::NoMemory) => Err(CodeError::NoMemory),
    }
}

/// The type that a descriptor of a method spells; none where it is no such descriptor. A text of 4 GiB, which no class file
/// has, is taken for want of memory.
pub(crate) fn method(alloc: Global, bytes: &[u8]) -> Result<Option<MethodType>, CodeError>
    ensures read { IfOk result (λ o. MatchOption o ((m : MethodType) → IsMethodType bytes.now m → ⊥) (IsMethodType bytes.now)) }
    ensures memory { IfErr result (λ e. e ≡ NoMemory) }
{
    if bytes.len() > u32::MAX as usize {
        return Err(CodeError::NoMemory);
    }
    match method_type(alloc, bytes) {
        Ok(method) => Ok(Some(method)),
        Err(NameError::Malformed(_)) => Ok(None),
        Err(NameError::NoMemory) => Err(CodeError::NoMemory),
    }
}
