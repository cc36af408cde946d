// What the texts of a pool are, each looked at once.
ghost use Rattle.std.specs.Prelude.{◌≡◌, IfOk, map};
ghost use Rattle.const_pool.specs.Texts.{kinds_of, kinds_of_text, no_kinds};

use class_form::pool::Constant;
use jvm_names::{
    is_array_type, is_class_name, is_field_type, is_method_name, is_unqualified_name,
    parameter_slots,
};
use std::alloc::{AllocError, Global};

/// What a constant is as a text. A constant that is no text is nothing.
#[derive(Clone, Copy)]
pub struct TextKinds {
    pub unqualified: bool,
    pub method_name: bool,
    /// The name of a class, or an array type.
    pub class: bool,
    /// A field type.
    pub field: bool,
    /// Of a method type, the slots that its arguments take.
    pub slots: Option<u8>,
}

impl TextKinds {
    /// Of what is no text.
    pub const NONE: TextKinds = TextKinds {
        unqualified: false,
        method_name: false,
        class: false,
        field: false,
        slots: None,
    };
}

fn kinds_of_text(text: &[u8]) -> TextKinds
    ensures { result ≡ kinds_of_text text.now }
{
    TextKinds {
        unqualified: is_unqualified_name(text),
        method_name: is_method_name(text),
        class: is_class_name(text) || is_array_type(text),
        field: is_field_type(text),
        slots: parameter_slots(text),
    }
}

/// What a constant is as a text. Linear in it.
pub fn kinds_of(constant: &Constant) -> TextKinds
    ensures { result ≡ kinds_of constant.now }
{
    match constant {
        Constant::Utf8(text) => kinds_of_text(text.bytes()),
        _ => TextKinds::NONE,
    }
}

/// The kinds of some constants. Linear in their texts.
pub fn kinds(alloc: Global, constants: &[Constant]) -> Result<Vec<TextKinds>, AllocError>
    ensures { IfOk result (λ v. v.items ≡ map kinds_of constants.now) }
{
    let mut kinds = Vec::new(alloc);
    for constant in constants {
        kinds.push(kinds_of(constant))?;
    }
    Ok(kinds)
}
