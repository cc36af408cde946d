// Whether bytes are a descriptor.
ghost use Rattle.std.specs.Prelude.{◌≡◌, ◌↔◌, IsTrue, IsSome, Some};
ghost use Rattle.class_form.specs.declared.types.FieldType.{FieldType};
ghost use Rattle.class_form.specs.declared.types.MethodType.{MethodType};
ghost use Rattle.class_form.specs.Types.{IsFieldType, IsArrayType, IsMethodType, slots};
ghost use Rattle.class_form.specs.NameTests.{reached, go_on_descriptor, is_end, is_field_type, is_array_type, is_method_type};
ghost use Rattle.class_form.specs.NameTests as tests;
ghost use Rattle.jvm_names.specs.States.{state_of, FaultIs};

use crate::descriptor::{Place, State};

/// How many of the bytes some descriptor begins with, from a state on; none where they are a whole one.
pub fn fault(start: State, bytes: &[u8]) -> Option<usize>
    ensures { FaultIs (state_of start) bytes.now result }
{
    match start.scan(bytes) {
        Ok(state) => {
            if state.is_end() {
                None
            } else {
                Some(bytes.len())
            }
        }
        Err(at) => Some(at),
    }
}

/// Whether the bytes lead from a state to the end of a descriptor.
fn ends(start: State, bytes: &[u8]) -> bool
    ensures { result ≡ is_end (reached go_on_descriptor (state_of start) bytes.now) }
{
    match start.scan(bytes) {
        Ok(state) => state.is_end(),
        Err(_) => false,
    }
}

/// The slots of the arguments at the end of a descriptor to which the bytes lead from a state.
fn slots_at_end(start: State, bytes: &[u8]) -> Option<u8>
    ensures { result ≡ tests.slots_at_end (reached go_on_descriptor (state_of start) bytes.now) }
{
    match start.scan(bytes) {
        Ok(state) => state.slots(),
        Err(_) => None,
    }
}

/// Whether the bytes are a field descriptor (JVMS SE 7 4.3.2) of at most 255 dimensions. One pass.
pub fn is_field_type(bytes: &[u8]) -> bool
    ensures exact { IsTrue result ↔ ((t : FieldType) × IsFieldType bytes.now t) }
    ensures test { result ≡ is_field_type bytes.now }
{
    ends(State::InType(Place::Alone, 0), bytes)
}

/// Whether the bytes are the field descriptor of an array. One pass.
pub fn is_array_type(bytes: &[u8]) -> bool
    ensures exact { IsTrue result ↔ ((t : FieldType) × IsArrayType bytes.now t) }
    ensures test { result ≡ is_array_type bytes.now }
{
    !bytes.is_empty() && bytes[0] == b'[' && is_field_type(bytes)
}

/// Whether the bytes are a method descriptor (JVMS SE 7 4.3.3) whose arguments take at most 255 slots. One pass.
pub fn is_method_type(bytes: &[u8]) -> bool
    ensures exact { IsTrue result ↔ ((m : MethodType) × IsMethodType bytes.now m) }
    ensures test { result ≡ is_method_type bytes.now }
{
    ends(State::Open, bytes)
}

/// The slots of the arguments of a method descriptor, two for long and double and one for each other, without the receiver's; none
/// where the bytes are no method descriptor. One pass.
pub fn parameter_slots(bytes: &[u8]) -> Option<u8>
    ensures exact { (m : MethodType) → IsMethodType bytes.now m → result ≡ Some (slots m.arguments) }
    ensures only { IsSome result → (m : MethodType) × IsMethodType bytes.now m }
    ensures test { result ≡ tests.parameter_slots bytes.now }
{
    slots_at_end(State::Open, bytes)
}
