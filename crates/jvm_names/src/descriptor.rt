// Descriptors, byte by byte.
ghost use Rattle.std.specs.Prelude.{◌≡◌, Some, option_map};
ghost use Rattle.class_form.specs.NameTests.{go_on_descriptor, go_on_type, go_on_outcome};
ghost use Rattle.class_form.specs.NameTests as tests;
ghost use Rattle.jvm_names.specs.States.{name_of, place_of, state_of, ScanIs};

use crate::names::InName;

/// Where a type stands.
#[derive(Clone, Copy)]
pub enum Place {
    /// By itself.
    Alone,
    /// As an argument; the slots of those before it.
    Argument(u8),
    /// As the result; the slots of the arguments.
    Outcome(u8),
}

/// A place in a descriptor.
#[derive(Clone, Copy)]
pub enum State {
    /// Before the `(` of a method type.
    Open,
    /// Between arguments; the slots of those before.
    Between(u8),
    /// In a type, after so many `[`.
    InType(Place, u8),
    /// In the name of a class.
    InClass(Place, InName),
    /// After a whole descriptor; the slots of its arguments.
    End(u8),
}

/// Whether the byte is the letter of a primitive type.
fn is_letter(byte: u8) -> bool
    ensures { result ≡ tests.is_letter byte }
{
    matches!(byte, b'B' | b'C' | b'D' | b'F' | b'I' | b'J' | b'S' | b'Z')
}

/// The slots of an array of so many dimensions of a primitive type, by its letter.
fn letter_width(dims: u8, letter: u8) -> u8
    ensures { result ≡ tests.letter_width dims letter }
{
    if dims == 0 && (letter == b'J' || letter == b'D') {
        2
    } else {
        1
    }
}

impl Place {
    /// The state after a type of so many slots at the place; none where arguments would take more than 255.
    fn after_type(self, width: u8) -> Option<State>
        ensures { option_map state_of result ≡ tests.after_type (place_of self) width }
    {
        match self {
            Place::Alone => Some(State::End(0)),
            Place::Argument(slots) => {
                let slots = slots.checked_add(width)?;
                Some(State::Between(slots))
            }
            Place::Outcome(slots) => Some(State::End(slots)),
        }
    }

    /// The state after a byte in a type of which so many `[` were read; none where no type goes on so.
    fn next(self, dims: u8, byte: u8) -> Option<State>
        ensures { option_map state_of result ≡ go_on_type (place_of self) dims byte }
    {
        if byte == b'[' {
            let dims = dims.checked_add(1)?;
            return Some(State::InType(self, dims));
        }
        if byte == b'L' {
            return Some(State::InClass(self, InName::Fresh));
        }
        if is_letter(byte) {
            self.after_type(letter_width(dims, byte))
        } else {
            None
        }
    }

    /// The state after a byte in the name of a class.
    fn next_in_name(self, name: InName, byte: u8) -> Option<State>
        ensures { option_map state_of result ≡ go_on_descriptor (tests.InClass (place_of self) (name_of name)) byte }
    {
        if byte == b';' && name.is_whole() {
            return self.after_type(1);
        }
        let name = name.next(byte)?;
        Some(State::InClass(self, name))
    }
}

/// The state after a byte between arguments that take so many slots.
fn next_between(slots: u8, byte: u8) -> Option<State>
    ensures { option_map state_of result ≡ go_on_descriptor (tests.Between slots) byte }
{
    if byte == b')' {
        Some(State::InType(Place::Outcome(slots), 0))
    } else if slots < 255 {
        Place::Argument(slots).next(0, byte)
    } else {
        None
    }
}

/// The state after a byte in a result, where `V` may stand too.
fn next_in_outcome(slots: u8, dims: u8, byte: u8) -> Option<State>
    ensures { option_map state_of result ≡ go_on_outcome slots dims byte }
{
    if byte == b'V' && dims == 0 {
        Some(State::End(slots))
    } else {
        Place::Outcome(slots).next(dims, byte)
    }
}

impl State {
    /// The state after a byte; none where no descriptor goes on so.
    pub fn next(self, byte: u8) -> Option<State>
        ensures { option_map state_of result ≡ go_on_descriptor (state_of self) byte }
    {
        match self {
            State::Open => {
                if byte == b'(' {
                    Some(State::Between(0))
                } else {
                    None
                }
            }
            State::Between(slots) => next_between(slots, byte),
            State::InType(Place::Outcome(slots), dims) => next_in_outcome(slots, dims, byte),
            State::InType(place, dims) => place.next(dims, byte),
            State::InClass(place, name) => place.next_in_name(name, byte),
            State::End(_) => None,
        }
    }

    /// Whether a descriptor is whole here.
    pub fn is_end(self) -> bool
        ensures { result ≡ tests.is_end (Some (state_of self)) }
    {
        matches!(self, State::End(_))
    }

    /// The slots of the arguments, where a descriptor is whole here.
    pub fn slots(self) -> Option<u8>
        ensures { result ≡ tests.slots_at_end (Some (state_of self)) }
    {
        match self {
            State::End(slots) => Some(slots),
            _ => None,
        }
    }

    /// The state after the bytes, or how many of them come before the first after which no descriptor goes on. One pass.
    pub fn scan(self, bytes: &[u8]) -> Result<State, usize>
        ensures { ScanIs (state_of self) bytes.now result }
    {
        let mut state = self;
        for at in 0..bytes.len() {
            match state.next(bytes[at]) {
                Some(next) => state = next,
                None => return Err(at),
            }
        }
        Ok(state)
    }
}
