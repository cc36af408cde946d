// What instructions make, by their opcodes.
ghost use Rattle.std.specs.Prelude.{◌≡◌};
ghost use Rattle.text_tables.specs.SiteTexts.{maker_of};

/// Instructions by what they make.
#[derive(Clone, Copy)]
pub enum Maker {
    /// Loads a constant.
    Constant,
    /// Reads a field.
    Field,
    Call,
    New,
    /// Makes an array of primitives.
    Elements,
    /// Makes an array of objects or arrays.
    Array,
    /// Makes arrays of arrays.
    Dimensions,
    Other,
}

/// What the instruction of an opcode makes.
pub fn maker_of(op: u8) -> Maker
    ensures { result ≡ maker_of op }
{
    match op {
        18 | 19 => Maker::Constant,
        178 | 180 => Maker::Field,
        182..=186 => Maker::Call,
        187 => Maker::New,
        188 => Maker::Elements,
        189 => Maker::Array,
        197 => Maker::Dimensions,
        _ => Maker::Other,
    }
}
