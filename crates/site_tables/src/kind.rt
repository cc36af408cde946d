// What an instruction makes, by its opcode.
ghost use Rattle.site_tables.specs.Making.{IsKind};

/// Instructions by what they make.
#[derive(Clone, Copy)]
pub enum Kind {
    /// Loads a constant.
    Constant,
    /// Reads a field.
    Field,
    Call,
    New,
    /// Makes one array.
    Array,
    /// Makes arrays of arrays.
    Dimensions,
    Other,
}

/// The kind of an opcode.
pub fn kind_of(op: u8) -> Kind
    ensures { IsKind op result }
{
    match op {
        18 | 19 => Kind::Constant,
        178 | 180 => Kind::Field,
        182..=186 => Kind::Call,
        187 => Kind::New,
        188 | 189 => Kind::Array,
        197 => Kind::Dimensions,
        _ => Kind::Other,
    }
}
