// Kinds of instructions.
ghost use Rattle.std.specs.Prelude.{◌≡◌, ◌⊎◌, ◌↔◌, IsTrue};
ghost use Rattle.class_form.specs.Opcodes.{IsCall, IsInstanceCall, IsPutField, IsReferenceStore};
ghost use Rattle.constraint_form.specs.Variables.{MakesObject, ReadsFirst};
ghost use Rattle.variable_tables.specs.Statements.{IsOfKind};

/// Statements that have a variable.
#[derive(Clone, Copy)]
pub enum Kind {
    /// Those whose value may be an object.
    Values,
    /// Calls.
    Calls,
}

// Whether the instruction's value may be an object.
fn makes_object(op: u8) -> bool
    ensures { IsTrue result ↔ MakesObject op }
{
    matches!(op, 18..=19 | 21..=45 | 50 | 54..=78 | 178 | 180 | 182..=189 | 192 | 197)
}

/// Whether the instruction is a call.
pub(crate) fn is_call(op: u8) -> bool
    ensures { IsTrue result ↔ IsCall op }
{
    matches!(op, 182..=186)
}

/// Whether the instruction is a call with a receiver.
pub(crate) fn has_receiver(op: u8) -> bool
    ensures { IsTrue result ↔ IsInstanceCall op }
{
    matches!(op, 182 | 183 | 185)
}

/// Whether the instruction reaches through its first operand, or throws it.
pub(crate) fn reads_first(op: u8) -> bool
    ensures { IsTrue result ↔ ReadsFirst op }
{
    matches!(op, 46..=53 | 79..=86 | 180 | 181 | 190 | 191)
}

/// Whether it writes a field.
pub(crate) fn is_put_field(op: u8) -> bool
    ensures { IsTrue result ↔ IsPutField op }
{
    op == 181
}

/// Whether it writes an element that is a reference.
pub(crate) fn is_reference_store(op: u8) -> bool
    ensures { IsTrue result ↔ IsReferenceStore op }
{
    op == 83
}

/// Whether the instruction is of the kind.
pub(crate) fn is_of(kind: Kind, op: u8) -> bool
    ensures { IsTrue result ↔ IsOfKind kind op }
{
    match kind {
        Kind::Values => makes_object(op),
        Kind::Calls => is_call(op),
    }
}
