// Which names and descriptors are looked for.

/// The members whose names and descriptors are looked for in bodies.
#[derive(Clone, Copy)]
pub enum Wanted {
    /// Those that virtual calls name.
    Signatures,
    /// Static fields that the folder doesn't have.
    ForeignStatics,
}
