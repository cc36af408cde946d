// A request, and why words give none.
use slicer_ids::list::List;
use slicer_ids::name::{Name, Text};
use thiserror::Error;

/// What the words ask for.
#[derive(Debug, Drop)]
pub struct Request {
    /// The name of the class whose `main` is the entry, with slashes. Where none is given, the `main` of each class is an entry.
    pub main: Option<Name>,
    pub folder: Text,
    pub scripts: List<Text>,
}

/// Why the words give no request.
#[derive(Clone, Copy, PartialEq, Eq, Debug, Drop, Error)]
pub enum WordsError {
    #[error("no memory")]
    NoMemory,
    /// The command doesn't take the words, or their scripts can't be served beside one another.
    #[error("usage: slicer [--main NAME] FOLDER SCRIPT...")]
    Usage,
}
