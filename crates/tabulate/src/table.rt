// Tables of rows.
use slicer_ids::ids::{ExitId, Mode};
use slicer_ids::list::List;

/// The row of an exit, and those of the exits that it demands and that had no row to hand: bit i of a row is set where formal
/// i is in the exit's summary (Horwitz, Reps and Binkley, TOPLAS 1990, summary edges).
#[derive(Drop, Debug)]
pub struct Table {
    pub exit: ExitId,
    pub mode: Mode,
    pub rows: List<(ExitId, List<u64>)>,
}
