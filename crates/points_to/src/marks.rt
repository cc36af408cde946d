// Which rows changed lately. What is found doesn't depend on it: it only spares work in rounds that aren't the last.

use crate::row::has;
use slicer_ids::ids::NoMemory;
use std::alloc::Global;
use std::mem;

/// In which round each row changed last, what it had when this round began, and the one before, and the places of its words that changed in
/// this round, and in the one before.
#[derive(Drop)]
pub struct Marks {
    pub round: u64,
    pub changed: Vec<u64>,
    pub before: Vec<Vec<u64>>,
    pub latest: Vec<Vec<u64>>,
    pub touched: Vec<Vec<usize>>,
    pub touched_before: Vec<Vec<usize>>,
    /// Places of words of the row that is being changed.
    pub places: Vec<usize>,
}

impl Marks {
    pub fn new(alloc: Global) -> Marks {
        Marks {
            round: 2,
            changed: Vec::new(alloc),
            before: Vec::new(alloc),
            latest: Vec::new(alloc),
            touched: Vec::new(alloc),
            touched_before: Vec::new(alloc),
            places: Vec::new(alloc),
        }
    }

    /// Notes that a row changed, in the words whose places are listed.
    pub fn note(&mut self, row: usize) -> Result<(), NoMemory> {
        if row < self.changed.len() {
            self.changed[row] = self.round;
        }
        if row < self.touched.len() {
            self.touched[row].extend_from_slice(self.places.as_slice())?;
        }
        self.places.clear();
        Ok(())
    }

    /// Lists a word of a row that is being changed.
    pub fn touch(&mut self, place: usize) -> Result<(), NoMemory> {
        self.places.push(place)?;
        Ok(())
    }

    /// How many words of a row are listed as changed in this round or in the one before.
    pub fn count(&self, row: usize) -> usize {
        if row < self.touched.len() && row < self.touched_before.len() {
            self.touched_before[row]
                .len()
                .saturating_add(self.touched[row].len())
        } else {
            0
        }
    }

    /// The place of one of these words, by its number in that list.
    pub fn place(&self, row: usize, number: usize) -> usize {
        if row < self.touched.len() && row < self.touched_before.len() {
            let before = self.touched_before[row].as_slice();
            let now = self.touched[row].as_slice();
            if number < before.len() {
                before[number]
            } else {
                now.get(number - before.len())
                    .copied()
                    .unwrap_or(usize::MAX)
            }
        } else {
            usize::MAX
        }
    }

    /// A row more.
    pub fn add(&mut self, alloc: Global) -> Result<(), NoMemory> {
        self.changed.push(0)?;
        self.before.push(Vec::new(alloc))?;
        self.latest.push(Vec::new(alloc))?;
        self.touched.push(Vec::new(alloc))?;
        self.touched_before.push(Vec::new(alloc))?;
        Ok(())
    }

    /// Whether a row changed in this round or in the one before.
    pub fn is_recent(&self, row: usize) -> bool {
        if row < self.changed.len() {
            self.round.saturating_sub(self.changed[row]) <= 1
        } else {
            false
        }
    }

    /// Whether a row changed in this round or in the one before, and had nothing when that one began.
    pub fn is_first(&self, row: usize) -> bool {
        self.is_recent(row) && row < self.before.len() && self.before[row].is_empty()
    }

    /// Whether a row had a number when the round before began.
    pub fn had(&self, row: usize, number: u32) -> bool {
        if row < self.before.len() {
            has(self.before[row].as_slice(), number)
        } else {
            false
        }
    }

    fn turn_row(&mut self, row: usize, words: &[u64], alloc: Global) -> Result<(), NoMemory> {
        let mut copy = Vec::new(alloc);
        copy.extend_from_slice(words)?;
        if row < self.latest.len() && row < self.before.len() {
            let latest = mem::replace(&mut self.latest[row], copy);
            self.before[row] = latest;
        }
        if row < self.touched.len() && row < self.touched_before.len() {
            let touched = mem::replace(&mut self.touched[row], Vec::new(alloc));
            self.touched_before[row] = touched;
        }
        Ok(())
    }

    /// Begins a round.
    pub fn turn(&mut self, rows: &[Vec<u64>], alloc: Global) -> Result<(), NoMemory> {
        for row in 0..rows.len() {
            if self.is_recent(row) {
                self.turn_row(row, rows[row].as_slice(), alloc)?;
            }
        }
        self.round = self.round.saturating_add(1);
        Ok(())
    }
}
