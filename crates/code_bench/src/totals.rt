// What was read, and how long each phase took.

use std::io;
use std::time::Duration;

/// The phases of reading code.
#[derive(Clone, Copy)]
pub enum Phase {
    Decode,
    Shape,
    Reaching,
}

/// Counts of what was read, and nanoseconds for each phase.
#[derive(Clone, Copy)]
pub struct Totals {
    files: u64,
    refused_files: u64,
    methods: u64,
    refused_methods: u64,
    instructions: u64,
    decode: u64,
    shape: u64,
    reaching: u64,
}

// How many a second.
fn rate(count: u64, nanoseconds: u64) -> u64 {
    if nanoseconds == 0 {
        return 0;
    }
    let rate = count as u128 * 1_000_000_000 / nanoseconds as u128;
    u64::try_from(rate).unwrap_or(u64::MAX)
}

impl Totals {
    pub fn new() -> Totals {
        Totals {
            files: 0,
            refused_files: 0,
            methods: 0,
            refused_methods: 0,
            instructions: 0,
            decode: 0,
            shape: 0,
            reaching: 0,
        }
    }

    pub fn read_file(&mut self) {
        self.files = self.files.saturating_add(1);
    }

    pub fn refused_file(&mut self) {
        self.refused_files = self.refused_files.saturating_add(1);
    }

    pub fn read_method(&mut self, instructions: usize) {
        self.methods = self.methods.saturating_add(1);
        self.instructions = self.instructions.saturating_add(instructions as u64);
    }

    pub fn refused_method(&mut self) {
        self.refused_methods = self.refused_methods.saturating_add(1);
    }

    pub fn took(&mut self, phase: Phase, time: Duration) {
        let time = u64::try_from(time.as_nanos()).unwrap_or(u64::MAX);
        match phase {
            Phase::Decode => self.decode = self.decode.saturating_add(time),
            Phase::Shape => self.shape = self.shape.saturating_add(time),
            Phase::Reaching => self.reaching = self.reaching.saturating_add(time),
        }
    }

    pub fn print(&self, rt: &HostRuntime) -> io::Result<()> {
        println!(rt;
            "{} class files, {} refused",
            self.files, self.refused_files
        )?;
        println!(rt;
            "{} methods, {} refused",
            self.methods, self.refused_methods
        )?;
        println!(rt; "{} instructions", self.instructions)?;
        println!(rt;
            "decode   {:>10} a second",
            rate(self.instructions, self.decode)
        )?;
        println!(rt;
            "shape    {:>10} a second",
            rate(self.instructions, self.shape)
        )?;
        println!(rt;
            "reaching {:>10} a second",
            rate(self.instructions, self.reaching)
        )?;
        Ok(())
    }
}
