// The time that calls take together, since one of them may be too short for a watch.

use std::time::{CpuClock, Duration, Instant};
use std::{fmt, io};

/// When a call began.
#[derive(Clone, Copy, Drop)]
pub struct Lap {
    start: Instant,
    processor: Duration,
}

impl Lap {
    /// A call begins now.
    pub fn start(rt: &HostRuntime) -> io::Result<Lap> {
        let processor = rt.process_cpu_time()?;
        let start = Instant::now(rt)?;
        Ok(Lap { start, processor })
    }
}

/// How many calls were made, and what they took together.
#[derive(Clone, Copy, Debug, Drop)]
pub struct Laps {
    calls: u32,
    clock: Duration,
    processor: Duration,
}

impl fmt::Display for Laps {
    fn fmt<W: fmt::Write>(&self, f: &mut fmt::Formatter<W>) -> fmt::Result {
        let calls = self.calls;
        let clock = self.clock.as_micros();
        let processor = self.processor.as_micros();
        write!(
            f,
            "{calls} times, {clock} us by the clock, {processor} us of the processor"
        )
    }
}

impl Laps {
    /// No call yet.
    pub fn none() -> Laps {
        Laps {
            calls: 0,
            clock: Duration::ZERO,
            processor: Duration::ZERO,
        }
    }

    /// Adds a call that ends now.
    pub fn add(&mut self, rt: &HostRuntime, lap: Lap) -> io::Result<()> {
        let clock = lap.start.elapsed(rt)?;
        let processor = rt.process_cpu_time()?.saturating_sub(lap.processor);
        self.calls = self.calls.saturating_add(1);
        self.clock = self.clock.saturating_add(clock);
        self.processor = self.processor.saturating_add(processor);
        Ok(())
    }
}
