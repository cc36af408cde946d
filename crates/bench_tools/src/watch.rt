// Time by the clock, and time of the processor.

use std::time::{CpuClock, Duration, Instant};
use std::{fmt, io};

/// What some work took.
#[derive(Clone, Copy, Debug, Drop)]
pub struct Spent {
    clock: Duration,
    processor: Duration,
}

impl fmt::Display for Spent {
    fn fmt<W: fmt::Write>(&self, f: &mut fmt::Formatter<W>) -> fmt::Result {
        let clock = self.clock.as_millis();
        let processor = self.processor.as_millis();
        write!(
            f,
            "{clock} ms by the clock, {processor} ms of the processor"
        )
    }
}

/// When some work began.
#[derive(Clone, Copy, Drop)]
pub struct Watch {
    start: Instant,
    processor: Duration,
}

impl Watch {
    /// Some work begins now.
    pub fn start(rt: &HostRuntime) -> io::Result<Watch> {
        Ok(Watch {
            start: Instant::now(rt)?,
            processor: rt.process_cpu_time()?,
        })
    }

    /// What was taken since.
    pub fn spent(&self, rt: &HostRuntime) -> io::Result<Spent> {
        let clock = self.start.elapsed(rt)?;
        let processor = rt.process_cpu_time()?.saturating_sub(self.processor);
        Ok(Spent { clock, processor })
    }
}
