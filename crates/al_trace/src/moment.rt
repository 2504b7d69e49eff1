// How far a run has come.
ghost use Rattle.std.specs.Prelude.{◌≡◌};
ghost use Rattle.al_trace.specs.Moments.{after, nanos_of, slot_of};

use al_tasks::{Advanced, Event};

/// How far a run has come.
#[derive(Clone, Copy)]
pub struct Moment {
    /// Events since the start.
    pub events: u64,
    /// Ticks of the clock among them, each a millisecond.
    pub ticks: u64,
    /// Instructions since the last tick.
    pub since: u64,
}

impl Moment {
    /// The start.
    pub fn start() -> Moment
        ensures { result ≡ record { events = 0; ticks = 0; since = 0 } }
    {
        Moment {
            events: 0,
            ticks: 0,
            since: 0,
        }
    }

    /// The moment after some events.
    pub fn after(self, advanced: Advanced) -> Moment
        ensures { result ≡ after self advanced }
    {
        let ticks = match advanced.event {
            Some(Event::Tick) => self.ticks.saturating_add(1),
            _ => self.ticks,
        };
        Moment {
            events: self.events.saturating_add(advanced.done),
            ticks,
            since: advanced.since,
        }
    }

    /// In nanoseconds from the start, if the processor carries out n instructions in a millisecond.
    pub fn nanos(self, n: u64) -> u64
        ensures { result ≡ nanos_of n self }
    {
        let part = self.since.saturating_mul(1_000_000) / n.max(1);
        self.ticks.saturating_mul(1_000_000).saturating_add(part)
    }

    /// In instructions from the start, if the processor carries out n of them in a millisecond.
    pub fn slot(self, n: u64) -> u64
        ensures { result ≡ slot_of n self }
    {
        self.ticks.saturating_mul(n).saturating_add(self.since)
    }
}
