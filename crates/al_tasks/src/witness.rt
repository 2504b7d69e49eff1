// Runs that somebody watches.
ghost use Rattle.std.specs.Prelude.{◌≡◌, ◌+◌, ◌<◌, ◌≤◌, ◌^◌, ℕ, IfOk, OnErr};
ghost use Rattle.al_tasks.specs.Partitions.{part_of_run};

use crate::{Advanced, Status, World};
use al_base::NoMemory;

/// Somebody who watches a run. A witness sees the world and can't change it.
pub trait Witness {
    /// The largest number of events that may come before the witness looks again.
    fn stride(&self) -> u64
        ensures { 1 ≤ result };

    /// Looks at the world before the first event of a part of a run.
    ///
    /// # Errors
    ///
    /// `NoMemory` if the allocator refuses memory.
    fn begin(&mut self, world: &World) -> Result<(), NoMemory>;

    /// Looks at the world after some events.
    ///
    /// # Errors
    ///
    /// `NoMemory` if the allocator refuses memory.
    fn look_on(&mut self, world: &World, advanced: Advanced) -> Result<(), NoMemory>;
}

impl World {
    /// A part of a run that a witness watches. It is the same part that `tick_run_on` makes, whoever the witness is.
    ///
    /// # Errors
    ///
    /// `NoMemory` if the allocator refuses memory. The world is then as after some of the part's events.
    pub fn watched_run_on<W: Witness>(
        &mut self,
        witness: &mut W,
        steps: u64,
        n: u64,
        since: u64,
    ) -> Result<u64, NoMemory>
        requires { since + steps < 2 ^ 64 }
        ensures ok { IfOk result (λ last. (last, self.new) ≡ part_of_run steps n since self.old) }
        ensures few { IfOk result (λ last. since ≤ n → last ≤ n) }
        ensures err { OnErr result ((done : ℕ) × (done ≤ steps) × (self.new ≡ (part_of_run done n since self.old).1)) }
    {
        let mut last = since;
        let mut done = 0u64;
        witness.begin(self)?;
        while done < steps {
            let Status::Going = self.status() else {
                return Ok(last);
            };
            let most = witness.stride().min(steps - done);
            let advanced = self.advance(n, last, most)?;
            last = advanced.since;
            done += advanced.done;
            witness.look_on(self, advanced)?;
        }
        Ok(last)
    }
}
