// The count of refused growths.
ghost use Rattle.std.specs.Prelude.{◌≡◌, is_ok};
ghost use Rattle.al_base_shortage.specs.Counts.{one_more, counted};

use al_base::NoMemory;
use std::marker::Model;

/// How many calls failed for memory, to 2^64-1. A call that keeps this count promises to raise it by one if it fails for memory,
/// and not to touch it otherwise. Its code raises it only through `of`, with the result of a growth.
pub struct AllocFailures {
    count: u64,
}

impl Drop for AllocFailures {
    fn drop(self) {
        let AllocFailures { count: _ } = self;
    }
}

impl Model for AllocFailures {
    ghost use Rattle.std.specs.Prelude.{ℕ};

    ghost Value = { ℕ };

    ghost view = { λ s. s.count };
}

impl AllocFailures {
    /// A count of 0.
    pub fn new() -> Self
        ensures { result ≡ 0 }
    {
        AllocFailures { count: 0 }
    }

    /// The count.
    pub fn count(&self) -> u64
        ensures { result ≡ self.now }
    {
        self.count
    }

    /// Gives back the result of a growth, and counts it if it was refused.
    ///
    /// # Errors
    ///
    /// The error of the growth, if it has one. The count is then one higher, to 2^64-1.
    pub fn of<T: Drop>(&mut self, grown: Result<T, NoMemory>) -> Result<T, NoMemory>
        ensures same { result ≡ grown }
        ensures counted { self.new ≡ counted (is_ok grown) self.old }
    {
        if grown.is_err() {
            self.count = one_more(self.count);
        }
        grown
    }
}

/// The count and one more, to 2^64-1.
pub fn one_more(count: u64) -> u64
    ensures { result ≡ one_more count }
{
    if count < u64::MAX { count + 1 } else { count }
}
