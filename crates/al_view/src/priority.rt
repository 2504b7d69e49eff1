// Priorities.
ghost use Rattle.std.specs.Prelude.{◌≡◌, ◌≤◌, nat_le, Some, None, if◌then◌else◌};

use std::marker::Model;

/// A priority of a task or a ceiling of a protected object (ARM D.1, D.3): 0 to 30, and nothing else.
#[derive(Clone, Copy)]
pub struct Priority {
    level: u8,
}

impl Model for Priority {
    ghost use Rattle.std.specs.Prelude.{ℕ, ◌≤◌};

    ghost Value = { ℕ };

    ghost view = { λ p. p.level };

    ghost invariant = { λ p. p.level ≤ 30 };

    ghost inverse = { λ n. record { level = n } };
}

impl Priority {
    /// The priority of this level, if there is one.
    pub fn new(level: u64) -> Option<Priority>
        ensures { result ≡ (if nat_le level 30 then Some level else None) }
    {
        if level > 30 {
            return None;
        }
        Some(Priority { level: level as u8 })
    }

    /// The priority of what has none of its own (ARM D.1(18)).
    pub fn standard() -> Priority
        ensures { result ≡ 15 }
    {
        Priority { level: 15 }
    }

    /// The highest priority, the ceiling of a protected object that states none (ARM D.3(10)).
    pub fn highest() -> Priority
        ensures { result ≡ 30 }
    {
        Priority { level: 30 }
    }

    /// The level, from 0 to 30.
    pub fn level(self) -> u8
        ensures value { result ≡ self }
        ensures within { self ≤ 30 }
    {
        self.level
    }
}
