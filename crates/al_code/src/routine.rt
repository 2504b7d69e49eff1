// What statements must know of their body.
ghost use Rattle.std.specs.Prelude.{◌≡◌};
ghost use Rattle.al_code.specs.Routines.{unlocking, within};

/// The body that encloses statements: its nesting depth, and whether a return from it leaves a protected object.
#[derive(Clone, Copy)]
pub struct Routine {
    /// Its nesting depth: the number of bodies that enclose a place in it.
    pub depth: u32,
    /// Whether a return from it leaves a protected object.
    pub unlocks: bool,
}

impl Routine {
    /// A body of this nesting depth whose returns leave no protected object.
    pub fn within(depth: u32) -> Routine
        ensures { result ≡ within depth }
    {
        Routine {
            depth,
            unlocks: false,
        }
    }

    /// The body of a protected function, of this nesting depth.
    pub fn unlocking(depth: u32) -> Routine
        ensures { result ≡ unlocking depth }
    {
        Routine {
            depth,
            unlocks: true,
        }
    }
}
