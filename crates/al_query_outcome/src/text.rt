// The source of a unit, as a checker takes it.
ghost use Rattle.std.specs.Prelude.{◌≡◌, IfOk};

use al_base::NoMemory;
use std::alloc::Global;
use std::rc::Rc;

/// The source of a unit with what was read in it.
pub trait ReadText: Drop {
    ghost use Rattle.std.specs.Prelude.{ℕ, List};
    ghost use Rattle.al_unit_graph.specs.Headers.{Header};

    /// What a source says of its unit.
    ghost header: { List ℕ → Header };

    /// The source that was read.
    ghost text: { Self → List ℕ };

    /// Reads a source.
    ///
    /// # Errors
    ///
    /// `NoMemory` if the allocator refuses memory. What is wrong with the source is no error.
    fn read(alloc: Global, bytes: Rc<Vec<u8>>) -> Result<Self, NoMemory>
        ensures { IfOk result (λ read. text read ≡ bytes.value.items) };
}
