// The answer of a build.
ghost use Rattle.std.specs.Prelude.{◌≡◌};
ghost use Rattle.al_engine.specs.Answers.{answer_of, built};

use crate::{Compiled, Program};

/// The answer of a build, in short. The library has the details: the errors, what the partition lacks, and the image.
#[derive(Clone, Copy)]
pub enum BuildAnswer {
    /// There is an image of `bytes` bytes, whose partition has `items` library items.
    Built { items: usize, bytes: usize },
    /// The files have so many errors.
    Faults(usize),
    /// Something is missing in the partition, or there is no order of elaboration (ARM 10.2).
    Bind,
    /// There is an order of elaboration, but the image would pass a limit of images.
    TooLarge,
}

/// The answer if there is a program.
fn built(program: &Program) -> BuildAnswer
    ensures { result ≡ built program.now }
{
    BuildAnswer::Built {
        items: program.order.len(),
        bytes: program.bytes().len(),
    }
}

/// The answer if compiling gave this. It takes no memory.
pub fn answer_of(compiled: &Compiled) -> BuildAnswer
    ensures { result ≡ answer_of compiled.now }
{
    match compiled {
        Compiled::Faulty(diagnostics) => BuildAnswer::Faults(diagnostics.len()),
        Compiled::Unbound(_) => BuildAnswer::Bind,
        Compiled::TooLarge(_) => BuildAnswer::TooLarge,
        Compiled::Made(program) => built(program),
    }
}
