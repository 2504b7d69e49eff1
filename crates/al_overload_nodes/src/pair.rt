// Things that each need memory, made one after another: none is held while another is made.
ghost use Rattle.std.specs.Prelude.{◌≡◌};
ghost use Rattle.al_overload_nodes.specs.Pairs.{together};

use al_base::NoMemory;

/// Two things that each need memory: both, if both were made.
pub(crate) fn together<A: Drop, B: Drop>(
    one: Result<A, NoMemory>,
    two: Result<B, NoMemory>,
) -> Result<(A, B), NoMemory>
    ensures { result ≡ together one two }
{
    match (one, two) {
        (Ok(a), Ok(b)) => Ok((a, b)),
        (Ok(_), Err(lack)) => Err(lack),
        (Err(lack), _) => Err(lack),
    }
}
