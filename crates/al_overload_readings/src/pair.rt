// Things that each need memory, made one after another: none is held while another is made.
ghost use Rattle.std.specs.Prelude.{◌≡◌, IfOk};
ghost use Rattle.al_overload_readings.specs.Pairs.{together};

use al_base::NoMemory;
use al_overload::Term;
use std::alloc::Global;

/// Two things that each need memory: both, if both were made.
/// # Errors
/// `NoMemory` if the allocator refuses memory.
pub fn together<A: Drop, B: Drop>(
    one: Result<A, NoMemory>,
    two: Result<B, NoMemory>,
) -> Result<(A, B), NoMemory>
    ensures { result ≡ together one two }
{
    match (one, two) {
        (Ok(a), Ok(b)) => Ok((a, b)),
        (Ok(_), Err(lack)) => Err(lack),
        (Err(lack), _) => Err(lack),
    }
}

/// A term in a box.
/// # Errors
/// `NoMemory` if the allocator refuses memory.
pub fn boxed(alloc: Global, term: Term) -> Result<Box<Term>, NoMemory>
    ensures { IfOk result (λ made. made.value ≡ term) }
{
    let made = Box::new(alloc, term)?;
    Ok(made)
}

/// Two terms in boxes.
/// # Errors
/// `NoMemory` if the allocator refuses memory.
pub fn boxed_pair(
    alloc: Global,
    left: Term,
    right: Term,
) -> Result<(Box<Term>, Box<Term>), NoMemory>
    ensures left { IfOk result (λ made. made.0.value ≡ left) }
    ensures right { IfOk result (λ made. made.1.value ≡ right) }
{
    let right = boxed(alloc, right);
    let left = boxed(alloc, left);
    together(left, right)
}
