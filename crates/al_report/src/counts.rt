// How many errors there are.
use crate::noted::is_dependent;
use al_base::Diagnostic;

/// How many diagnostics there are.
#[derive(Clone, Copy)]
pub struct Counts {
    /// Diagnostics that say what is wrong.
    pub errors: usize,
    /// Diagnostics of units that weren't checked because others have errors.
    pub dependents: usize,
}

/// How many of these there are of each.
pub fn counts_of(found: &[Diagnostic]) -> Counts {
    let mut counts = Counts {
        errors: 0,
        dependents: 0,
    };
    for diagnostic in found {
        if is_dependent(diagnostic) {
            counts.dependents = counts.dependents.saturating_add(1);
        } else {
            counts.errors = counts.errors.saturating_add(1);
        }
    }
    counts
}
