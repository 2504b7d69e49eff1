// In how many ways an expression can be what is expected: in none, in one or in more.
ghost use Rattle.std.specs.Prelude.{◌≡◌, ◌+◌, ◌*◌, nat_lt};
ghost use Rattle.al_overload.specs.Counts.{AreCounted, counted, held_all, held_in, plain_all, share, size, tally, ways_of};

use crate::term::{Candidate, Choice, Term, Terms};
use crate::types::Expected;

/// In how many ways something can be.
#[derive(Clone, Copy)]
pub enum Count {
    /// In no way.
    None,
    /// In one way.
    One,
    /// In two ways or more.
    Several,
}

impl Count {
    /// Whether there is at least one way.
    pub fn is_any(self) -> bool
        ensures { result ≡ nat_lt 0 (size self) }
    {
        match self {
            Count::None => false,
            Count::One => true,
            Count::Several => true,
        }
    }

    /// The ways of this or of that.
    fn or(self, other: Count) -> Count
        ensures { result ≡ ways_of (size self + size other) }
    {
        match (self, other) {
            (Count::None, other) => other,
            (one, Count::None) => one,
            (_, _) => Count::Several,
        }
    }

    /// The ways of this combined with those of that.
    fn with(self, other: Count) -> Count
        ensures { result ≡ ways_of (size self * size other) }
    {
        match (self, other) {
            (Count::None, _) => Count::None,
            (_, Count::None) => Count::None,
            (Count::One, other) => other,
            (Count::Several, _) => Count::Several,
        }
    }
}

/// In how many ways this candidate can be what is expected, if it is of this kind.
fn ways_with(choice: &Choice, is_root: bool, expected: &Expected) -> Count
    ensures { result ≡ ways_of (share is_root expected.now choice.now) }
{
    if choice.candidate.is_root == is_root && choice.candidate.given.fits(expected) {
        choice.ways
    } else {
        Count::None
    }
}

/// In how many ways candidates of this kind can be what is expected.
pub fn ways_in(choices: &[Choice], is_root: bool, expected: &Expected) -> Count
    ensures { result ≡ ways_of (tally is_root expected.now choices.now) }
{
    let mut ways = Count::None;
    for choice in choices {
        ways = ways.or(ways_with(choice, is_root, expected));
    }
    ways
}

/// In how many ways a head can be what is expected; the root type's operators are preferred.
pub fn ways_at(choices: &[Choice], expected: &Expected) -> Count
    ensures { result ≡ held_in choices.now expected.now }
{
    match ways_in(choices, true, expected) {
        Count::None => ways_in(choices, false, expected),
        Count::One => Count::One,
        Count::Several => Count::Several,
    }
}

/// In how many ways operands can be what is expected of them.
#[tactic(auto, using(crate::proofs::Counting::with_first, crate::proofs::Counting::with_more, crate::proofs::Counting::with_no_more, crate::proofs::Counting::with_misfit))]
pub fn ways_of_operands(operands: &Terms, expected: &[Expected]) -> Count
    ensures { result ≡ held_all operands.now expected.now }
{
    let mut ways = Count::One;
    let (mut rest, mut rest_expected) = (operands, expected);
    while let Terms::MoreTerms(operand, more) = rest {
        let [first, others @ ..] = rest_expected else {
            return Count::None;
        };
        let Term::Head(choices, _) = &**operand;
        ways = ways.with(ways_at(choices.as_slice(), first));
        (rest, rest_expected) = (more, others);
    }
    if rest_expected.is_empty() {
        ways
    } else {
        Count::None
    }
}

impl Choice {
    /// A candidate for the head of these operands, with the ways that its operands have.
    #[tactic(auto, using(crate::proofs::Counting::held_all_counts))]
    pub fn new(candidate: Candidate, operands: &Terms) -> Choice
        requires { AreCounted operands.now }
        ensures { result ≡ counted (plain_all operands.now) candidate }
    {
        let ways = ways_of_operands(operands, candidate.operands.as_slice());
        Choice { candidate, ways }
    }
}
