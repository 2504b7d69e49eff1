// Forward jumps whose targets are now known.
ghost use Rattle.std.specs.Prelude.{◌≡◌, ◌<◌, ◌++◌, IfOk, OnOk};
ghost use Rattle.al_code.specs.Written.{all_filled, leave_or, leaves_outside, with_jump};

use crate::piece::{Construct, ForwardJump, Target};
use al_base::NoMemory;
use std::alloc::Global;

/// Fills in the jump at a place, which leads to a later place.
#[tactic(auto, unfolding(crate::specs::Written::with_jump))]
fn fill_jump(code: &mut [u8], place: usize, to: usize)
    requires { to < 2147483648 }
    ensures { code.new ≡ with_jump code.old place to }
{
    if place < code.len() && code.len() - place >= 5 {
        let distance = to.saturating_sub(place + 5) as u32;
        code[place + 1..place + 5].copy_from_slice(&distance.to_be_bytes());
    }
}

/// Fills in the jumps to the end of the construct.
pub(crate) fn fill_all(code: &mut [u8], leaving: &[ForwardJump], construct: Construct, end: usize)
    requires { end < 2147483648 }
    ensures { code.new ≡ all_filled construct end code.old leaving.now }
{
    for leave in leaving {
        if leave.target.outside(construct).is_none() {
            fill_jump(code, leave.place, end);
        }
    }
}

/// The jumps that leave the construct.
pub(crate) fn others(
    alloc: Global,
    leaving: &[ForwardJump],
    construct: Construct,
) -> Result<Vec<ForwardJump>, NoMemory>
    ensures { IfOk result (λ kept. kept.items ≡ leaves_outside construct leaving.now) }
{
    let mut kept = Vec::new(alloc);
    for leave in leaving {
        keep(&mut kept, leave.place, leave.target.outside(construct))?;
    }
    Ok(kept)
}

fn keep(kept: &mut Vec<ForwardJump>, place: usize, target: Option<Target>) -> Result<(), NoMemory>
    ensures { OnOk result (kept.new.items ≡ kept.old.items ++ leave_or target place) }
{
    if let Some(target) = target {
        kept.push(ForwardJump { place, target })?;
    }
    Ok(())
}
