// Reading the lines of images.
ghost use Rattle.std.specs.Prelude.{◌≡◌, [], IfOk};
ghost use Rattle.al_link_image.specs.Reading.{Finds, counted_at, entries_at, entry_at, more_at};

use crate::fault::LinkFault;
use crate::limits::MAX_LINES;
use crate::reading::{limited_at, number_at};
use al_instr::{LineEntry, are_lines};
use std::alloc::Global;

#[tactic(auto, unfolding(crate::specs::Reading::entry_at))]
fn entry_at(bytes: &[u8]) -> Result<(LineEntry, &[u8]), LinkFault>
    ensures { Finds (λ x. (x.0, x.1.now)) result (entry_at bytes.now) }
{
    let (place, rest) = number_at(bytes)?;
    let (line, rest) = number_at(rest)?;
    Ok((LineEntry { place, line }, rest))
}

/// So many entries of the table of lines.
#[tactic(auto, using(crate::proofs::Readers::no_more, crate::proofs::Readers::all_there))]
fn many_entries(
    alloc: Global,
    number: u32,
    bytes: &[u8],
) -> Result<(Vec<LineEntry>, &[u8]), LinkFault>
    ensures { Finds (λ x. (x.0.items, x.1.now)) result (more_at entry_at [] number bytes.now) }
{
    let mut entries = Vec::new(alloc);
    let mut rest = bytes;
    for _index in 0..number {
        let (entry, behind) = entry_at(rest)?;
        entries.push(entry)?;
        rest = behind;
    }
    Ok((entries, rest))
}

/// The entries of the table of lines, after their number.
#[tactic(auto, unfolding(crate::specs::Reading::counted_at))]
fn counted_entries(alloc: Global, bytes: &[u8]) -> Result<(Vec<LineEntry>, &[u8]), LinkFault>
    ensures { Finds (λ x. (x.0.items, x.1.now)) result (counted_at 16777216 entry_at bytes.now) }
{
    let (number, rest) = limited_at(MAX_LINES, bytes)?;
    many_entries(alloc, number, rest)
}

/// The lines after their number, of a code of this length: all that is left.
#[tactic(auto, unfolding(crate::specs::Reading::entries_at))]
pub(crate) fn entries_at(
    alloc: Global,
    end: usize,
    bytes: &[u8],
) -> Result<Vec<LineEntry>, LinkFault>
    ensures { Finds (λ v. v.items) result (entries_at end bytes.now) }
{
    let (entries, rest) = counted_entries(alloc, bytes)?;
    if rest.len() > 0 || !are_lines(entries.as_slice(), end) {
        return Err(LinkFault::Damaged);
    }
    Ok(entries)
}
