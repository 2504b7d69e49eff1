// Reading the protected objects of images.
ghost use Rattle.std.specs.Prelude.{◌≡◌, [], IfOk};
ghost use Rattle.al_link_image.specs.Reading.{Finds, region_at, more_at, counted_at};

use crate::fault::LinkFault;
use crate::limits::MAX_PROTECTED;
use crate::parts::Region;
use crate::reading::{limited_at, number_at};
use std::alloc::Global;

/// A protected object, whose words are among so many data words.
#[tactic(auto, unfolding(crate::specs::Reading::region_at))]
fn region_at(count: u32, bytes: &[u8]) -> Result<(Region, &[u8]), LinkFault>
    ensures { Finds (λ x. (x.0, x.1.now)) result (region_at count bytes.now) }
{
    let (address, rest) = number_at(bytes)?;
    let (words, rest) = number_at(rest)?;
    let (ceiling, rest) = number_at(rest)?;
    if address as u64 + words as u64 > count as u64 || ceiling > 30 {
        return Err(LinkFault::Damaged);
    }
    let region = Region {
        address,
        words,
        ceiling,
    };
    Ok((region, rest))
}

/// So many protected objects.
#[tactic(auto, using(crate::proofs::Readers::no_more, crate::proofs::Readers::all_there))]
fn many_regions(
    alloc: Global,
    count: u32,
    number: u32,
    bytes: &[u8],
) -> Result<(Vec<Region>, &[u8]), LinkFault>
    ensures { Finds (λ x. (x.0.items, x.1.now)) result (more_at (region_at count) [] number bytes.now) }
{
    let mut regions = Vec::new(alloc);
    let mut rest = bytes;
    for _index in 0..number {
        let (region, behind) = region_at(count, rest)?;
        regions.push(region)?;
        rest = behind;
    }
    Ok((regions, rest))
}

/// The protected objects after their number.
#[tactic(auto, unfolding(crate::specs::Reading::counted_at))]
pub(crate) fn regions_at(
    alloc: Global,
    count: u32,
    bytes: &[u8],
) -> Result<(Vec<Region>, &[u8]), LinkFault>
    ensures { Finds (λ x. (x.0.items, x.1.now)) result (counted_at 65535 (region_at count) bytes.now) }
{
    let (number, rest) = limited_at(MAX_PROTECTED, bytes)?;
    many_regions(alloc, count, number, rest)
}
