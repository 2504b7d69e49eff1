// The identifiers of a unit's name.
ghost use Rattle.std.specs.Prelude.{◌≡◌, ℕ, List, ◌∷◌, ◌++◌, [], IfOk, OnOk};
ghost use Rattle.al_check_bounded.specs.Segments.{segments_from};

use al_base::{Name, NoMemory};
use al_view::Seq;
use std::alloc::Global;
use std::mem;

/// Reads one more byte, after whole identifiers and the beginning of one.
fn read_byte(
    alloc: Global,
    segments: &mut Vec<Name>,
    segment: &mut Vec<u8>,
    byte: u8,
) -> Result<(), NoMemory>
    ensures { OnOk result ((bs : List ℕ) → segments.new.items ++ segments_from segment.new.items bs ≡ segments.old.items ++ segments_from segment.old.items (byte ∷ bs)) }
{
    if byte == b'.' {
        let whole = mem::replace(segment, Vec::new(alloc));
        segments.push(Name::new(whole))?;
    } else {
        segment.push(byte)?;
    }
    Ok(())
}

/// The identifiers of a unit's name, which dots separate.
pub(crate) fn segments_of(alloc: Global, name: &[u8]) -> Result<Seq<Name>, NoMemory>
    ensures { IfOk result (λ segments. segments ≡ segments_from [] name.now) }
{
    let mut segments = Vec::new(alloc);
    let mut segment = Vec::new(alloc);
    for byte in name {
        read_byte(alloc, &mut segments, &mut segment, *byte)?;
    }
    segments.push(Name::new(segment))?;
    Ok(Seq::new(segments))
}
