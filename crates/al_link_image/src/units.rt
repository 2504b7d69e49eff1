// Reading the units' objects of images.
ghost use Rattle.std.specs.Prelude.{◌≡◌, [], ◌∷◌, IfOk, option_map};
ghost use Rattle.std.specs.List.{list_all};
ghost use Rattle.al_link_image.specs.Images.{is_name_byte};
ghost use Rattle.al_link_image.specs.Reading.{Finds, kind_of_number, kind_at, name_at, object_at, more_at, counted_at};

use crate::fault::LinkFault;
use crate::limits::MAX_OBJECTS;
use crate::parts::ImageObject;
use crate::reading::{limited_at, number_at};
use al_base::{Name, UnitKind};
use std::alloc::Global;

/// A letter in lower case, a digit, an underline or a dot.
fn is_name_byte(byte: u8) -> bool
    ensures { result ≡ is_name_byte byte }
{
    (byte >= b'a' && byte <= b'z') || (byte >= b'0' && byte <= b'9') || byte == b'_' || byte == b'.'
}

fn is_of_name_bytes(name: &[u8]) -> bool
    ensures { result ≡ list_all is_name_byte name.now }
{
    name.iter().all(|byte| is_name_byte(*byte))
}

fn kind_of_number(number: u8) -> Option<UnitKind>
    ensures { result ≡ kind_of_number number }
{
    match number {
        0 => Some(UnitKind::Decl),
        1 => Some(UnitKind::Body),
        2 => Some(UnitKind::Sub),
        _ => None,
    }
}

#[tactic(auto, unfolding(crate::specs::Reading::kind_at))]
fn kind_at(bytes: &[u8]) -> Result<(UnitKind, &[u8]), LinkFault>
    ensures { Finds (λ x. (x.0, x.1.now)) result (kind_at bytes.now) }
{
    let Some((number, rest)) = bytes.split_first() else {
        return Err(LinkFault::Damaged);
    };
    match kind_of_number(*number) {
        Some(kind) => Ok((kind, rest)),
        None => Err(LinkFault::Damaged),
    }
}

/// A unit's name after its length.
#[tactic(auto, unfolding(crate::specs::Reading::name_at))]
fn name_at(bytes: &[u8]) -> Result<(&[u8], &[u8]), LinkFault>
    ensures { Finds (λ x. (x.0.now, x.1.now)) result (name_at bytes.now) }
{
    let Some((number, rest)) = bytes.split_first() else {
        return Err(LinkFault::Damaged);
    };
    let len = *number as usize;
    if len == 0 || rest.len() < len {
        return Err(LinkFault::Damaged);
    }
    let (name, rest) = rest.split_at(len);
    if !is_of_name_bytes(name) {
        return Err(LinkFault::Damaged);
    }
    Ok((name, rest))
}

#[tactic(auto, unfolding(crate::specs::Reading::object_at))]
fn object_at(alloc: Global, bytes: &[u8]) -> Result<(ImageObject, &[u8]), LinkFault>
    ensures { Finds (λ x. (x.0, x.1.now)) result (object_at bytes.now) }
{
    let (kind, rest) = kind_at(bytes)?;
    let (name, rest) = name_at(rest)?;
    let (place, rest) = number_at(rest)?;
    let name = Name::from_slice(alloc, name)?;
    Ok((ImageObject { kind, name, place }, rest))
}

/// So many units' objects.
#[tactic(auto, using(crate::proofs::Readers::no_more, crate::proofs::Readers::all_there))]
fn many_objects(
    alloc: Global,
    number: u32,
    bytes: &[u8],
) -> Result<(Vec<ImageObject>, &[u8]), LinkFault>
    ensures { Finds (λ x. (x.0.items, x.1.now)) result (more_at object_at [] number bytes.now) }
{
    let mut objects = Vec::new(alloc);
    let mut rest = bytes;
    for _index in 0..number {
        let (object, behind) = object_at(alloc, rest)?;
        objects.push(object)?;
        rest = behind;
    }
    Ok((objects, rest))
}

/// The units' objects after their number.
#[tactic(auto, unfolding(crate::specs::Reading::counted_at))]
pub(crate) fn objects_at(
    alloc: Global,
    bytes: &[u8],
) -> Result<(Vec<ImageObject>, &[u8]), LinkFault>
    ensures { Finds (λ x. (x.0.items, x.1.now)) result (counted_at 65535 object_at bytes.now) }
{
    let (number, rest) = limited_at(MAX_OBJECTS, bytes)?;
    many_objects(alloc, number, rest)
}
