// All that an image of units is made of, except the units' code.
ghost use Rattle.std.specs.Prelude.{◌≡◌, map, IfOk, IfErr, OnOk};
ghost use Rattle.std.specs.List.{All};
ghost use Rattle.al_link_image.specs.Images.{IsUnitName};
ghost use Rattle.al_link.specs.Images.{IsLinkFault};
ghost use Rattle.al_link.specs.Kept.{IsPrepared};
ghost use Rattle.al_link.specs.Units.{AreWithin, unit_model};

use crate::bases::Bases;
use crate::image::{lines_of, objects_of, regions_of};
use crate::places::Places;
use crate::start::start_bytes;
use crate::units::{LinkUnit, first_bases, locate};
use al_instr::LineEntry;
use al_link_image::{ImageObject, LinkFault, MAX_OBJECTS, Region};
use al_view::LinkSymbol;
use std::alloc::Global;

/// All that an image of units is made of, except the units' code.
#[derive(Drop)]
pub(crate) struct Prepared {
    pub(crate) totals: Bases,
    pub(crate) places: Places,
    pub(crate) start: Vec<u8>,
    pub(crate) protected: Vec<Region>,
    pub(crate) objects: Vec<ImageObject>,
    pub(crate) lines: Vec<LineEntry>,
}

/// Prepares all that an image of units is made of, except the units' code.
pub(crate) fn prepare(
    alloc: Global,
    main: &LinkSymbol,
    units: &[LinkUnit<'_>],
) -> Result<Prepared, LinkFault>
    requires { All (λ u. IsUnitName u.key.now.name) units.now }
    ensures made { IfOk result (IsPrepared main.now (map unit_model units.now)) }
    ensures within { OnOk result (AreWithin (map unit_model units.now)) }
    ensures fault { IfErr result (λ fault. IsLinkFault (map unit_model units.now) fault) }
{
    if units.len() > MAX_OBJECTS as usize {
        return Err(LinkFault::TooLarge);
    }
    let first = first_bases(units);
    let (located, totals) = locate(alloc, first, units)?;
    let places = Places::of(alloc, &located)?;
    let start = start_bytes(alloc, &located, places.place_of(main))?;
    let protected = regions_of(alloc, &located, totals.words)?;
    let objects = objects_of(alloc, &located)?;
    let lines = lines_of(alloc, &located)?;
    Ok(Prepared {
        totals,
        places,
        start,
        protected,
        objects,
        lines,
    })
}
