// The unit of a text.
ghost use Rattle.std.specs.Prelude.{◌≡◌, ◌≤◌, ◌<◌, None, IfOk, length, option_map};
ghost use Rattle.al_lsp_outline.specs.Heads.{text_heading};
ghost use Rattle.al_lsp_listing.specs.Units.{unit_heading, unit_number, unit_view};

use al_base::NoMemory;
use al_lsp_outline::{Heading, MAX_SOURCE, heading_in};
use al_lsp_served::UnitName;
use al_unit_graph::UnitForm;
use std::alloc::Global;

// The protocol's number of what a unit is: a package, or a function.
fn unit_number(form: UnitForm) -> u64
    ensures { result ≡ unit_number form }
{
    match form {
        UnitForm::PackageDeclaration => 4,
        UnitForm::PackageBody => 4,
        UnitForm::SubprogramDeclaration => 12,
        UnitForm::SubprogramBody => 12,
        UnitForm::SubunitBody => 12,
    }
}

fn unit_name(alloc: Global, unit: &Heading) -> Result<UnitName, NoMemory>
    ensures { IfOk result (λ name. unit_view name ≡ unit_heading unit.now) }
{
    Ok(UnitName {
        name: Vec::from_slice(alloc, unit.name.as_slice())?,
        kind: unit_number(unit.form),
        place: unit.place,
    })
}

/// The unit of a text; none where it is no unit, or has more bytes than a source may.
///
/// # Errors
///
/// `NoMemory` where memory was wanted and not given.
pub fn unit_in(alloc: Global, text: &[u8]) -> Result<Option<UnitName>, NoMemory>
    ensures unit { length text.now ≤ 4294967294 → IfOk result (λ unit. option_map unit_view unit ≡ option_map unit_heading (text_heading text.now)) }
    ensures longer { 4294967294 < length text.now → IfOk result (λ unit. unit ≡ None) }
{
    if text.len() > MAX_SOURCE {
        return Ok(None);
    }
    match heading_in(alloc, text)? {
        Some(unit) => Ok(Some(unit_name(alloc, &unit)?)),
        None => Ok(None),
    }
}
