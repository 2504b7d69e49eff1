// The tables of a listing.
use crate::operands::push_bytes;
use al_base::UnitKind;
use al_instr::LineEntry;
use al_link_image::{Image, ImageObject, Region};
use std::alloc::AllocError;

/// What the image has, in numbers.
pub(crate) fn push_summary(out: &mut String, image: &Image) -> Result<(), AllocError> {
    let tasks = image.tasks();
    let words = image.data_words();
    let objects = image.protected().len();
    let units = image.objects().len();
    let bytes = image.code().len();
    write!(
        out,
        "{units} units, {bytes} bytes of code, {words} data words, {objects} protected objects, {tasks} tasks\n"
    )
}

fn kind_word(kind: UnitKind) -> &'static str {
    match kind {
        UnitKind::Decl => "declaration",
        UnitKind::Body => "body",
        UnitKind::Sub => "subunit",
    }
}

/// The head of a unit's code.
pub(crate) fn push_unit(out: &mut String, unit: &ImageObject, end: u32) -> Result<(), AllocError> {
    let kind = kind_word(unit.kind);
    let place = unit.place;
    let size = end.saturating_sub(place);
    out.push_str("\n")?;
    push_bytes(out, unit.name.as_slice())?;
    write!(out, ", {kind}: {size} bytes from {place}\n")
}

/// The protected objects by their numbers.
pub(crate) fn push_regions(out: &mut String, regions: &[Region]) -> Result<(), AllocError> {
    if regions.is_empty() {
        return Ok(());
    }
    out.push_str("\nobject  address    words  ceiling\n")?;
    for (number, region) in regions.iter().enumerate() {
        let address = region.address;
        let words = region.words;
        let ceiling = region.ceiling;
        write!(out, "{number:>6} {address:>8} {words:>8} {ceiling:>8}\n")?;
    }
    Ok(())
}

/// From which places on the code is of which lines.
pub(crate) fn push_lines(out: &mut String, lines: Option<&[LineEntry]>) -> Result<(), AllocError> {
    let Some(lines) = lines else {
        return out.push_str("\nthe image has no lines\n");
    };
    out.push_str("\n   place     line\n")?;
    for entry in lines {
        let place = entry.place;
        let line = entry.line;
        write!(out, "{place:>8} {line:>8}\n")?;
    }
    Ok(())
}
