// The parts of the image of units.
ghost use Rattle.std.specs.Prelude.{◌≡◌, ◌+◌, ◌≤◌, ◌++◌, length, map, sum_by, IfOk, OnOk};
ghost use Rattle.std.specs.List.{All, flat_map};
ghost use Rattle.al_instr.specs.Lines.{AreLines};
ghost use Rattle.al_link_image.specs.Images.{IsObject, IsRegion, IsUnitName};
ghost use Rattle.al_link.specs.Bases.{AreSmall, next_bases};
ghost use Rattle.al_link.specs.Images.{lines_of, object_of, region_at, regions_of};
ghost use Rattle.al_link.specs.Units.{located_model};

use crate::units::Located;
use al_base::{Name, NoMemory};
use al_code_object::Region as CompiledRegion;
use al_instr::{LineEntry, push_shifted};
use al_link_image::{ImageObject, Region};
use std::alloc::Global;

// The place at which the code of a unit begins.
fn object_of(alloc: Global, unit: &Located<'_>) -> Result<ImageObject, NoMemory>
    requires name { IsUnitName unit.now.key.now.name }
    requires place { AreSmall (next_bases unit.now.before unit.now.object.now) }
    ensures value { IfOk result (λ object. object ≡ object_of (located_model unit.now)) }
    ensures fit { IfOk result (λ object. IsObject object) }
{
    let name = Name::from_slice(alloc, unit.key.name.as_slice())?;
    Ok(ImageObject {
        kind: unit.key.kind,
        name,
        place: unit.before.code,
    })
}

// The place at which the code of each unit begins.
pub(crate) fn objects_of(alloc: Global, units: &[Located<'_>]) -> Result<Vec<ImageObject>, NoMemory>
    requires names { All (λ l. IsUnitName l.key.now.name) units.now }
    requires places { All (λ l. AreSmall (next_bases l.before l.object.now)) units.now }
    ensures value { IfOk result (λ objects. objects.items ≡ map object_of (map located_model units.now)) }
    ensures fit { IfOk result (λ objects. All IsObject objects.items) }
{
    let mut objects = Vec::new(alloc);
    for unit in units {
        let object = object_of(alloc, unit)?;
        objects.push(object)?;
    }
    Ok(objects)
}

// The words of a protected object, which are among `total` words.
pub(crate) fn region_at(base: u32, region: CompiledRegion, total: u32) -> Region
    requires { base + region.word + region.words ≤ total }
    ensures value { result ≡ region_at base region }
    ensures fit { IsRegion total result }
{
    Region {
        address: base + region.word,
        words: region.words,
        ceiling: region.ceiling.level() as u32,
    }
}

// Appends the words of a unit's protected objects, which are among `total` words.
fn push_regions(regions: &mut Vec<Region>, unit: &Located<'_>, total: u32) -> Result<(), NoMemory>
    requires words { unit.now.before.words + unit.now.object.now.data_words ≤ total }
    requires fit { All (IsRegion total) regions.old.items }
    ensures value { OnOk result (regions.new.items ≡ regions.old.items ++ regions_of (located_model unit.now)) }
    ensures fit { OnOk result (All (IsRegion total) regions.new.items) }
{
    unit.object.keeps();
    for one in unit.object.protected() {
        let region = region_at(unit.before.words, *one, total);
        regions.push(region)?;
    }
    Ok(())
}

// The words of all protected objects, which are among `total` words.
pub(crate) fn regions_of(
    alloc: Global,
    units: &[Located<'_>],
    total: u32,
) -> Result<Vec<Region>, NoMemory>
    requires { All (λ l. l.before.words + l.object.now.data_words ≤ total) units.now }
    ensures value { IfOk result (λ regions. regions.items ≡ flat_map regions_of (map located_model units.now)) }
    ensures fit { IfOk result (λ regions. All (IsRegion total) regions.items) }
    ensures count { IfOk result (λ regions. length regions.items ≡ sum_by (λ l. length l.object.now.protected) units.now) }
{
    let mut regions = Vec::new(alloc);
    for unit in units {
        push_regions(&mut regions, unit, total)?;
    }
    Ok(regions)
}

// Appends the lines of a unit's code.
fn push_lines(out: &mut Vec<LineEntry>, unit: &Located<'_>) -> Result<(), NoMemory>
    requires { AreSmall (next_bases unit.now.before unit.now.object.now) }
    ensures value { OnOk result (out.new.items ≡ out.old.items ++ lines_of (located_model unit.now)) }
    ensures each { AreLines (length unit.now.object.now.code) unit.now.object.now.lines }
{
    unit.object.keeps();
    push_shifted(out, unit.before.code, unit.object.lines())
}

// The lines of the code of all units.
pub(crate) fn lines_of(alloc: Global, units: &[Located<'_>]) -> Result<Vec<LineEntry>, NoMemory>
    requires { All (λ l. AreSmall (next_bases l.before l.object.now)) units.now }
    ensures value { IfOk result (λ lines. lines.items ≡ flat_map lines_of (map located_model units.now)) }
    ensures each { OnOk result (All (λ l. AreLines (length l.object.now.code) l.object.now.lines) units.now) }
{
    let mut lines = Vec::new(alloc);
    for unit in units {
        push_lines(&mut lines, unit)?;
    }
    Ok(lines)
}
