// The bytes of the parts of images.
ghost use Rattle.std.specs.Prelude.{◌≡◌, ◌+◌, ◌<◌, ◌≤◌, ◌++◌, ◌∷◌, [], length, option_map, vec_capacity, Some, IfSome, IsOk, OnOk, All};
ghost use Rattle.std.specs.List.{flat_map};
ghost use Rattle.al_instr.specs.Codes.{word_bytes};
ghost use Rattle.al_link_image.specs.Lines.{entry_bytes, lines_bytes, mark_of};
ghost use Rattle.al_link_image.specs.Images.{front_bytes, kind_number, region_bytes, regions_bytes, object_bytes, objects_bytes};
ghost use Rattle.al_link_image.specs.Parts.{image_of};

use crate::parts::{ImageObject, ImageParts, Region};
use al_base::{NoMemory, UnitKind};
use al_instr::LineEntry;
use byteorder::{BigEndian, ByteOrder};

fn push_byte(out: &mut Vec<u8>, byte: u8) -> Result<(), NoMemory>
    ensures value { OnOk result (out.new.items ≡ out.old.items ++ byte ∷ []) }
    ensures capacity { vec_capacity out.old ≤ vec_capacity out.new }
    ensures succeeds { length out.old.items + 1 ≤ vec_capacity out.old → IsOk result }
{
    out.push(byte)?;
    Ok(())
}

pub(crate) fn push_bytes(out: &mut Vec<u8>, bytes: &[u8]) -> Result<(), NoMemory>
    ensures value { OnOk result (out.new.items ≡ out.old.items ++ bytes.now) }
    ensures capacity { vec_capacity out.old ≤ vec_capacity out.new }
    ensures succeeds { length out.old.items + length bytes.now ≤ vec_capacity out.old → IsOk result }
{
    out.extend_from_slice(bytes)?;
    Ok(())
}

/// Appends a number in four bytes.
#[tactic(auto, unfolding(al_instr::specs::Codes::word_bytes))]
pub(crate) fn push_word(out: &mut Vec<u8>, number: u32) -> Result<(), NoMemory>
    ensures value { OnOk result (out.new.items ≡ out.old.items ++ word_bytes number) }
    ensures capacity { vec_capacity out.old ≤ vec_capacity out.new }
    ensures succeeds { length out.old.items + length (word_bytes number) ≤ vec_capacity out.old → IsOk result }
{
    let mut bytes = [0; 4];
    BigEndian::write_u32(&mut bytes, number);
    push_bytes(out, &bytes)
}

/// Appends the mark and the version that each image begins with.
fn push_mark(out: &mut Vec<u8>, lines: &Option<Vec<LineEntry>>) -> Result<(), NoMemory>
    ensures value { OnOk result (out.new.items ≡ out.old.items ++ mark_of (option_map (λ v. v.items) lines.now)) }
    ensures capacity { vec_capacity out.old ≤ vec_capacity out.new }
    ensures succeeds { length out.old.items + length (mark_of (option_map (λ v. v.items) lines.now)) ≤ vec_capacity out.old → IsOk result }
{
    match lines {
        None => push_bytes(out, b"ADLI\x00\x01"),
        Some(_) => push_bytes(out, b"ADLI\x00\x02"),
    }
}

fn push_region(out: &mut Vec<u8>, region: &Region) -> Result<(), NoMemory>
    ensures value { OnOk result (out.new.items ≡ out.old.items ++ region_bytes region.now) }
    ensures capacity { vec_capacity out.old ≤ vec_capacity out.new }
    ensures succeeds { length out.old.items + length (region_bytes region.now) ≤ vec_capacity out.old → IsOk result }
{
    push_word(out, region.address)?;
    push_word(out, region.words)?;
    push_word(out, region.ceiling)
}

#[tactic(auto, using(crate::proofs::Room::one_less))]
fn push_all_regions(out: &mut Vec<u8>, regions: &[Region]) -> Result<(), NoMemory>
    ensures value { OnOk result (out.new.items ≡ out.old.items ++ flat_map region_bytes regions.now) }
    ensures capacity { vec_capacity out.old ≤ vec_capacity out.new }
    ensures succeeds { length out.old.items + length (flat_map region_bytes regions.now) ≤ vec_capacity out.old → IsOk result }
{
    for region in regions {
        push_region(out, region)?;
    }
    Ok(())
}

/// Appends the protected objects after their number.
fn push_regions(out: &mut Vec<u8>, regions: &[Region]) -> Result<(), NoMemory>
    requires { length regions.now ≤ 65535 }
    ensures value { OnOk result (out.new.items ≡ out.old.items ++ regions_bytes regions.now) }
    ensures capacity { vec_capacity out.old ≤ vec_capacity out.new }
    ensures succeeds { length out.old.items + length (regions_bytes regions.now) ≤ vec_capacity out.old → IsOk result }
{
    push_word(out, regions.len() as u32)?;
    push_all_regions(out, regions)
}

fn kind_number(kind: UnitKind) -> u8
    ensures { result ≡ kind_number kind }
{
    match kind {
        UnitKind::Decl => 0,
        UnitKind::Body => 1,
        UnitKind::Sub => 2,
    }
}

fn push_object(out: &mut Vec<u8>, object: &ImageObject) -> Result<(), NoMemory>
    requires { length object.now.name ≤ 255 }
    ensures value { OnOk result (out.new.items ≡ out.old.items ++ object_bytes object.now) }
    ensures capacity { vec_capacity out.old ≤ vec_capacity out.new }
    ensures succeeds { length out.old.items + length (object_bytes object.now) ≤ vec_capacity out.old → IsOk result }
{
    push_byte(out, kind_number(object.kind))?;
    push_byte(out, object.name.as_slice().len() as u8)?;
    push_bytes(out, object.name.as_slice())?;
    push_word(out, object.place)
}

#[tactic(auto, using(crate::proofs::Room::one_less))]
fn push_all_objects(out: &mut Vec<u8>, objects: &[ImageObject]) -> Result<(), NoMemory>
    requires { All (λ o. length o.name ≤ 255) objects.now }
    ensures value { OnOk result (out.new.items ≡ out.old.items ++ flat_map object_bytes objects.now) }
    ensures capacity { vec_capacity out.old ≤ vec_capacity out.new }
    ensures succeeds { length out.old.items + length (flat_map object_bytes objects.now) ≤ vec_capacity out.old → IsOk result }
{
    for object in objects {
        push_object(out, object)?;
    }
    Ok(())
}

/// Appends the units' objects after their number.
fn push_objects(out: &mut Vec<u8>, objects: &[ImageObject]) -> Result<(), NoMemory>
    requires count { length objects.now ≤ 65535 }
    requires names { All (λ o. length o.name ≤ 255) objects.now }
    ensures value { OnOk result (out.new.items ≡ out.old.items ++ objects_bytes objects.now) }
    ensures capacity { vec_capacity out.old ≤ vec_capacity out.new }
    ensures succeeds { length out.old.items + length (objects_bytes objects.now) ≤ vec_capacity out.old → IsOk result }
{
    push_word(out, objects.len() as u32)?;
    push_all_objects(out, objects)
}

fn push_entry(out: &mut Vec<u8>, entry: &LineEntry) -> Result<(), NoMemory>
    ensures value { OnOk result (out.new.items ≡ out.old.items ++ entry_bytes entry.now) }
    ensures capacity { vec_capacity out.old ≤ vec_capacity out.new }
    ensures succeeds { length out.old.items + length (entry_bytes entry.now) ≤ vec_capacity out.old → IsOk result }
{
    push_word(out, entry.place)?;
    push_word(out, entry.line)
}

#[tactic(auto, using(crate::proofs::Room::one_less))]
fn push_all_entries(out: &mut Vec<u8>, entries: &[LineEntry]) -> Result<(), NoMemory>
    ensures value { OnOk result (out.new.items ≡ out.old.items ++ flat_map entry_bytes entries.now) }
    ensures capacity { vec_capacity out.old ≤ vec_capacity out.new }
    ensures succeeds { length out.old.items + length (flat_map entry_bytes entries.now) ≤ vec_capacity out.old → IsOk result }
{
    for entry in entries {
        push_entry(out, entry)?;
    }
    Ok(())
}

fn push_entries(out: &mut Vec<u8>, entries: &[LineEntry]) -> Result<(), NoMemory>
    requires { length entries.now ≤ 16777216 }
    ensures value { OnOk result (out.new.items ≡ out.old.items ++ lines_bytes (Some entries.now)) }
    ensures capacity { vec_capacity out.old ≤ vec_capacity out.new }
    ensures succeeds { length out.old.items + length (lines_bytes (Some entries.now)) ≤ vec_capacity out.old → IsOk result }
{
    push_word(out, entries.len() as u32)?;
    push_all_entries(out, entries)
}

/// Appends the lines after their number, if there are any.
pub(crate) fn push_lines(out: &mut Vec<u8>, lines: &Option<Vec<LineEntry>>) -> Result<(), NoMemory>
    requires { IfSome lines.now (λ v. length v.items ≤ 16777216) }
    ensures value { OnOk result (out.new.items ≡ out.old.items ++ lines_bytes (option_map (λ v. v.items) lines.now)) }
    ensures capacity { vec_capacity out.old ≤ vec_capacity out.new }
    ensures succeeds { length out.old.items + length (lines_bytes (option_map (λ v. v.items) lines.now)) ≤ vec_capacity out.old → IsOk result }
{
    match lines {
        None => Ok(()),
        Some(entries) => push_entries(out, entries.as_slice()),
    }
}

// The mark, and how many tasks and data words there are.
fn push_numbers(out: &mut Vec<u8>, parts: &ImageParts) -> Result<(), NoMemory>
    ensures value { OnOk result (out.new.items ≡ out.old.items ++ (mark_of (option_map (λ v. v.items) parts.now.lines) ++ word_bytes parts.now.tasks ++ word_bytes parts.now.data_words)) }
    ensures capacity { vec_capacity out.old ≤ vec_capacity out.new }
    ensures succeeds { length out.old.items + length (mark_of (option_map (λ v. v.items) parts.now.lines) ++ word_bytes parts.now.tasks ++ word_bytes parts.now.data_words) ≤ vec_capacity out.old → IsOk result }
{
    push_mark(out, &parts.lines)?;
    push_word(out, parts.tasks)?;
    push_word(out, parts.data_words)
}

/// Appends what comes before the code.
pub(crate) fn push_front(out: &mut Vec<u8>, parts: &ImageParts) -> Result<(), NoMemory>
    requires regions { length parts.now.protected.items ≤ 65535 }
    requires count { length parts.now.objects.items ≤ 65535 }
    requires names { All (λ o. length o.name ≤ 255) parts.now.objects.items }
    ensures value { OnOk result (out.new.items ≡ out.old.items ++ front_bytes (image_of parts.now)) }
    ensures capacity { vec_capacity out.old ≤ vec_capacity out.new }
    ensures succeeds { length out.old.items + length (front_bytes (image_of parts.now)) ≤ vec_capacity out.old → IsOk result }
{
    push_numbers(out, parts)?;
    push_regions(out, parts.protected.as_slice())?;
    push_objects(out, parts.objects.as_slice())
}

/// Appends the code after its length, and its lines.
pub(crate) fn push_tail(out: &mut Vec<u8>, parts: &ImageParts) -> Result<(), NoMemory>
    requires size { length parts.now.code.items ≤ 16777216 }
    requires lines { IfSome parts.now.lines (λ v. length v.items ≤ 16777216) }
    ensures value { OnOk result (out.new.items ≡ out.old.items ++ (word_bytes (length parts.now.code.items) ++ parts.now.code.items ++ lines_bytes (option_map (λ v. v.items) parts.now.lines))) }
    ensures capacity { vec_capacity out.old ≤ vec_capacity out.new }
    ensures succeeds { length out.old.items + length (word_bytes (length parts.now.code.items) ++ parts.now.code.items ++ lines_bytes (option_map (λ v. v.items) parts.now.lines)) ≤ vec_capacity out.old → IsOk result }
{
    push_word(out, parts.code.len() as u32)?;
    push_bytes(out, parts.code.as_slice())?;
    push_lines(out, &parts.lines)
}
