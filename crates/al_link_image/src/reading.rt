// Reading images.
ghost use Rattle.std.specs.Prelude.{◌≡◌, ◌++◌, ◌∷◌, [], List, ℕ, option_map, IfOk, OnOk};
ghost use Rattle.al_link_image.specs.Images as images;
ghost use Rattle.al_link_image.specs.Images.{IsImage, IsReadAs, image_bytes};
ghost use Rattle.al_link_image.specs.Reading.{Finds, limited_at, code_at, lines_at, parts_at, tail_at, version_at};
ghost use Rattle.al_instr.specs.Reading.{word_at};
ghost use Rattle.al_link_image.specs.Views.{parts_model};

use crate::code::instructions_at;
use crate::fault::LinkFault;
use crate::image::Image;
use crate::limits::{MAX_CODE, MAX_DATA_WORDS, MAX_TASKS};
use crate::lines::entries_at;
use crate::parts::ImageParts;
use crate::regions::regions_at;
use crate::units::objects_at;
use al_instr::LineEntry;
use std::alloc::Global;

impl Image {
    /// The image that has these bytes.
    ///
    /// # Errors
    ///
    /// `Damaged` if no image has these bytes; `NoMemory` if the allocator refuses memory.
    pub fn read(alloc: Global, bytes: &[u8]) -> Result<Image, LinkFault>
        ensures found { IfOk result (λ image. bytes.now ≡ image_bytes image) }
        ensures within { IfOk result (λ image. IsImage image) }
        ensures again { (image : images.Image) → IsImage image → bytes.now ≡ image_bytes image → IsReadAs image result }
    {
        let parts = parts_at(alloc, bytes)?;
        let _instructions = instructions_at(alloc, parts.code.as_slice())?;
        Ok(Image::new(parts))
    }
}

#[tactic(auto, unfolding(crate::specs::Reading::parts_at))]
fn parts_at(alloc: Global, bytes: &[u8]) -> Result<ImageParts, LinkFault>
    ensures { Finds parts_model result (parts_at bytes.now) }
{
    let (has_lines, rest) = version_at(bytes)?;
    let (tasks, rest) = limited_at(MAX_TASKS, rest)?;
    let (data_words, rest) = limited_at(MAX_DATA_WORDS, rest)?;
    let (protected, rest) = regions_at(alloc, data_words, rest)?;
    let (objects, rest) = objects_at(alloc, rest)?;
    let (code, lines) = tail_at(alloc, has_lines, rest)?;
    Ok(ImageParts {
        tasks,
        data_words,
        protected,
        objects,
        code,
        lines,
    })
}

/// Whether the version after the mark is 2, and what is after it.
#[tactic(auto, unfolding(crate::specs::Reading::version_at))]
fn version_at(bytes: &[u8]) -> Result<(bool, &[u8]), LinkFault>
    ensures { Finds (λ x. (x.0, x.1.now)) result (version_at bytes.now) }
{
    if bytes.len() < 6 {
        return Err(LinkFault::Damaged);
    }
    let (front, rest) = bytes.split_at(6);
    if front == b"ADLI\x00\x01".as_slice() {
        return Ok((false, rest));
    }
    if front == b"ADLI\x00\x02".as_slice() {
        return Ok((true, rest));
    }
    Err(LinkFault::Damaged)
}

/// The number in four bytes.
#[tactic(auto, unfolding(al_instr::specs::Reading::word_at))]
pub(crate) fn number_at(bytes: &[u8]) -> Result<(u32, &[u8]), LinkFault>
    ensures { Finds (λ x. (x.0, x.1.now)) result (word_at bytes.now) }
{
    if bytes.len() < 4 {
        return Err(LinkFault::Damaged);
    }
    let (front, rest) = bytes.split_at(4);
    let number = u32::from_be_bytes([front[0], front[1], front[2], front[3]]);
    Ok((number, rest))
}

/// A number that is at most the limit.
#[tactic(auto, unfolding(crate::specs::Reading::limited_at))]
pub(crate) fn limited_at(limit: u32, bytes: &[u8]) -> Result<(u32, &[u8]), LinkFault>
    ensures { Finds (λ x. (x.0, x.1.now)) result (limited_at limit bytes.now) }
{
    let (number, rest) = number_at(bytes)?;
    if number > limit {
        return Err(LinkFault::Damaged);
    }
    Ok((number, rest))
}

/// The code's bytes after their number.
#[tactic(auto, unfolding(crate::specs::Reading::code_at))]
fn code_at(bytes: &[u8]) -> Result<(&[u8], &[u8]), LinkFault>
    ensures { Finds (λ x. (x.0.now, x.1.now)) result (code_at bytes.now) }
{
    let (len, rest) = limited_at(MAX_CODE, bytes)?;
    if rest.len() < len as usize {
        return Err(LinkFault::Damaged);
    }
    Ok(rest.split_at(len as usize))
}

/// The table of lines of a code of this length, if the image's version has one: all that is left.
#[tactic(auto, unfolding(crate::specs::Reading::lines_at))]
fn lines_at(
    alloc: Global,
    has_lines: bool,
    end: usize,
    bytes: &[u8],
) -> Result<Option<Vec<LineEntry>>, LinkFault>
    ensures { Finds (option_map (λ v. v.items)) result (lines_at has_lines end bytes.now) }
{
    if has_lines {
        let lines = entries_at(alloc, end, bytes)?;
        return Ok(Some(lines));
    }
    if bytes.len() > 0 {
        return Err(LinkFault::Damaged);
    }
    Ok(None)
}

/// The code and its lines: all that is left.
#[tactic(auto, unfolding(crate::specs::Reading::tail_at))]
fn tail_at(
    alloc: Global,
    has_lines: bool,
    bytes: &[u8],
) -> Result<(Vec<u8>, Option<Vec<LineEntry>>), LinkFault>
    ensures { Finds (λ x. (x.0.items, option_map (λ v. v.items) x.1)) result (tail_at has_lines bytes.now) }
{
    let (code, rest) = code_at(bytes)?;
    let lines = lines_at(alloc, has_lines, code.len(), rest)?;
    let code = Vec::from_slice(alloc, code)?;
    Ok((code, lines))
}
