// The code of an image with its lines.
ghost use Rattle.std.specs.Prelude.{◌-◌, ◌^◌, ◌<◌, IfOk, IsOk, ◌≡◌};

use crate::operands::{Symbols, push_instruction};
use crate::tables::{push_lines, push_regions, push_summary, push_unit};
use al_base::NoMemory;
use al_instr::{Instr, LineEntry};
use al_link_image::{Image, ImageObject};
use al_session_stream::{Device, Sink, emit};
use std::alloc::{AllocError, Global};

// What is written is passed on as soon as there is so much of it.
const PASSED: usize = 65_536;

/// Whoever has the sources of units.
pub trait SourceLines {
    /// A line of the source of a unit without its end, by its number from 1; none if the source isn't there.
    fn line(&self, unit: &ImageObject, number: u32) -> Option<&[u8]>;
}

/// No texts at all.
pub struct NoSources;

impl SourceLines for NoSources {
    fn line(&self, _unit: &ImageObject, _number: u32) -> Option<&[u8]> {
        None
    }
}

// How far a listing has come: the next unit and the next entry of the table of lines.
struct Cursor<'a> {
    units: &'a [ImageObject],
    lines: &'a [LineEntry],
    unit: Option<&'a ImageObject>,
    end: u32,
}

impl Drop for Cursor<'_> {
    fn drop(self) {
        let Cursor {
            units: _,
            lines: _,
            unit: _,
            end: _,
        } = self;
    }
}

impl<'a> Cursor<'a> {
    // The heads of units whose code begins at the place or before it.
    fn push_units(&mut self, out: &mut String, place: u32) -> Result<(), AllocError> {
        for _unit in 0..self.units.len() {
            let Some((unit, rest)) = self.units.split_first() else {
                break;
            };
            if unit.place > place {
                break;
            }
            let end = match rest.first() {
                Some(next) => next.place,
                None => self.end,
            };
            push_unit(out, unit, end)?;
            self.unit = Some(unit);
            self.units = rest;
        }
        Ok(())
    }

    // The lines whose code begins at the place or before it.
    fn push_lines<S: SourceLines>(
        &mut self,
        out: &mut String,
        sources: &S,
        place: u32,
    ) -> Result<(), AllocError> {
        for _line in 0..self.lines.len() {
            let Some((entry, rest)) = self.lines.split_first() else {
                break;
            };
            if entry.place > place {
                break;
            }
            push_source(out, sources, self.unit, entry.line)?;
            self.lines = rest;
        }
        Ok(())
    }
}

// A line of the source of a unit, after its number.
fn push_source<S: SourceLines>(
    out: &mut String,
    sources: &S,
    unit: Option<&ImageObject>,
    line: u32,
) -> Result<(), AllocError> {
    write!(out, "{line:>6}:")?;
    if let Some(unit) = unit {
        if let Some(text) = sources.line(unit, line) {
            out.push_str(" ")?;
            push_text(out, text)?;
        }
    }
    out.push_str("\n")
}

// A line of a source: tabs and graphic characters stay, what would steer a terminal is a dot, and what isn't UTF-8 isn't shown.
pub(crate) fn push_text(out: &mut String, text: &[u8]) -> Result<(), AllocError> {
    match std::str::from_utf8(text) {
        Ok(text) => push_plain(out, text),
        Err(_) => out.push_str(".."),
    }
}

/// Appends bytes without the blanks before and after them.
pub(crate) fn push_trimmed(out: &mut String, text: &[u8]) -> Result<(), AllocError> {
    match std::str::from_utf8(text) {
        Ok(text) => push_plain(out, text.trim()),
        Err(_) => out.push_str(".."),
    }
}

fn push_plain(out: &mut String, text: &str) -> Result<(), AllocError> {
    for letter in text.chars() {
        let code = letter as u32;
        let is_plain = letter == '\t' || (code >= 32 && code != 127);
        out.push(if is_plain { letter } else { '.' })?;
    }
    Ok(())
}

// Passes on what is written, if there is much of it or all is wanted.
pub(crate) fn pass_on<K: Sink>(
    so_far: Result<(), Device>,
    writer: &mut K,
    out: &mut String,
    all: bool,
) -> Result<(), Device>
    requires { IsOk so_far → K.faults writer.old < 2 ^ 64 - 1 }
    ensures { IsOk result → IsOk so_far × (K.faults writer.new ≡ K.faults writer.old) }
{
    if !all && out.len() < PASSED {
        return so_far;
    }
    let so_far = emit(so_far, writer, out.as_bytes());
    out.clear();
    so_far
}

/// The lines of an image; none of one that has no table of them.
pub(crate) fn lines_of(image: &Image) -> &[LineEntry] {
    match image.lines() {
        Some(lines) => lines,
        None => &[],
    }
}

// The place after an instruction; the buffer is for its bytes.
pub(crate) fn after(instruction: &Instr, place: u32, bytes: &mut Vec<u8>) -> Result<u32, NoMemory> {
    bytes.clear();
    instruction.encode(bytes)?;
    match u32::try_from(bytes.len()) {
        Ok(size) => Ok(place.saturating_add(size)),
        Err(_) => Ok(place),
    }
}

/// Writes the listing of an image.
///
/// # Errors
///
/// `NoMemory` if memory runs out.
pub fn emit_listing<K: Sink, S: SourceLines>(
    alloc: Global,
    image: &Image,
    sources: &S,
    so_far: Result<(), Device>,
    writer: &mut K,
) -> Result<Result<(), Device>, NoMemory>
    requires { IsOk so_far → K.faults writer.old < 2 ^ 64 - 1 }
    ensures { IfOk result (λ written. IsOk written → IsOk so_far × (K.faults writer.new ≡ K.faults writer.old)) }
{
    let mut out = String::new(alloc);
    push_summary(&mut out, image)?;
    let so_far = emit_code(alloc, image, sources, so_far, writer, &mut out)?;
    push_regions(&mut out, image.protected())?;
    push_lines(&mut out, image.lines())?;
    Ok(pass_on(so_far, writer, &mut out, true))
}

// Writes the code.
fn emit_code<K: Sink, S: SourceLines>(
    alloc: Global,
    image: &Image,
    sources: &S,
    mut so_far: Result<(), Device>,
    writer: &mut K,
    out: &mut String,
) -> Result<Result<(), Device>, NoMemory>
    requires { IsOk so_far → K.faults writer.old < 2 ^ 64 - 1 }
    ensures { IfOk result (λ written. IsOk written → IsOk so_far × (K.faults writer.new ≡ K.faults writer.old)) }
{
    let instructions = image.instructions(alloc)?;
    let symbols = Symbols {
        objects: image.objects(),
        regions: image.protected(),
    };
    let mut cursor = Cursor {
        units: image.objects(),
        lines: lines_of(image),
        unit: None,
        end: image.code().len() as u32,
    };
    let mut bytes = Vec::new(alloc);
    let mut place = 0u32;
    for instruction in instructions.as_slice() {
        let next = after(instruction, place, &mut bytes)?;
        push_step(out, &mut cursor, sources, symbols, instruction, place, next)?;
        so_far = pass_on(so_far, writer, out, false);
        place = next;
    }
    Ok(so_far)
}

// An instruction after its place, below the heads and the lines that come with it.
fn push_step<S: SourceLines>(
    out: &mut String,
    cursor: &mut Cursor<'_>,
    sources: &S,
    symbols: Symbols<'_>,
    instruction: &Instr,
    place: u32,
    next: u32,
) -> Result<(), AllocError> {
    cursor.push_units(out, place)?;
    cursor.push_lines(out, sources, place)?;
    write!(out, "{place:>14}  ")?;
    push_instruction(out, symbols, instruction, next)?;
    out.push_str("\n")
}
