// How many instructions of a run each line and each body had.
ghost use Rattle.std.specs.Prelude.{◌≡◌, ◌-◌, ◌^◌, ◌<◌, IfOk, IsOk};

use crate::listing::{SourceLines, lines_of, pass_on, push_trimmed};
use crate::operands::push_bytes;
use al_base::{FileKey, NoMemory};
use al_instr::{Instr, LineEntry};
use al_link_image::{Image, ImageObject};
use al_session_stream::{Device, Sink};
use al_tasks::{Advanced, Event, Witness, World};
use std::alloc::{AllocError, Global};

/// The instructions of a run by their places.
pub struct Profile {
    // Where the running task's next instruction begins.
    next: Option<usize>,
    total: u64,
    // By place in the code.
    counts: Vec<u64>,
}

impl Drop for Profile {
    fn drop(self) {
        let Profile {
            next: _,
            total: _,
            counts: _,
        } = self;
    }
}

// A stretch of code of one line or one body: its unit, counted from 1, or 0 before all units; its line; and how many instructions there were
// in it.
#[derive(Clone, Copy)]
struct Share {
    unit: usize,
    line: u32,
    count: u64,
}

impl Share {
    // Before those of later units, and of later lines of the same one.
    fn order(&self) -> (usize, u32) {
        (self.unit, self.line)
    }

    // Before those with fewer instructions.
    fn rank(&self) -> u64 {
        u64::MAX - self.count
    }
}

impl Profile {
    /// Of a run of the image from its start.
    ///
    /// # Errors
    ///
    /// `NoMemory` if memory runs out.
    pub fn new(alloc: Global, image: &Image) -> Result<Profile, NoMemory> {
        let mut counts = Vec::new(alloc);
        counts.resize(image.code().len(), 0)?;
        Ok(Profile {
            next: None,
            total: 0,
            counts,
        })
    }

    // Counts an instruction at a place.
    fn count(&mut self, place: usize) {
        if let Some(count) = self.counts.get_mut(place) {
            *count = count.saturating_add(1);
        }
        self.total = self.total.saturating_add(1);
    }

    // How many instructions there were from a place to another one.
    fn between(&self, from: u32, to: u32) -> u64 {
        let mut sum = 0u64;
        if from <= to {
            if let Some(counts) = self.counts.get(from as usize..to as usize) {
                for count in counts {
                    sum = sum.saturating_add(*count);
                }
            }
        }
        sum
    }

    fn end(&self) -> u32 {
        u32::try_from(self.counts.len()).unwrap_or(u32::MAX)
    }

    // The shares of the stretches that begin at these places and lines, which rise.
    fn shares(
        &self,
        alloc: Global,
        objects: &[ImageObject],
        starts: &[LineEntry],
    ) -> Result<Vec<Share>, NoMemory> {
        let mut shares = Vec::new(alloc);
        let mut unit = 0usize;
        for (number, start) in starts.iter().enumerate() {
            let to = match starts.get(number + 1) {
                Some(next) => next.place,
                None => self.end(),
            };
            unit = unit_from(objects, unit, start.place);
            let count = self.between(start.place, to);
            if count > 0 {
                shares.push(Share {
                    unit,
                    line: start.line,
                    count,
                })?;
            }
        }
        Ok(shares)
    }

    /// Writes the profile: lines and bodies, those with the most instructions first.
    ///
    /// # Errors
    ///
    /// `NoMemory` if memory runs out.
    pub fn emit<K: Sink, S: SourceLines>(
        &self,
        alloc: Global,
        image: &Image,
        sources: &S,
        so_far: Result<(), Device>,
        writer: &mut K,
    ) -> Result<Result<(), Device>, NoMemory>
        requires { IsOk so_far → K.faults writer.old < 2 ^ 64 - 1 }
        ensures { IfOk result (λ written. IsOk written → IsOk so_far × (K.faults writer.new ≡ K.faults writer.old)) }
    {
        let mut out = String::new(alloc);
        let total = self.total;
        write!(out, "{total} instructions\n")?;
        self.push_lines(alloc, image, &mut out, sources)?;
        self.push_bodies(alloc, image, &mut out, sources)?;
        Ok(pass_on(so_far, writer, &mut out, true))
    }

    fn push_lines<S: SourceLines>(
        &self,
        alloc: Global,
        image: &Image,
        out: &mut String,
        sources: &S,
    ) -> Result<(), NoMemory> {
        let mut shares = self.shares(alloc, image.objects(), lines_of(image))?;
        shares.sort_by_key(|share| share.order())?;
        let mut lines = merged(alloc, shares.as_slice())?;
        lines.sort_by_key(|share| share.rank())?;
        out.push_str("\n share        count  line\n")?;
        self.push_shares(out, image, sources, lines.as_slice())
    }

    fn push_bodies<S: SourceLines>(
        &self,
        alloc: Global,
        image: &Image,
        out: &mut String,
        sources: &S,
    ) -> Result<(), NoMemory> {
        let bodies = bodies(alloc, image)?;
        let mut shares = self.shares(alloc, image.objects(), bodies.as_slice())?;
        shares.sort_by_key(|share| share.rank())?;
        out.push_str("\n share        count  body\n")?;
        self.push_shares(out, image, sources, shares.as_slice())
    }

    fn push_shares<S: SourceLines>(
        &self,
        out: &mut String,
        image: &Image,
        sources: &S,
        shares: &[Share],
    ) -> Result<(), NoMemory> {
        for share in shares {
            let mill = share.count.saturating_mul(1000) / self.total.max(1);
            push_share(out, mill, share.count)?;
            let unit = match share.unit.checked_sub(1) {
                Some(index) => image.objects().get(index),
                None => None,
            };
            push_where(out, sources, unit, share.line)?;
        }
        Ok(())
    }
}

impl Witness for Profile {
    fn stride(&self) -> u64 {
        1
    }

    fn begin(&mut self, world: &World) -> Result<(), NoMemory> {
        self.next = world.place();
        Ok(())
    }

    fn look_on(&mut self, world: &World, advanced: Advanced) -> Result<(), NoMemory> {
        match (advanced.event, self.next) {
            (Some(Event::Tick), _) | (_, None) => {}
            (_, Some(place)) => self.count(place),
        }
        self.next = world.place();
        Ok(())
    }
}

// How many units begin at the place or before it, where so many are known to.
fn unit_from(objects: &[ImageObject], known: usize, place: u32) -> usize {
    let mut units = known;
    if let Some(rest) = objects.get(known..) {
        for object in rest {
            if object.place > place {
                break;
            }
            units = units.saturating_add(1);
        }
    }
    units
}

// Where bodies begin, with the line of each.
fn bodies(alloc: Global, image: &Image) -> Result<Vec<LineEntry>, NoMemory> {
    let mut places = Vec::new(alloc);
    places.push(0)?;
    for object in image.objects() {
        places.push(object.place)?;
    }
    push_targets(alloc, image, &mut places)?;
    places.sort()?;
    places.dedup();
    with_lines(alloc, places.as_slice(), lines_of(image))
}

// One share for each line of each unit, of shares in their order.
fn merged(alloc: Global, shares: &[Share]) -> Result<Vec<Share>, NoMemory> {
    let mut lines: Vec<Share> = Vec::new(alloc);
    for share in shares {
        let is_more = match lines.last() {
            Some(last) => last.unit == share.unit && last.line == share.line,
            None => false,
        };
        if !is_more {
            lines.push(*share)?;
        } else if let Some(last) = lines.last_mut() {
            last.count = last.count.saturating_add(share.count);
        }
    }
    Ok(lines)
}

// The places that calls and creations of tasks lead to.
fn push_targets(alloc: Global, image: &Image, places: &mut Vec<u32>) -> Result<(), NoMemory> {
    let instructions = image.instructions(alloc)?;
    for instruction in instructions.as_slice() {
        match instruction {
            Instr::Call { place, words: _ } => places.push(*place)?,
            Instr::Task { place, priority: _ } => places.push(*place)?,
            _ => {}
        }
    }
    Ok(())
}

// Each place with its line; both rise.
fn with_lines(
    alloc: Global,
    places: &[u32],
    lines: &[LineEntry],
) -> Result<Vec<LineEntry>, NoMemory> {
    let mut found = Vec::new(alloc);
    let mut next = 0usize;
    let mut line = 0u32;
    for place in places {
        for _entry in next..lines.len() {
            let Some(entry) = lines.get(next) else {
                break;
            };
            if entry.place > *place {
                break;
            }
            line = entry.line;
            next = next.saturating_add(1);
        }
        found.push(LineEntry {
            place: *place,
            line,
        })?;
    }
    Ok(found)
}

fn push_share(out: &mut String, mill: u64, count: u64) -> Result<(), AllocError> {
    let whole = mill / 10;
    let tenth = mill % 10;
    write!(out, "{whole:>4}.{tenth}% {count:>12}  ")
}

// FILE:LINE, and the line where the text is there.
fn push_where<S: SourceLines>(
    out: &mut String,
    sources: &S,
    unit: Option<&ImageObject>,
    line: u32,
) -> Result<(), AllocError> {
    let Some(unit) = unit else {
        return out.push_str("(elaboration)\n");
    };
    push_file(out, unit)?;
    write!(out, ":{line}")?;
    if let Some(text) = sources.line(unit, line) {
        out.push_str("  ")?;
        push_trimmed(out, text)?;
    }
    out.push_str("\n")
}

fn push_file(out: &mut String, unit: &ImageObject) -> Result<(), AllocError> {
    let name = unit.name.as_slice();
    match FileKey::of(name, unit.kind) {
        Some(file) => push_bytes(out, file.as_slice()),
        None => push_bytes(out, name),
    }
}
