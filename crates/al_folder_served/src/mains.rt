// The files of the main unit.
use crate::failure::Failure;
use crate::files_needed::{add_files, body_file};
use crate::index::Index;
use crate::request::Request;
use crate::screen::Screen;
use al_base::Name;
use al_session_stream::Sink;
use std::alloc::Global;

// The largest number of similar names that are printed.
const MOST_NEAR: usize = 3;

/// Adds the names of the main unit's files. Gives whether that of its body is there; if not, that is printed, with similar names.
///
/// # Errors
///
/// A [`Failure`] if an output can't be written or memory runs out.
pub fn find_main<O: Sink, E: Sink>(
    alloc: Global,
    screen: &mut Screen<O, E>,
    request: &Request<'_>,
    unit: &Name,
    index: &Index,
    queue: &mut Vec<String>,
) -> Result<bool, Failure> {
    add_files(alloc, unit.as_slice(), queue)?;
    let file = body_file(alloc, unit.as_slice())?;
    if index.places.contains_key(file.as_str()) {
        return Ok(true);
    }
    tell_no_main(alloc, screen, request, unit, index, file.as_str())?;
    Ok(false)
}

// Reports that no folder has the file of a main unit's body, and which names are similar.
fn tell_no_main<O: Sink, E: Sink>(
    alloc: Global,
    screen: &mut Screen<O, E>,
    request: &Request<'_>,
    unit: &Name,
    index: &Index,
    file: &str,
) -> Result<(), Failure> {
    let mut line = String::from_str(alloc, "error: no ")?;
    line.push_str(file)?;
    for (number, folder) in request.folders.iter().enumerate() {
        line.push_str(if number == 0 { " in " } else { " or " })?;
        line.push_str(folder.as_str())?;
    }
    let is_first = request.units.first().is_some_and(|first| first == unit);
    if !is_first {
        line.push_str(", and no such folder")?;
    }
    let mut near = 0usize;
    for name in index.places.keys() {
        if near < MOST_NEAR
            && name.ends_with(".adb")
            && are_near(name.as_bytes(), file.as_bytes())
        {
            line.push_str(if near == 0 { "; near it: " } else { ", " })?;
            line.push_str(name.as_str())?;
            near += 1;
        }
    }
    screen.tell_line(&[line.as_bytes()])
}

// Whether two names differ only in at most two adjacent bytes.
fn are_near(one: &[u8], other: &[u8]) -> bool {
    let most = one.len().max(other.len());
    let least = one.len().min(other.len());
    let front = common_front(one, other);
    let back = common_back(one, other).min(least.saturating_sub(front));
    front.saturating_add(back).saturating_add(2) >= most
}

// How many bytes at the beginning are the same.
fn common_front(one: &[u8], other: &[u8]) -> usize {
    let mut count = 0usize;
    for (a, b) in one.iter().zip(other.iter()) {
        if a != b {
            break;
        }
        count = count.saturating_add(1);
    }
    count
}

// How many bytes at the end are the same.
fn common_back(one: &[u8], other: &[u8]) -> usize {
    let mut count = 0usize;
    for (a, b) in one.iter().rev().zip(other.iter().rev()) {
        if a != b {
            break;
        }
        count = count.saturating_add(1);
    }
    count
}
