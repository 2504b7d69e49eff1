// Whether folders are unchanged since they were read.
use crate::disk::{Disk, Listing, PathKind};
use crate::failure::Failure;
use crate::paths::path_of;
use crate::request::Request;
use crate::sources::{Seen, Sources};
use std::alloc::Global;

/// Whether the folders are as they were when these sources were read: they have the same names, and each file was old then and has the same stamp. No
/// file is opened.
///
/// # Errors
///
/// `Memory` if memory runs out.
pub fn are_unchanged<D: Disk>(
    alloc: Global,
    disk: &D,
    request: &Request<'_>,
    sources: &Sources,
) -> Result<bool, Failure> {
    let Some(listed) = sources.listed.as_ref() else {
        return Ok(false);
    };
    if !sources.are_files || sources.seen.len() != sources.texts.len() {
        return Ok(false);
    }
    let mut now = Vec::new(alloc);
    for folder in request.folders.iter() {
        match disk.list(alloc, folder.as_str(), false) {
            Ok(listing) => add_listing(&mut now, &listing)?,
            Err(_) => return Ok(false),
        }
    }
    if now.as_slice() != listed.as_slice() {
        return Ok(false);
    }
    for (name, seen) in sources.seen.iter() {
        if !is_as_seen(alloc, disk, sources, name.as_str(), *seen)? {
            return Ok(false);
        }
    }
    Ok(true)
}

/// Adds the names of a folder, each with a byte after it that no name has, and the number of names that aren't UTF-8.
///
/// # Errors
///
/// `Memory` if memory runs out.
pub fn add_listing(listed: &mut Vec<u8>, listing: &Listing) -> Result<(), Failure> {
    for name in listing.names.iter() {
        listed.extend_from_slice(name.as_bytes())?;
        listed.push(0)?;
    }
    listed.extend_from_slice(&listing.unnamed.to_be_bytes())?;
    Ok(())
}

// Whether a file was old, and has the same stamp.
fn is_as_seen<D: Disk>(
    alloc: Global,
    disk: &D,
    sources: &Sources,
    name: &str,
    seen: Seen,
) -> Result<bool, Failure> {
    if !seen.is_old {
        return Ok(false);
    }
    let Some(folder) = sources.folders.get(name.as_bytes()) else {
        return Ok(false);
    };
    let folder = String::from_utf8_lossy(alloc, folder)?;
    let path = path_of(alloc, folder.as_str(), name)?;
    match disk.status(path.as_str()) {
        Ok(status) => {
            Ok(matches!(status.kind, PathKind::File) && status.stamp == Some(seen.stamp))
        }
        Err(_) => Ok(false),
    }
}
