// The sources in the folders.
use crate::disk::{Disk, Listing};
use crate::failure::Failure;
use crate::index::{Index, Told};
use crate::paths::path_of;
use crate::request::Request;
use crate::screen::Screen;
use crate::unchanged::add_listing;
use al_base::is_file_name;
use al_session_stream::Sink;
use std::alloc::Global;

// The largest number of names of a folder that are reported because no source can have them.
const MOST_TOLD: u32 = 10;

/// Lists the folders. Reports folders that can't be read, and once each name that ends as a source's does and can't be one.
///
/// # Errors
///
/// A [`Failure`] if an output can't be written or memory runs out.
pub fn list_folders<D: Disk, O: Sink, E: Sink>(
    alloc: Global,
    disk: &D,
    screen: &mut Screen<O, E>,
    request: &Request<'_>,
    told: &mut Told,
) -> Result<Index, Failure> {
    let mut index = Index::new(alloc);
    for (number, folder) in request.folders.iter().enumerate() {
        match disk.list(alloc, folder.as_str(), false) {
            Ok(listing) => {
                add_listing(&mut index.listed, &listing)?;
                let (names, unnamed) = listing.into_names();
                add_names(alloc, screen, request, told, &mut index, number, names)?;
                tell_unnamed(alloc, screen, told, folder.as_str(), unnamed)?;
            }
            Err(e) => {
                index.is_whole = false;
                let why = format!(in alloc; "{e}")?;
                screen.tell_line(&[
                    b"error: the folder ",
                    folder.as_bytes(),
                    b" can't be read: ",
                    why.as_bytes(),
                ])?;
            }
        }
    }
    Ok(index)
}

// Adds the names of a folder, except those that are excluded.
fn add_names<O: Sink, E: Sink>(
    alloc: Global,
    screen: &mut Screen<O, E>,
    request: &Request<'_>,
    told: &mut Told,
    index: &mut Index,
    folder: usize,
    names: Vec<String>,
) -> Result<(), Failure> {
    let mut left_out = 0u32;
    for name in names {
        if request.is_excluded(name.as_bytes()) {
            continue;
        }
        if is_file_name(name.as_bytes()) {
            index.add(name, folder)?;
        } else if is_no_draft(name.as_bytes()) {
            let path = request.path_in(alloc, folder, name.as_str())?;
            if told.is_new(path.clone()?)? {
                left_out = left_out.saturating_add(1);
                if left_out <= MOST_TOLD {
                    tell_left_out(screen, path.as_str())?;
                }
            }
        }
    }
    if left_out > MOST_TOLD {
        tell_more(alloc, screen, left_out - MOST_TOLD)?;
    }
    Ok(())
}

// Whether a name isn't that of a draft: editors begin the names of unsaved files with a dot.
fn is_no_draft(name: &[u8]) -> bool {
    name.first() != Some(&b'.')
}

// Reports that a file is left out because of its name.
fn tell_left_out<O: Sink, E: Sink>(screen: &mut Screen<O, E>, path: &str) -> Result<(), Failure> {
    screen.tell_line(&[
        b"warning: ",
        path.as_bytes(),
        b" is left out: a source's name is one or more of a-z 0-9 _ ~ - and then .ads or .adb",
    ])
}

// Reports how many more files are left out.
fn tell_more<O: Sink, E: Sink>(
    alloc: Global,
    screen: &mut Screen<O, E>,
    more: u32,
) -> Result<(), Failure> {
    let more = format!(in alloc; "{more}")?;
    screen.tell_line(&[b"warning: ", more.as_bytes(), b" more names are left out"])
}

// Reports how many names of a folder aren't UTF-8.
fn tell_unnamed<O: Sink, E: Sink>(
    alloc: Global,
    screen: &mut Screen<O, E>,
    told: &mut Told,
    folder: &str,
    unnamed: u64,
) -> Result<(), Failure> {
    if unnamed == 0 {
        return Ok(());
    }
    let names = format!(in alloc; "{unnamed}")?;
    let mut once = String::from_str(alloc, folder)?;
    once.push_str("/ ")?;
    once.push_str(names.as_str())?;
    if !told.is_new(once)? {
        return Ok(());
    }
    screen.tell_line(&[
        b"warning: ",
        folder.as_bytes(),
        b" has names that aren't UTF-8, which are left out: ",
        names.as_bytes(),
    ])
}
