// The files of folders that are needed are read.
ghost use Rattle.std.specs.Prelude.{◌≡◌, false, length, IsSome, IsTrue, OnOk};
ghost use Rattle.al_base.specs.Files.{put_refusal, with_file};

use crate::disk::{Disk, PathKind, Stamp};
use crate::failure::Failure;
use crate::files_needed::add_needed;
use crate::index::{Index, Told};
use crate::listing::list_folders;
use crate::mains::find_main;
use crate::request::Request;
use crate::screen::Screen;
use crate::sources::{Seen, Sources};
use al_base::{MAX_TEXT, Name, Refusal};
use al_session_stream::Sink;
use std::alloc::Global;
use std::collections::BTreeSet;
use std::io;

// The age, in nanoseconds, above which a file isn't read again if its size and time are as before. No clock of a disk has longer ticks.
const OLD: u64 = 2_000_000_000;

/// The folders that sources are read from, and what is known of them.
#[derive(Drop)]
pub struct Shelf<'a, D: Disk> {
    pub alloc: Global,
    pub disk: &'a D,
    pub request: &'a Request<'a>,
    /// The sources that were read before.
    pub before: &'a Sources,
    /// The moment at which reading began, in nanoseconds since 1970.
    pub moment: u64,
}

/// Reads the sources that the main unit needs: those that a with clause, a stub, a child or a body names, under the names that GNAT gives their
/// files; or all sources if that is asked for. Prints why sources can't be read, and once each name that no source can have. A file that is unchanged
/// on the disk is taken from `before`.
///
/// # Errors
///
/// A [`Failure`] if an output can't be written, the clock can't be read or memory runs out.
pub fn read_sources<D: Disk, O: Sink, E: Sink>(
    alloc: Global,
    disk: &D,
    screen: &mut Screen<O, E>,
    request: &Request<'_>,
    unit: &Name,
    told: &mut Told,
    before: &Sources,
) -> Result<Sources, Failure> {
    let moment = disk.now().unwrap_or(0);
    let mut index = list_folders(alloc, disk, screen, request, told)?;
    let mut queue = Vec::new(alloc);
    if !index.is_whole || !find_main(alloc, screen, request, unit, &index, &mut queue)? {
        let mut sources = Sources::new(alloc);
        sources.are_whole = false;
        return Ok(sources);
    }
    if request.all {
        for name in index.places.keys() {
            queue.push(name.clone()?)?;
        }
    }
    let shelf = Shelf {
        alloc,
        disk,
        request,
        before,
        moment,
    };
    let mut sources = read_queue(&shelf, screen, told, &index, queue)?;
    sources.listed = Some(index.take_listed(alloc));
    Ok(sources)
}

// Reads the files of the queue, and those that they need.
fn read_queue<D: Disk, O: Sink, E: Sink>(
    shelf: &Shelf<'_, D>,
    screen: &mut Screen<O, E>,
    told: &mut Told,
    index: &Index,
    mut queue: Vec<String>,
) -> Result<Sources, Failure> {
    let mut sources = Sources::new(shelf.alloc);
    let mut asked = BTreeSet::new(shelf.alloc);
    for _turn in 0..u64::MAX {
        let Some(name) = queue.pop() else {
            break;
        };
        if asked.contains(name.as_str()) {
            continue;
        }
        read_listed(shelf, screen, told, index, name.as_str(), &mut sources)?;
        if let Some(text) = sources.texts.get(name.as_bytes()) {
            add_needed(shelf.alloc, text, &mut queue)?;
        }
        let _is_new = asked.insert(name)?;
    }
    Ok(sources)
}

// Reads the file of this name, if there is one.
fn read_listed<D: Disk, O: Sink, E: Sink>(
    shelf: &Shelf<'_, D>,
    screen: &mut Screen<O, E>,
    told: &mut Told,
    index: &Index,
    name: &str,
    sources: &mut Sources,
) -> Result<(), Failure> {
    let Some(folder) = index.places.get(name) else {
        return Ok(());
    };
    if let Some(other) = index.doubles.get(name) {
        sources.are_whole = false;
        return tell_twice(shelf.request, screen, name, *folder, *other);
    }
    read_source(shelf, screen, told, *folder, name, sources)
}

// Reports that a file is in two folders.
fn tell_twice<O: Sink, E: Sink>(
    request: &Request<'_>,
    screen: &mut Screen<O, E>,
    name: &str,
    folder: usize,
    other: usize,
) -> Result<(), Failure> {
    screen.tell_line(&[
        b"error: ",
        name.as_bytes(),
        b" is in two folders, ",
        request.folder(folder).as_bytes(),
        b" and ",
        request.folder(other).as_bytes(),
    ])
}

// Reads a file of a folder, unless it is unchanged.
fn read_source<D: Disk, O: Sink, E: Sink>(
    shelf: &Shelf<'_, D>,
    screen: &mut Screen<O, E>,
    told: &mut Told,
    folder: usize,
    name: &str,
    sources: &mut Sources,
) -> Result<(), Failure> {
    let path = shelf.request.path_in(shelf.alloc, folder, name)?;
    let stamp = match shelf.disk.status(path.as_str()) {
        Ok(status) if matches!(status.kind, PathKind::File) => status.stamp,
        Ok(_) => {
            sources.are_files = false;
            return tell_no_file(screen, told, path);
        }
        Err(e) => return tell_unread(shelf.alloc, screen, path.as_str(), e, sources),
    };
    match text_of(shelf, path.as_str(), name, stamp) {
        Ok(text) => {
            see(shelf, name, stamp, sources)?;
            let place = Vec::from_slice(shelf.alloc, shelf.request.folder(folder).as_bytes())?;
            add_source(screen, path.as_str(), name.as_bytes(), place, text, sources)
        }
        Err(e) => tell_unread(shelf.alloc, screen, path.as_str(), e, sources),
    }
}

// The bytes of a file, at most one more than a library takes; those that were read before if the file is unchanged on the disk.
fn text_of<D: Disk>(
    shelf: &Shelf<'_, D>,
    path: &str,
    name: &str,
    stamp: Option<Stamp>,
) -> io::Result<Vec<u8>> {
    if let Some(text) = text_before(shelf.before, name, stamp) {
        return Ok(Vec::from_slice(shelf.alloc, text)?);
    }
    shelf.disk.read(shelf.alloc, path, MAX_TEXT as u64 + 1)
}

// The source that was read before, if the stamp is the same, and the file was old then.
fn text_before<'a>(before: &'a Sources, name: &str, stamp: Option<Stamp>) -> Option<&'a [u8]> {
    let seen = before.seen.get(name)?;
    if seen.is_old && stamp == Some(seen.stamp) {
        before.texts.get(name.as_bytes())
    } else {
        None
    }
}

// Keeps the stamp of a file.
fn see<D: Disk>(
    shelf: &Shelf<'_, D>,
    name: &str,
    stamp: Option<Stamp>,
    sources: &mut Sources,
) -> Result<(), Failure> {
    let Some(stamp) = stamp else {
        return Ok(());
    };
    let is_old = stamp.changed.saturating_add(OLD) <= shelf.moment;
    let name = String::from_str(shelf.alloc, name)?;
    let _before = sources.seen.insert(name, Seen { stamp, is_old })?;
    Ok(())
}

// Adds a source. If a library can't take it, that is printed, the file is left out, and the sources aren't whole.
fn add_source<O: Sink, E: Sink>(
    screen: &mut Screen<O, E>,
    path: &str,
    name: &[u8],
    place: Vec<u8>,
    text: Vec<u8>,
    sources: &mut Sources,
) -> Result<(), Failure>
    ensures added { OnOk result (IsTrue sources.new.are_whole → sources.new ≡ record sources.old { texts = with_file sources.old.texts name.now text.items; folders = with_file sources.old.folders name.now place.items }) }
    ensures left_out { IsSome (put_refusal sources.old.texts name.now (length text.items)) → OnOk result (sources.new ≡ record sources.old { are_whole = false }) }
{
    if let Err(refusal) = sources.texts.put(name, text) {
        return tell_refused(screen, path, refusal, sources);
    }
    if let Err(refusal) = sources.folders.put(name, place) {
        return tell_refused(screen, path, refusal, sources);
    }
    Ok(())
}

// Reports why a library can't take a file.
fn tell_refused<O: Sink, E: Sink>(
    screen: &mut Screen<O, E>,
    path: &str,
    refusal: Refusal,
    sources: &mut Sources,
) -> Result<(), Failure>
    ensures { OnOk result (sources.new ≡ record sources.old { are_whole = false }) }
{
    let why = match refusal {
        Refusal::TextTooLong => b"it has more than 1048576 bytes".as_slice(),
        Refusal::TooManyFiles => b"there are more than 4096 sources".as_slice(),
        _ => return Err(Failure::Memory),
    };
    let was_whole = sources.are_whole;
    sources.are_whole = false;
    if !was_whole && matches!(refusal, Refusal::TooManyFiles) {
        return Ok(());
    }
    screen.tell_line(&[b"error: ", path.as_bytes(), b" can't be taken: ", why])
}

// Reports that something that isn't a file is left out.
fn tell_no_file<O: Sink, E: Sink>(
    screen: &mut Screen<O, E>,
    told: &mut Told,
    path: String,
) -> Result<(), Failure> {
    let shown = path.clone()?;
    if !told.is_new(path)? {
        return Ok(());
    }
    screen.tell_line(&[
        b"warning: ",
        shown.as_bytes(),
        b" is left out: it isn't a file",
    ])
}

// Reports that a file can't be read.
fn tell_unread<O: Sink, E: Sink>(
    alloc: Global,
    screen: &mut Screen<O, E>,
    path: &str,
    error: io::Error,
    sources: &mut Sources,
) -> Result<(), Failure>
    ensures { sources.new ≡ record sources.old { are_whole = false } }
{
    sources.are_whole = false;
    let why = format!(in alloc; "{error}")?;
    screen.tell_line(&[
        b"error: ",
        path.as_bytes(),
        b" can't be read: ",
        why.as_bytes(),
    ])
}
