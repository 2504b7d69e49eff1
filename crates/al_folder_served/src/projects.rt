// What a project file adds to a request.
use crate::disk::Disk;
use crate::failure::Failure;
use crate::paths::{folder_path, path_of};
use crate::request::Request;
use crate::screen::Screen;
use al_base::{Name, Place};
use al_folder::{line_at, unit_of};
use al_project::{Project, ProjectError, read_project};
use al_session_stream::Sink;
use std::alloc::Global;

// The largest number of bytes that are read of a project file.
const MOST: u64 = 1_048_577;

// The largest number of folders of a project.
const MOST_FOLDERS: usize = 4096;

/// Adds the folders, the main units and the excluded files of a project file. Gives whether it could be used; if not, the cause was printed.
///
/// # Errors
///
/// A [`Failure`] if an output can't be written or memory runs out.
pub fn take_project<D: Disk, O: Sink, E: Sink>(
    alloc: Global,
    disk: &D,
    screen: &mut Screen<O, E>,
    file: &str,
    request: &mut Request<'_>,
) -> Result<bool, Failure> {
    let text = match disk.read(alloc, file, MOST) {
        Ok(text) => text,
        Err(e) => {
            let why = format!(in alloc; "{e}")?;
            screen.tell_line(&[
                b"error: ",
                file.as_bytes(),
                b" can't be read: ",
                why.as_bytes(),
            ])?;
            return Ok(false);
        }
    };
    match read_project(alloc, text.as_slice()) {
        Ok(project) => use_project(alloc, disk, screen, file, project, request),
        Err(ProjectError::NoMemory) => Err(Failure::Memory),
        Err(ProjectError::Fault(fault)) => {
            tell_fault_at(alloc, screen, file, fault.place, fault.message.as_bytes())?;
            show_line(screen, fault.place, text.as_slice())?;
            Ok(false)
        }
    }
}

// Adds what a project says.
fn use_project<D: Disk, O: Sink, E: Sink>(
    alloc: Global,
    disk: &D,
    screen: &mut Screen<O, E>,
    file: &str,
    project: Project,
    request: &mut Request<'_>,
) -> Result<bool, Failure> {
    for one in project.ignored.iter() {
        let name = one.name.as_slice();
        tell_passed_over(alloc, screen, file, one.place, name)?;
    }
    for name in project.excluded.iter() {
        request
            .excluded
            .push(Name::from_slice(alloc, name.as_slice())?)?;
    }
    if request.units.is_empty() && !add_mains(alloc, screen, file, &project, request)? {
        return Ok(false);
    }
    let base = folder_of(file);
    match project.source_dirs.as_ref() {
        None => {
            request.folders.push(folder_path(alloc, base)?)?;
            Ok(true)
        }
        Some(dirs) => {
            for dir in dirs.iter() {
                let dir = String::from_utf8_lossy(alloc, dir.as_slice())?;
                add_dir(alloc, disk, base, dir.as_str(), request)?;
            }
            Ok(true)
        }
    }
}

// The folder that a file is in.
fn folder_of(file: &str) -> &str {
    match file.rsplit_once('/') {
        Some((folder, _)) if folder.is_empty() => "/",
        Some((folder, _)) => folder,
        None => ".",
    }
}

// Adds the main units of a project. Gives whether there is one and each is a unit's name; if not, that was printed.
fn add_mains<O: Sink, E: Sink>(
    alloc: Global,
    screen: &mut Screen<O, E>,
    file: &str,
    project: &Project,
    request: &mut Request<'_>,
) -> Result<bool, Failure> {
    for main in project.mains.iter() {
        match unit_of(alloc, main.as_slice())? {
            Some(unit) => request.units.push(unit)?,
            None => {
                let main = main.as_slice();
                tell_no_unit(screen, file, main)?;
                return Ok(false);
            }
        }
    }
    if request.units.len() > 1 && (request.image.is_some() || request.watch) {
        screen.tell_line(&[
            b"error: --image FILE and --watch take one UNIT, and ",
            file.as_bytes(),
            b" names more",
        ])?;
        return Ok(false);
    }
    if request.units.is_empty() {
        screen.tell_line(&[
            b"error: ",
            file.as_bytes(),
            b" names no Main, and there is no UNIT",
        ])?;
        return Ok(false);
    }
    Ok(true)
}

fn tell_no_unit<O: Sink, E: Sink>(
    screen: &mut Screen<O, E>,
    file: &str,
    main: &[u8],
) -> Result<(), Failure> {
    screen.tell_line(&[
        b"error: ",
        file.as_bytes(),
        b": the main ",
        main,
        b" isn't the name of a unit",
    ])
}

// Adds a folder of a project, and those below it if it ends with two stars.
fn add_dir<D: Disk>(
    alloc: Global,
    disk: &D,
    base: &str,
    dir: &str,
    request: &mut Request<'_>,
) -> Result<(), Failure> {
    let (dir, is_deep) = match dir.strip_suffix("**") {
        Some(front) => (front, true),
        None => (dir, false),
    };
    let path = if dir.starts_with('/') {
        folder_path(alloc, dir)?
    } else {
        let joined = path_of(alloc, base, dir)?;
        folder_path(alloc, joined.as_str())?
    };
    if !is_deep {
        request.folders.push(path)?;
        return Ok(());
    }
    let mut queue = Vec::new(alloc);
    queue.push(path)?;
    for _folder in 0..MOST_FOLDERS {
        let Some(folder) = queue.pop() else {
            break;
        };
        add_below(alloc, disk, folder.as_str(), &mut queue)?;
        request.folders.push(folder)?;
    }
    Ok(())
}

// Adds the folders in a folder.
fn add_below<D: Disk>(
    alloc: Global,
    disk: &D,
    folder: &str,
    queue: &mut Vec<String>,
) -> Result<(), Failure> {
    let Ok(listing) = disk.list(alloc, folder, true) else {
        return Ok(());
    };
    for name in listing.others.iter().rev() {
        queue.push(path_of(alloc, folder, name.as_str())?)?;
    }
    Ok(())
}

fn tell_fault_at<O: Sink, E: Sink>(
    alloc: Global,
    screen: &mut Screen<O, E>,
    file: &str,
    place: Place,
    message: &[u8],
) -> Result<(), Failure> {
    let line = place.line;
    let col = place.col;
    let at = format!(in alloc; ":{line}:{col}: error: ")?;
    screen.tell_line(&[file.as_bytes(), at.as_bytes(), message])
}

fn tell_passed_over<O: Sink, E: Sink>(
    alloc: Global,
    screen: &mut Screen<O, E>,
    file: &str,
    place: Place,
    name: &[u8],
) -> Result<(), Failure> {
    let line = place.line;
    let col = place.col;
    let at = format!(in alloc; ":{line}:{col}: warning: ")?;
    screen.tell_line(&[file.as_bytes(), at.as_bytes(), name, b" is ignored"])
}

// Prints the line with a caret under the place.
fn show_line<O: Sink, E: Sink>(
    screen: &mut Screen<O, E>,
    place: Place,
    text: &[u8],
) -> Result<(), Failure> {
    let line = line_at(place.line, text);
    screen.begin();
    screen
        .error
        .say_excerpt(place.col.saturating_sub(1) as usize, line);
    screen.end()
}
