// Which files documents are.
ghost use Rattle.std.specs.Prelude.{◌<◌, IfSome, length};

use al_base::{NoMemory, is_file_name};
use al_lsp::path_of;
use std::alloc::Global;

// Where the last slash of a path is.
fn last_slash(path: &[u8]) -> Option<usize>
    ensures { IfSome result (λ i. i < length path.now) }
{
    let mut found = None;
    for (i, byte) in path.iter().enumerate() {
        if *byte == b'/' {
            found = Some(i);
        }
    }
    found
}

/// The path of a folder without the slash at its end.
pub fn without_slash(path: &[u8]) -> &[u8] {
    match path {
        [rest @ .., b'/'] if !rest.is_empty() => rest,
        _ => path,
    }
}

fn has_folder(folders: &[String], path: &[u8]) -> bool {
    for folder in folders {
        if folder.as_bytes() == path {
            return true;
        }
    }
    false
}

/// The name of the file that a URI names, where it is in one of the folders and a source may have that name.
///
/// # Errors
///
/// `NoMemory` where memory was wanted and not given.
pub fn name_in(alloc: Global, folders: &[String], uri: &str) -> Result<Option<Vec<u8>>, NoMemory> {
    let Some(path) = path_of(alloc, uri.as_bytes())? else {
        return Ok(None);
    };
    let Some(slash) = last_slash(path.as_slice()) else {
        return Ok(None);
    };
    let (folder, name) = path.as_slice().split_at(slash + 1);
    if !is_file_name(name) || !has_folder(folders, without_slash(folder)) {
        return Ok(None);
    }
    Ok(Some(Vec::from_slice(alloc, name)?))
}
