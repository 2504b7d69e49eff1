// URIs of files.
ghost use Rattle.std.specs.Prelude.{◌≡◌, IfOk, string_bytes, option_map};
ghost use Rattle.al_lsp.specs.Uris.{path_in, uri_text};

use al_base::NoMemory;
use percent_encoding::{AsciiSet, CONTROLS, ascii_set, percent_decode, percent_encode};
use std::alloc::Global;

// What is escaped in a path, beside bytes that aren't ASCII.
const ESCAPED: AsciiSet = ascii_set!(
    CONTROLS
        .add(b' ')
        .add(b'"')
        .add(b'#')
        .add(b'%')
        .add(b'<')
        .add(b'>')
        .add(b'?')
        .add(b'[')
        .add(b'\\')
        .add(b']')
        .add(b'^')
        .add(b'`')
        .add(b'{')
        .add(b'|')
        .add(b'}')
);

/// The path that a URI of a file names; none where it is a URI of something else.
///
/// # Errors
///
/// `NoMemory` where memory was wanted and not given.
pub fn path_of(alloc: Global, uri: &[u8]) -> Result<Option<Vec<u8>>, NoMemory>
    ensures { IfOk result (λ path. option_map (λ p. p.items) path ≡ path_in uri.now) }
{
    if uri.len() < 7 || &uri[..7] != b"file://".as_slice() {
        return Ok(None);
    }
    let mut path = Vec::new(alloc);
    percent_decode(&uri[7..]).append_to(&mut path)?;
    Ok(Some(path))
}

/// The URI of the file of a path.
///
/// # Errors
///
/// `NoMemory` where memory was wanted and not given.
pub fn uri_of(alloc: Global, path: &[u8]) -> Result<String, NoMemory>
    ensures { IfOk result (λ uri. string_bytes uri ≡ uri_text ESCAPED path.now) }
{
    let mut uri = String::from_str(alloc, "file://")?;
    percent_encode(path, ESCAPED).append_to(&mut uri)?;
    Ok(uri)
}
