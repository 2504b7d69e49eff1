// What a client says as it starts.
use crate::locating::without_slash;
use al_base::NoMemory;
use al_lsp::{Counting, path_of};
use al_lsp_messages::params::text_in;
use serde_json::Value;
use std::alloc::Global;

/// What columns count: bytes where the client offers that, else units of UTF-16.
pub fn counting_in(params: &Value) -> Counting {
    let offered = params.pointer("/capabilities/general/positionEncodings");
    let Some(words) = offered.and_then(Value::as_array) else {
        return Counting::Utf16;
    };
    for word in words.as_slice() {
        if word.as_str() == Some("utf-8") {
            return Counting::Utf8;
        }
    }
    Counting::Utf16
}

/// Whether a client can be asked to watch files.
pub fn can_watch(params: &Value) -> bool {
    let path = "/capabilities/workspace/didChangeWatchedFiles/dynamicRegistration";
    let can = params.pointer(path).and_then(Value::as_bool);
    can == Some(true)
}

// Adds the folder of a path.
fn add_path(alloc: Global, folders: &mut Vec<String>, path: &[u8]) -> Result<(), NoMemory> {
    let path = String::from_utf8_lossy(alloc, without_slash(path))?;
    folders.push(path)?;
    Ok(())
}

// Adds the folder of a URI, if it is a file's.
fn add_uri(alloc: Global, folders: &mut Vec<String>, uri: &str) -> Result<(), NoMemory> {
    match path_of(alloc, uri.as_bytes())? {
        Some(path) => add_path(alloc, folders, path.as_slice()),
        None => Ok(()),
    }
}

// The path of a folder that may be seen from another one.
fn joined(alloc: Global, root: Option<&str>, path: &str) -> Result<Vec<u8>, NoMemory> {
    let mut whole = Vec::new(alloc);
    if let Some(uri) = root {
        if !path.starts_with('/') {
            if let Some(folder) = path_of(alloc, uri.as_bytes())? {
                whole.extend_from_slice(without_slash(folder.as_slice()))?;
                whole.push(b'/')?;
            }
        }
    }
    whole.extend_from_slice(path.as_bytes())?;
    Ok(whole)
}

// The folders that options name, seen from the root.
fn add_options(alloc: Global, folders: &mut Vec<String>, params: &Value) -> Result<(), NoMemory> {
    let named = params.pointer("/initializationOptions/folders");
    let Some(named) = named.and_then(Value::as_array) else {
        return Ok(());
    };
    let root = root_of(params);
    for one in named.as_slice() {
        if let Some(path) = one.as_str() {
            let path = joined(alloc, root, path)?;
            add_path(alloc, folders, path.as_slice())?;
        }
    }
    Ok(())
}

// The folders that a client has open.
fn add_workspace(alloc: Global, folders: &mut Vec<String>, params: &Value) -> Result<(), NoMemory> {
    let open = params.get("workspaceFolders").and_then(Value::as_array);
    let Some(open) = open else {
        return Ok(());
    };
    for one in open.as_slice() {
        if let Some(uri) = text_in(one, "uri") {
            add_uri(alloc, folders, uri)?;
        }
    }
    Ok(())
}

// The URI of the folder that a client has open, the first one of several.
fn root_of(params: &Value) -> Option<&str> {
    let first = params.pointer("/workspaceFolders/0/uri");
    match first.and_then(Value::as_str) {
        Some(uri) => Some(uri),
        None => text_in(params, "rootUri"),
    }
}

/// The folders of sources: those that options name, else those that the client has open, else its root; none where nothing is said.
///
/// # Errors
///
/// `NoMemory` where memory was wanted and not given.
pub fn folders_in(alloc: Global, params: &Value) -> Result<Vec<String>, NoMemory> {
    let mut folders = Vec::new(alloc);
    add_options(alloc, &mut folders, params)?;
    if folders.is_empty() {
        add_workspace(alloc, &mut folders, params)?;
    }
    if folders.is_empty() {
        if let Some(uri) = text_in(params, "rootUri") {
            add_uri(alloc, &mut folders, uri)?;
        }
    }
    Ok(folders)
}
