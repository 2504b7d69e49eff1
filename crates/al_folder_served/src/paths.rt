// Paths of files in folders.
use std::alloc::{AllocError, Global};

/// The folder that a word names, without doubled separators, separators at its end and steps `.`.
///
/// # Errors
///
/// `AllocError` if memory runs out.
pub fn folder_path(alloc: Global, word: &str) -> Result<String, AllocError> {
    let mut path = String::new(alloc);
    if word.starts_with('/') {
        path.push_str("/")?;
    }
    for step in word.split('/') {
        if !step.is_empty() && step != "." {
            add_step(&mut path, step)?;
        }
    }
    if path.is_empty() {
        path.push_str(".")?;
    }
    Ok(path)
}

fn add_step(path: &mut String, step: &str) -> Result<(), AllocError> {
    if !path.is_empty() && !path.ends_with('/') {
        path.push_str("/")?;
    }
    path.push_str(step)
}

/// The path of a name in a folder; only the name if that is the current folder.
///
/// # Errors
///
/// `AllocError` if memory runs out.
pub fn path_of(alloc: Global, folder: &str, name: &str) -> Result<String, AllocError> {
    let mut path = String::new(alloc);
    if folder != "." {
        path.push_str(folder)?;
    }
    add_step(&mut path, name)?;
    Ok(path)
}
