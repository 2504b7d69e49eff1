// The files that a program is made from, and on which others each depends.
use crate::failure::Failure;
use crate::files_needed::{add_needed, body_file};
use crate::paths::path_of;
use crate::request::DependsForm;
use crate::screen::Screen;
use crate::sources::Sources;
use al_base::Name;
use al_session_stream::Sink;
use std::alloc::Global;
use std::collections::{BTreeMap, BTreeSet};

/// The files of a program by name, each with the files of the units that it names.
type Graph = BTreeMap<String, BTreeSet<String>>;

/// Prints the files that the program of a main unit is made from, in this form.
///
/// # Errors
///
/// A [`Failure`] if the output can't be written or memory runs out.
pub fn print_depends<O: Sink, E: Sink>(
    alloc: Global,
    screen: &mut Screen<O, E>,
    unit: &Name,
    sources: &Sources,
    form: DependsForm,
) -> Result<(), Failure> {
    let graph = graph_of(alloc, unit, sources)?;
    let name = String::from_utf8_lossy(alloc, unit.as_slice())?;
    let text = match form {
        DependsForm::Make => make_text(alloc, name.as_str(), sources, &graph)?,
        DependsForm::Dot => dot_text(alloc, name.as_str(), &graph)?,
        DependsForm::Text => plain_text(alloc, &graph)?,
    };
    screen.put(text.as_bytes())
}

// The files that the program of a main unit needs.
fn graph_of(alloc: Global, unit: &Name, sources: &Sources) -> Result<Graph, Failure> {
    let mut graph = BTreeMap::new(alloc);
    let mut queue = Vec::new(alloc);
    queue.push(body_file(alloc, unit.as_slice())?)?;
    for _turn in 0..u64::MAX {
        let Some(name) = queue.pop() else {
            break;
        };
        if graph.contains_key(name.as_str()) {
            continue;
        }
        if let Some(text) = sources.texts.get(name.as_bytes()) {
            let needed = needed_by(alloc, name.as_str(), text, sources)?;
            for file in needed.iter() {
                queue.push(file.clone()?)?;
            }
            let _before = graph.insert(name, needed)?;
        }
    }
    Ok(graph)
}

// The files of the units that a source names, among those that were read.
fn needed_by(
    alloc: Global,
    name: &str,
    text: &[u8],
    sources: &Sources,
) -> Result<BTreeSet<String>, Failure> {
    let mut files = Vec::new(alloc);
    add_needed(alloc, text, &mut files)?;
    let mut needed = BTreeSet::new(alloc);
    for file in files {
        if file.as_str() != name && sources.texts.get(file.as_bytes()).is_some() {
            let _is_new = needed.insert(file)?;
        }
    }
    Ok(needed)
}

// A rule for make: the program, and the paths of all its files.
fn make_text(
    alloc: Global,
    unit: &str,
    sources: &Sources,
    graph: &Graph,
) -> Result<String, Failure> {
    let mut text = String::from_str(alloc, unit)?;
    text.push_str(":")?;
    for name in graph.keys() {
        let folder = match sources.folders.get(name.as_bytes()) {
            Some(folder) => String::from_utf8_lossy(alloc, folder)?,
            None => String::from_str(alloc, ".")?,
        };
        let path = path_of(alloc, folder.as_str(), name.as_str())?;
        text.push_str(" ")?;
        add_escaped(&mut text, path.as_str())?;
    }
    text.push_str("\n")?;
    Ok(text)
}

// Adds a path as make reads it: a backslash before a blank or a sharp, and two dollars for one.
fn add_escaped(text: &mut String, path: &str) -> Result<(), Failure> {
    for c in path.chars() {
        if c == ' ' || c == '#' {
            text.push('\\')?;
        }
        if c == '$' {
            text.push('$')?;
        }
        text.push(c)?;
    }
    Ok(())
}

// The graph in the language of Graphviz.
fn dot_text(alloc: Global, unit: &str, graph: &Graph) -> Result<String, Failure> {
    let mut text = format!(in alloc; "digraph \"{unit}\" {{\n")?;
    for (name, needed) in graph.iter() {
        if needed.is_empty() {
            add_line(&mut text, &["  \"", name.as_str(), "\";\n"])?;
        }
        for file in needed.iter() {
            add_line(
                &mut text,
                &["  \"", name.as_str(), "\" -> \"", file.as_str(), "\";\n"],
            )?;
        }
    }
    text.push_str("}\n")?;
    Ok(text)
}

// A line for each file, followed by the files that it names.
fn plain_text(alloc: Global, graph: &Graph) -> Result<String, Failure> {
    let mut text = String::new(alloc);
    for (name, needed) in graph.iter() {
        text.push_str(name.as_str())?;
        text.push_str(":")?;
        for file in needed.iter() {
            add_line(&mut text, &[" ", file.as_str()])?;
        }
        text.push_str("\n")?;
    }
    Ok(text)
}

fn add_line(text: &mut String, pieces: &[&str]) -> Result<(), Failure> {
    for piece in pieces {
        text.push_str(piece)?;
    }
    Ok(())
}
