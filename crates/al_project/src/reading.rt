// Reading a project file.
use crate::parts::Parts;
use crate::project::{Ignored, Project, ProjectError, ProjectFault};
use al_base::ReservedWord;
use al_lex::{Delimiter, Kind, LexError, end_place, lex};
use std::alloc::Global;

/// What a project file says, whose bytes these are.
///
/// # Errors
///
/// `Fault` if it has another form, with the place; `NoMemory` if memory runs out.
pub fn read_project(alloc: Global, text: &[u8]) -> Result<Project, ProjectError> {
    if text.len() > 1_048_576 {
        return Err(ProjectError::Fault(ProjectFault {
            place: al_base::Place { line: 1, col: 1 },
            message: "a project file has at most 1048576 bytes",
        }));
    }
    let tokens = match lex(alloc, text) {
        Ok(tokens) => tokens,
        Err(LexError::NoMemory) => return Err(ProjectError::NoMemory),
        Err(LexError::Fault(fault)) => {
            return Err(ProjectError::Fault(ProjectFault {
                place: fault.place,
                message: "this isn't a lexeme",
            }));
        }
    };
    let mut parts = Parts {
        alloc,
        text,
        tokens: tokens.as_slice(),
        next: 0,
        end: end_place(text),
    };
    read_parts(&mut parts)
}

// project NAME is .. end NAME;
fn read_parts(parts: &mut Parts<'_>) -> Result<Project, ProjectError> {
    let mut project = Project::new(parts.alloc);
    read_head(parts)?;
    for _part in 0..u64::MAX {
        if parts.has_word(ReservedWord::End) {
            return read_end(parts, project);
        }
        read_part(parts, &mut project)?;
    }
    Ok(project)
}

fn read_head(parts: &mut Parts<'_>) -> Result<(), ProjectError> {
    let word = parts.name("expected the word project: other projects aren't read")?;
    if !word.eq_ignore_ascii_case(b"project") {
        parts.next = 0;
        return parts.fault(
            "expected the word project: a library, an aggregate or an abstract project isn't read",
        );
    }
    read_dotted(parts)?;
    if parts.has_word(ReservedWord::Is) {
        Ok(())
    } else {
        parts.fault("expected the word is")
    }
}

fn read_dotted(parts: &mut Parts<'_>) -> Result<(), ProjectError> {
    let _first = parts.name("expected the project's name")?;
    for _step in 0..u64::MAX {
        if !parts.has(Delimiter::Dot) {
            break;
        }
        let _next = parts.name("expected the project's name")?;
    }
    Ok(())
}

// NAME; and nothing after it
fn read_end(parts: &mut Parts<'_>, project: Project) -> Result<Project, ProjectError> {
    read_dotted(parts)?;
    if !parts.has(Delimiter::Semicolon) {
        return parts.fault("expected a semicolon");
    }
    if parts.peek().is_some() {
        return parts.fault("expected nothing after the end of the project");
    }
    Ok(project)
}

// An attribute, or something that is ignored.
fn read_part(parts: &mut Parts<'_>, project: &mut Project) -> Result<(), ProjectError> {
    if parts.has_word(ReservedWord::For) {
        return read_attribute(parts, project);
    }
    if parts.has_word(ReservedWord::Package) {
        return skip_package(parts, project);
    }
    parts.fault("expected for, package or end")
}

fn ignore(parts: &Parts<'_>, project: &mut Project, name: &[u8]) -> Result<(), ProjectError> {
    let name = Vec::from_slice(parts.alloc, name)?;
    let place = parts.place();
    project.ignored.push(Ignored { place, name })?;
    Ok(())
}

// NAME use VALUE;
fn read_attribute(parts: &mut Parts<'_>, project: &mut Project) -> Result<(), ProjectError> {
    let before = parts.next;
    let name = parts.name("expected the name of an attribute")?;
    let is_dirs = name.eq_ignore_ascii_case(b"source_dirs");
    let is_excluded = name.eq_ignore_ascii_case(b"excluded_source_files");
    if !is_dirs && !is_excluded && !name.eq_ignore_ascii_case(b"main") {
        parts.next = before;
        ignore(parts, project, name)?;
        return skip_to_semicolon(parts);
    }
    if !parts.has_word(ReservedWord::Use) {
        return parts.fault("expected the word use");
    }
    let strings = read_strings(parts)?;
    if is_dirs {
        project.source_dirs = Some(strings);
    } else if is_excluded {
        project.excluded = strings;
    } else {
        project.mains = strings;
    }
    Ok(())
}

// ("..", "..");
fn read_strings(parts: &mut Parts<'_>) -> Result<Vec<Vec<u8>>, ProjectError> {
    let mut strings = Vec::new(parts.alloc);
    if !parts.has(Delimiter::LeftParenthesis) {
        return parts.fault("expected a list of literal strings in parentheses");
    }
    if !parts.has(Delimiter::RightParenthesis) {
        for _string in 0..u64::MAX {
            strings.push(read_string(parts)?)?;
            if parts.has(Delimiter::RightParenthesis) {
                break;
            }
            if !parts.has(Delimiter::Comma) {
                return parts.fault("expected a comma or a parenthesis");
            }
        }
    }
    if parts.has(Delimiter::Semicolon) {
        Ok(strings)
    } else {
        parts.fault("expected a semicolon")
    }
}

// The value of a literal string.
fn read_string(parts: &mut Parts<'_>) -> Result<Vec<u8>, ProjectError> {
    let Some(token) = parts.peek() else {
        return parts.fault("expected a literal string");
    };
    if !matches!(token.kind, Kind::Str) {
        return parts.fault("expected a literal string");
    }
    let _taken = parts.take();
    let mut value = Vec::new(parts.alloc);
    let mut was_quote = false;
    for byte in parts.spelling(token).iter().skip(1) {
        if *byte == b'"' && !was_quote {
            was_quote = true;
        } else {
            value.push(*byte)?;
            was_quote = false;
        }
    }
    Ok(value)
}

// package NAME is .. end NAME;
fn skip_package(parts: &mut Parts<'_>, project: &mut Project) -> Result<(), ProjectError> {
    let before = parts.next;
    let name = parts.name("expected the name of a package")?;
    parts.next = before;
    ignore(parts, project, name)?;
    for _lexeme in 0..u64::MAX {
        if parts.has_word(ReservedWord::End) {
            return skip_to_semicolon(parts);
        }
        if parts.has_word(ReservedWord::Renames) {
            return skip_to_semicolon(parts);
        }
        if parts.take().is_none() {
            break;
        }
    }
    parts.fault("expected the end of the package")
}

fn skip_to_semicolon(parts: &mut Parts<'_>) -> Result<(), ProjectError> {
    for _lexeme in 0..u64::MAX {
        if parts.has(Delimiter::Semicolon) {
            return Ok(());
        }
        if parts.take().is_none() {
            break;
        }
    }
    parts.fault("expected a semicolon")
}
