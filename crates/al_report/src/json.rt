// Objects of JSON, one a line.
use crate::noted::Noted;
use crate::writing::{Json, words_of};
use al_base::{Files, UnitKey, file_name_of};
use al_folder::RunEnd;
use al_machine::Exception;
use std::alloc::{AllocError, Global};

/// The object of a diagnostic: `kind`, `file` with its folder, `line`, `col`, `end_col`, `code`, `text`, `notes`.
///
/// # Errors
///
/// If out of memory.
pub fn diagnostic_line(
    alloc: Global,
    folders: &Files,
    texts: &Files,
    noted: &Noted<'_>,
) -> Result<String, AllocError> {
    let mut json = Json::new(alloc);
    add_diagnostic(folders, texts, noted, &mut json);
    json.into_text()
}

fn add_diagnostic(folders: &Files, texts: &Files, noted: &Noted<'_>, json: &mut Json) {
    let diagnostic = noted.diagnostic;
    json.add_code("{\"code\":\"", diagnostic.code);
    json.add_number("\",\"col\":", diagnostic.place.col as usize);
    json.add_end_col(",\"end_col\":", texts, noted);
    json.add_path(",\"file\":\"", folders, diagnostic.file.as_slice());
    json.add_number(
        "\",\"kind\":\"diagnostic\",\"line\":",
        diagnostic.place.line as usize,
    );
    json.add(",\"notes\":[");
    for (number, note) in noted.notes.iter().enumerate() {
        json.add_text(if number == 0 { "\"" } else { ",\"" }, note.as_slice());
        json.add("\"");
    }
    json.add_text("],\"text\":\"", words_of(diagnostic.code));
    json.add("\"}");
}

/// The object of a build: `kind`, `checked` (how many units were checked), `units` (of how many files), `image` (whether there is one), `ms`.
///
/// # Errors
///
/// If out of memory.
pub fn build_line(
    alloc: Global,
    checked: usize,
    units: usize,
    has_image: bool,
    millis: usize,
) -> Result<String, AllocError> {
    let mut json = Json::new(alloc);
    json.add_number("{\"checked\":", checked);
    json.add(if has_image {
        ",\"image\":true"
    } else {
        ",\"image\":false"
    });
    json.add_number(",\"kind\":\"build\",\"ms\":", millis);
    json.add_number(",\"units\":", units);
    json.add("}");
    json.into_text()
}

/// The object of a run's end: `kind`, `outcome`, and of an exception `exception`, `file` and `line` (0 where it isn't known).
///
/// # Errors
///
/// If out of memory.
pub fn end_line(alloc: Global, folders: &Files, end: &RunEnd) -> Result<String, AllocError> {
    let mut json = Json::new(alloc);
    match end {
        RunEnd::Finished => json.add("{\"kind\":\"end\",\"outcome\":\"finished\"}"),
        RunEnd::Idle => json.add("{\"kind\":\"end\",\"outcome\":\"idle\"}"),
        RunEnd::Spent => json.add("{\"kind\":\"end\",\"outcome\":\"spent\"}"),
        RunEnd::Stuck => json.add("{\"kind\":\"end\",\"outcome\":\"stuck\"}"),
        RunEnd::Raised {
            exception,
            unit,
            line,
        } => return raised_line(alloc, folders, *exception, unit, line.unwrap_or(0)),
    }
    json.into_text()
}

fn raised_line(
    alloc: Global,
    folders: &Files,
    exception: Exception,
    unit: &UnitKey,
    line: u32,
) -> Result<String, AllocError> {
    let Ok(name) = file_name_of(alloc, unit) else {
        return Err(AllocError);
    };
    let mut json = Json::new(alloc);
    add_raised(exception, folders, name.as_slice(), line, &mut json);
    json.into_text()
}

fn add_raised(exception: Exception, folders: &Files, file: &[u8], line: u32, json: &mut Json) {
    json.add(match exception {
        Exception::Constraint => "{\"exception\":\"constraint_error",
        Exception::Program => "{\"exception\":\"program_error",
        Exception::Storage => "{\"exception\":\"storage_error",
    });
    json.add_path("\",\"file\":\"", folders, file);
    json.add_number("\",\"kind\":\"end\",\"line\":", line as usize);
    json.add(",\"outcome\":\"raised\"}");
}
