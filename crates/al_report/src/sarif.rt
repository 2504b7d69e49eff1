// One document of SARIF 2.1.0.
use crate::noted::Noted;
use crate::writing::{Json, words_of};
use al_base::Files;
use std::alloc::{AllocError, Global};

/// What stands before the results.
const HEAD: &str =
    "{\"$schema\":\"https://json.schemastore.org/sarif-2.1.0.json\",\"runs\":[{\"columnKind\":\"utf16CodeUnits\",\"results\":[";

/// What stands before the place of a result.
const LOCATION: &str =
    "{\"level\":\"error\",\"locations\":[{\"physicalLocation\":{\"artifactLocation\":{\"uri\":\"";

/// The document of these diagnostics.
///
/// # Errors
///
/// If out of memory.
pub fn sarif_text(
    alloc: Global,
    folders: &Files,
    texts: &Files,
    told: &[Noted<'_>],
) -> Result<String, AllocError> {
    let mut json = Json::new(alloc);
    json.add(HEAD);
    for (number, noted) in told.iter().enumerate() {
        json.add(if number == 0 { "" } else { "," });
        add_result(folders, texts, noted, &mut json);
    }
    json.add("],\"tool\":{\"driver\":{\"name\":\"adabuild\",\"rules\":[");
    add_rules(told, &mut json);
    json.add("]}}}],\"version\":\"2.1.0\"}");
    json.into_text()
}

fn add_result(folders: &Files, texts: &Files, noted: &Noted<'_>, json: &mut Json) {
    let diagnostic = noted.diagnostic;
    json.add_uri(LOCATION, folders, diagnostic.file.as_slice());
    json.add_end_col("\"},\"region\":{\"endColumn\":", texts, noted);
    json.add_number(",\"startColumn\":", diagnostic.place.col as usize);
    json.add_number(",\"startLine\":", diagnostic.place.line as usize);
    json.add_text("}}}],\"message\":{\"text\":\"", words_of(diagnostic.code));
    for note in noted.notes.iter() {
        json.add_text("\\n", note.as_slice());
    }
    json.add_code("\"},\"ruleId\":\"", diagnostic.code);
    json.add("\"}");
}

// Adds the rules of the codes that occur, each once.
fn add_rules(told: &[Noted<'_>], json: &mut Json) {
    for (number, noted) in told.iter().enumerate() {
        let code = noted.diagnostic.code;
        if number == first_with(told, code) {
            json.add(if number == 0 { "" } else { "," });
            add_rule(code, json);
        }
    }
}

// The number of the first diagnostic with a code.
fn first_with(told: &[Noted<'_>], code: u16) -> usize {
    for (number, noted) in told.iter().enumerate() {
        if noted.diagnostic.code == code {
            return number;
        }
    }
    told.len()
}

fn add_rule(code: u16, json: &mut Json) {
    json.add_code("{\"help\":{\"text\":\"adabuild --explain ", code);
    json.add_code("\"},\"id\":\"", code);
    json.add_text("\",\"shortDescription\":{\"text\":\"", words_of(code));
    json.add("\"}}");
}
