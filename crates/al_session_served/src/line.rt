// Command lines.
ghost use Rattle.std.specs.Prelude.{◌≡◌, ◌&&◌, ◌+◌, ◌*◌, ◌^◌, ◌≤◌, ◌<◌, [], ◌∷◌, nat_le, position, ◌==◌, if◌then◌else◌};
ghost use Rattle.std.specs.List.{list_all};
ghost use Rattle.std.specs.Option.{option_map};
ghost use Rattle.al_session_stream.specs.Cuts.{cut_at};
ghost use Rattle.al_session_served.specs.Lines.{is_numeral, number_of, numeral, build_line, report_line, run_line, put_line, by_words, line_of, KindHasFewSteps};
ghost use Rattle.al_session_served.specs.LineSeen.{line_model};

use crate::subject::ReportKind;
use al_base::is_unit_name;

/// A command line.
pub enum Line<'a> {
    /// A put: so many bytes for a file follow.
    Put(&'a [u8], usize),
    /// A put whose length is malformed.
    BadPut,
    /// A command that is one line, or an unknown one.
    Whole(OneLine<'a>),
}

/// A command that is one line.
pub enum OneLine<'a> {
    /// A delete of the file with this name.
    Delete(&'a [u8]),
    /// The old name, and the new one.
    Rename(&'a [u8], &'a [u8]),
    /// The main unit, in any case of its letters.
    Build(&'a [u8]),
    /// A run of at most so many events.
    Run(u64),
    /// A report about the last build.
    Report(ReportKind),
    /// A report about the files and their units.
    ReportUnits,
    /// A report about the units that are obsolete since the last build.
    ReportObsolete,
    /// The end of the session.
    Quit,
    /// No command.
    Bad,
}

/// The greatest length of a line, in bytes.
const LONGEST: usize = 600;

/// Parses a line, without its line end.
#[tactic(auto, unfolding(crate::specs::Lines::line_of))]
pub fn line_of(line: &[u8]) -> Line<'_>
    ensures says { line_model result ≡ line_of line.now }
    ensures few_steps { KindHasFewSteps (line_model result) }
{
    if line.len() > LONGEST {
        return Line::Whole(OneLine::Bad);
    }
    let Some((verb, rest)) = cut_at(line, b' ') else {
        return if line == b"quit".as_slice() {
            Line::Whole(OneLine::Quit)
        } else {
            Line::Whole(OneLine::Bad)
        };
    };
    let Some((first, second)) = cut_at(rest, b' ') else {
        return two_words(verb, rest);
    };
    if cut_at(second, b' ').is_some() {
        return Line::Whole(OneLine::Bad);
    }
    three_words(verb, first, second)
}

fn two_words<'a>(verb: &[u8], object: &'a [u8]) -> Line<'a>
    ensures says { line_model result ≡ by_words (verb.now ∷ object.now ∷ []) }
    ensures few_steps { KindHasFewSteps (line_model result) }
{
    if verb == b"delete".as_slice() && !object.is_empty() {
        return Line::Whole(OneLine::Delete(object));
    }
    if verb == b"build".as_slice() {
        return build_line(object);
    }
    if verb == b"run".as_slice() {
        return run_line(object);
    }
    if verb == b"report".as_slice() {
        return report_line(object);
    }
    Line::Whole(OneLine::Bad)
}

fn build_line(unit: &[u8]) -> Line<'_>
    ensures says { line_model result ≡ build_line unit.now }
    ensures few_steps { KindHasFewSteps (line_model result) }
{
    if is_unit_name(unit) {
        Line::Whole(OneLine::Build(unit))
    } else {
        Line::Whole(OneLine::Bad)
    }
}

fn run_line<'a>(steps: &[u8]) -> Line<'a>
    ensures says { line_model result ≡ run_line (numeral 10 steps.now) }
    ensures few_steps { KindHasFewSteps (line_model result) }
{
    match numeral(steps, 10) {
        Some(steps) if steps <= 1_000_000_000 => Line::Whole(OneLine::Run(steps)),
        Some(_) => Line::Whole(OneLine::Bad),
        None => Line::Whole(OneLine::Bad),
    }
}

fn report_line<'a>(subject: &[u8]) -> Line<'a>
    ensures says { line_model result ≡ report_line subject.now }
    ensures few_steps { KindHasFewSteps (line_model result) }
{
    if subject == b"diagnostics".as_slice() {
        return Line::Whole(OneLine::Report(ReportKind::Diagnostics));
    }
    if subject == b"units".as_slice() {
        return Line::Whole(OneLine::ReportUnits);
    }
    if subject == b"obsolete".as_slice() {
        return Line::Whole(OneLine::ReportObsolete);
    }
    if subject == b"order".as_slice() {
        return Line::Whole(OneLine::Report(ReportKind::Order));
    }
    if subject == b"image".as_slice() {
        return Line::Whole(OneLine::Report(ReportKind::Image));
    }
    Line::Whole(OneLine::Bad)
}

fn three_words<'a>(verb: &[u8], first: &'a [u8], second: &'a [u8]) -> Line<'a>
    ensures says { line_model result ≡ by_words (verb.now ∷ first.now ∷ second.now ∷ []) }
    ensures few_steps { KindHasFewSteps (line_model result) }
{
    if first.is_empty() || second.is_empty() {
        return Line::Whole(OneLine::Bad);
    }
    if verb == b"put".as_slice() {
        return put_line(first, second);
    }
    if verb == b"rename".as_slice() {
        return Line::Whole(OneLine::Rename(first, second));
    }
    Line::Whole(OneLine::Bad)
}

fn put_line<'a>(name: &'a [u8], len: &[u8]) -> Line<'a>
    ensures says { line_model result ≡ put_line name.now (numeral 9 len.now) }
    ensures few_steps { KindHasFewSteps (line_model result) }
{
    match numeral(len, 9) {
        Some(len) => Line::Put(name, len as usize),
        None => Line::BadPut,
    }
}

// The value of a numeral of one to `most` digits.
#[tactic(auto, unfolding(crate::specs::Lines::is_numeral))]
fn numeral(word: &[u8], most: usize) -> Option<u64>
    requires { most ≤ 10 }
    ensures { result ≡ numeral most word.now }
{
    if word.is_empty() || word.len() > most || !are_digits(word) {
        return None;
    }
    let mut number = 0;
    for b in word {
        number = 10 * number + u64::from(*b - b'0');
    }
    Some(number)
}

fn are_digits(word: &[u8]) -> bool
    ensures { result ≡ list_all (λ b. nat_le 48 b && nat_le b 57) word.now }
{
    word.iter().all(|b| (b'0'..=b'9').contains(b))
}

// What precedes the first such byte, and what follows it.
fn cut_at(bytes: &[u8], byte: u8) -> Option<(&[u8], &[u8])>
    ensures { option_map (λ cut. (cut.0.now, cut.1.now)) result ≡ cut_at byte bytes.now }
{
    match place_of(bytes, byte) {
        Some(at) => Some((&bytes[..at], &bytes[at + 1..])),
        None => None,
    }
}

fn place_of(bytes: &[u8], byte: u8) -> Option<usize>
    ensures { result ≡ position (λ b. b == byte) bytes.now }
{
    bytes.iter().position(|b| *b == byte)
}
