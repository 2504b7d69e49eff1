// E001 to E006: lexemes that are none.
use crate::note;
use crate::said::{Said, say_outside};
use crate::view::View;
use crate::words::entry_for;
use al_sketch::LexemeKind;
use al_subset::Construct;

/// What is wrong with the lexeme.
pub fn lexical(view: &View<'_>, code: u16, said: &mut Said) {
    match code {
        1 => illegal_character(view, said),
        2 => note!(said; b"underscores are between letters or digits, one at a time (ARM 2.3)"),
        3 => bad_number(view, said),
        4 => note!(said; b"the largest number is 9223372036854775807, 2 ** 63 - 1"),
        5 => bad_string(view, said),
        _ => too_long(view, said),
    }
}

fn illegal_character(view: &View<'_>, said: &mut Said) {
    let first = view.word().get(..1).unwrap_or(&[]);
    if let Some(told) = entry_for(CHARACTERS, first) {
        return note!(said; told.as_bytes());
    }
    match first {
        [0x80..=0xff] =>
            note!(said; b"letters are those of ASCII: others aren't in this subset of Ada, but in comments"),
        [0x1a] => note!(said; b"here is a Ctrl-Z: a source ends with its last line"),
        _ => note!(said; b"no lexeme of Ada begins with this character (ARM 2.1)"),
    }
}

/// What is written for characters that begin no lexeme.
const CHARACTERS: &str = "[ ]|an index is in parentheses, as A (I)
{ }|Ada has no braces: statements are between begin and end
!|not equal is /=, and not is a word
%|the remainder is mod or rem
@|the target name @ isn't in this subset of Ada: write the name out
_|an identifier begins with a letter
?|a condition is tested by an if statement
\\|strings have no escapes: a quote is written twice
#|a based number is written 16#FF#
^|a power is written **, and exclusive or is xor
~|a complement is written not, of a Boolean
";

fn bad_number(view: &View<'_>, said: &mut Said) {
    let word = view.word();
    if word.contains(&b'#') {
        return note!(said; b"a based number is BASE#DIGITS#, with a base from 2 to 16 and digits below it (ARM 2.4.2)");
    }
    if word.contains(&b'.') {
        let is_delay = view.sketch.is(view.at.saturating_sub(1), b"delay");
        return say_construct(
            view,
            if is_delay {
                "relative-delays"
            } else {
                "real-literals"
            },
            said,
        );
    }
    if let [b'0', b'x' | b'X', rest @ ..] = word {
        return note!(said; word, b" is written 16#", rest, b"#");
    }
    note!(said; b"a number is digits, with single underscores between them; a blank separates it from a word (ARM 2.4)")
}

// Says that a construct isn't in the subset, and what is written instead.
fn say_construct(view: &View<'_>, key: &str, said: &mut Said) {
    if let Some(construct) = view.subset.construct(key) {
        tell_construct(&construct, said);
    }
}

/// Says that a construct isn't in the subset, and what is written instead.
pub fn tell_construct(construct: &Construct, said: &mut Said) {
    say_outside(construct.name.as_bytes(), said);
    note!(said; b"instead: ", construct.instead.as_bytes())
}

fn bad_string(view: &View<'_>, said: &mut Said) {
    let before = view.at.saturating_sub(1);
    if view.at > 0 && view.sketch.is(before, b"'") {
        return say_construct(view, "character-literals", said);
    }
    if view.sketch.kind(view.at) == Some(LexemeKind::Text) && is_plain(view.word()) {
        return note!(said; b"its closing quote is missing: a string ends on its line, and two are joined by & (ARM 2.6)");
    }
    note!(said; b"a string has the characters from blank to ~; a quote in it is written twice (ARM 2.6)")
}

// Whether a string has only bytes that it may have.
fn is_plain(word: &[u8]) -> bool {
    for byte in word {
        if !matches!(*byte, 32..=126) {
            return false;
        }
    }
    true
}

fn too_long(view: &View<'_>, said: &mut Said) {
    said.add(b"it has ");
    said.add_number(view.word().len());
    note!(said; b" characters, and may have 200")
}
