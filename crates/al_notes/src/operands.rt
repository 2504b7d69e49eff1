// Operators whose operands don't fit, and attributes that there aren't.
use crate::names::{head_of, kind_of_name};
use crate::note;
use crate::said::{Said, say_outside};
use crate::types::{Kind, depth_behind, is_boolean_operator, is_no_integer};
use crate::view::View;
use crate::words::{is_one_of, is_same};
use al_sketch::{LexemeKind, Sketch};

/// Says of the first operator from a lexeme to the one before that of which types its operands are, where these don't fit: outside the
/// parentheses of calls, or inside them.
pub fn check_operands(view: &View<'_>, from: usize, to: usize, is_inside: bool, said: &mut Said) {
    let mut left = Kind::Unknown;
    let mut operator: Option<usize> = None;
    let mut at = from;
    for _lexeme in from..to {
        if at >= to || !said.is_empty() {
            break;
        }
        if let Some((right, end)) = operand_at(view, at, is_inside, said) {
            if let Some(index) = operator {
                tell_operator(view, index, left, right, said);
            }
            left = right;
            operator = None;
            at = end.max(at.saturating_add(1));
            continue;
        }
        let word = view.sketch.word(at);
        if is_one_of(word, "+ - * / & = /= < <= > >= mod rem") {
            operator = Some(at);
        } else if !is_same(word, b"(") {
            left = Kind::Unknown;
            operator = None;
        }
        at = at.saturating_add(1);
    }
}

/// Says of an aggregate from a lexeme to the one before that, that it isn't allowed there.
pub fn check_aggregates(view: &View<'_>, from: usize, to: usize, said: &mut Said) {
    for index in from..to {
        if said.is_empty() && is_misplaced_aggregate(view.sketch, index) {
            say_outside(
                b"an aggregate inside another one, as an operand, an argument or a result",
                said,
            );
            note!(said; b"instead: assign it alone, or qualify it: T'(1, 2)");
        }
    }
}

// Whether an aggregate that isn't allowed opens at a lexeme.
fn is_misplaced_aggregate(sketch: &Sketch, open: usize) -> bool {
    let before = open.saturating_sub(1);
    let is_allowed = is_one_of(sketch.word(before), ":= ' ) range array")
        || sketch.is_identifier(before)
        || sketch.kind(before) == Some(LexemeKind::Text);
    if !sketch.is(open, b"(") || open == 0 || is_allowed {
        return false;
    }
    let mut depth = 0usize;
    for index in open..sketch.closing(open) {
        let word = sketch.word(index);
        depth = depth_behind(word, depth);
        if depth == 1 && is_one_of(word, ", others") {
            return true;
        }
    }
    false
}

// The operand that begins at a lexeme, and the lexeme behind it.
fn operand_at<'a>(
    view: &View<'a>,
    at: usize,
    is_inside: bool,
    said: &mut Said,
) -> Option<(Kind<'a>, usize)> {
    let behind = at.saturating_add(1);
    match view.sketch.kind(at) {
        Some(LexemeKind::Number) => Some((Kind::Universal, behind)),
        Some(LexemeKind::Text) => Some((Kind::Text, behind)),
        Some(LexemeKind::Identifier) => {
            let (kind, end) = kind_of_name(view, at);
            check_attributes(view, at, end, said);
            let (_some, head) = head_of(view, at);
            if is_inside && view.sketch.is(head, b"(") {
                return Some((Kind::Unknown, head));
            }
            Some((kind, end))
        }
        _ => None,
    }
}

fn tell_operator<'a>(
    view: &View<'a>,
    index: usize,
    left: Kind<'a>,
    right: Kind<'a>,
    said: &mut Said,
) {
    let word = view.sketch.word(index);
    if is_same(word, b"&") {
        return tell_joined(left, right, said);
    }
    if is_time(&left) || is_time(&right) {
        return tell_time(word, said);
    }
    let is_text = matches!(left, Kind::Text) || matches!(right, Kind::Text);
    if is_text && is_same(word, b"+") {
        return note!(said; b"strings are joined by &");
    }
    if left.differs(&right) {
        return note!(said; b"the operands of ", word, b" are of ", left.name(), b" and ", right.name());
    }
    let is_arithmetic = !is_boolean_operator(word);
    if let Kind::Of(found) = right {
        if is_arithmetic && is_no_integer(found) {
            return note!(said; b"there is no ", word, b" for ", found.name());
        }
    }
}

// Says which operator the types of Ada.Real_Time have.
fn tell_time(word: &[u8], said: &mut Said) {
    if is_same(word, b"+") {
        return;
    }
    note!(said; b"the types of Ada.Real_Time have no ", word, b" here: their one operator is Time + Time_Span")
}

// Whether a type is one of Ada.Real_Time's.
fn is_time(kind: &Kind<'_>) -> bool {
    match kind {
        Kind::Of(found) => is_same(found.file, b"ada.real_time"),
        _ => false,
    }
}

fn tell_joined(left: Kind<'_>, right: Kind<'_>, said: &mut Said) {
    for kind in [left, right] {
        if let Kind::Of(found) = kind {
            let name = found.name();
            return note!(said; b"& joins strings, and an operand is of ", name, b": ", name, b"'Image (..)");
        }
    }
}

/// Says of an attribute that there isn't.
pub fn check_attributes(view: &View<'_>, from: usize, to: usize, said: &mut Said) {
    for index in from..to {
        let name = index.saturating_add(1);
        if view.sketch.is(index, b"'") && view.sketch.is_identifier(name) {
            let word = view.sketch.word(name);
            if !is_one_of(word, ATTRIBUTES) && said.is_empty() {
                note!(said; b"the attribute ", word, b" isn't in this subset of Ada (docs/language.md#what-there-is)");
                note!(said; b"the attributes are First, Last, Length, Range, Image, Pos, Val, Succ and Pred");
            }
        }
    }
}

const ATTRIBUTES: &str = "first last length range image pos val succ pred";
