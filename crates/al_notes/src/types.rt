// E402: the types of expressions, as far as the sources say.
use crate::calls::{argument_count, check_calls};
use crate::completions::{body_round, what_is};
use crate::names::{is_component_of, kind_of_name, kind_of_one, missing_component, standard};
use crate::operands::{check_aggregates, check_operands};
use crate::said::Said;
use crate::view::{Found, View};
use crate::visible::{Way, first_meant, way_of};
use crate::words::{is_one_of, is_same};
use crate::{add, note};
use al_sketch::{DeclaredKind, LexemeKind, Sketch};

/// Of which type something is.
#[derive(Clone, Copy)]
pub enum Kind<'a> {
    /// The sources don't show it.
    Unknown,
    /// A number, of every integer type.
    Universal,
    /// A string.
    Text,
    /// An object of an array type without a name.
    Array(&'a Found<'a>),
    Of(&'a Found<'a>),
}

impl<'a> Kind<'a> {
    /// The name of the type, as it is written where it is declared.
    pub fn name(&self) -> &'a [u8] {
        match self {
            Kind::Unknown => b"another type",
            Kind::Universal => b"an integer type",
            Kind::Text => b"String",
            Kind::Array(_found) => b"an array type without a name",
            Kind::Of(found) => found.name(),
        }
    }

    /// Whether it is known to be an integer type.
    pub fn is_integer(&self) -> bool {
        match self {
            Kind::Of(found) => found.begins_with(b"range"),
            _ => false,
        }
    }

    /// The type's declaration, if it is known.
    pub fn declaration(&self) -> Option<&'a Found<'a>> {
        match self {
            Kind::Of(found) => Some(found),
            _ => None,
        }
    }

    /// Whether it is known that a value of this type isn't one of that type.
    pub fn differs(&self, other: &Kind<'a>) -> bool {
        match (self, other) {
            (Kind::Unknown, _) | (_, Kind::Unknown) => false,
            (Kind::Of(one), Kind::Of(two)) => {
                !is_same(one.file, two.file) || one.declared.name != two.declared.name
            }
            (Kind::Universal, Kind::Of(found)) | (Kind::Of(found), Kind::Universal) => {
                is_no_integer(found)
            }
            (Kind::Universal, Kind::Universal) | (Kind::Text, Kind::Text) => false,
            _ => true,
        }
    }
}

/// Whether a type is known to be no integer type.
pub fn is_no_integer(found: &Found<'_>) -> bool {
    let first = found.sketch.word(found.declared.name.saturating_add(2));
    is_one_of(first, "( array record null")
}

/// The type that a mark in a source names, through subtypes.
pub fn type_of_mark<'a>(
    view: &View<'a>,
    file: &'a [u8],
    sketch: &'a Sketch,
    mark: (usize, usize),
) -> Option<&'a Found<'a>> {
    let mut found = named_by_mark(view, file, sketch, mark)?;
    for _subtype in 0..16 {
        if found.declared.kind == DeclaredKind::Type {
            return Some(found);
        }
        found = named_by_mark(view, found.file, found.sketch, found.declared.mark)?;
    }
    None
}

/// The type or subtype that a mark names, if it is one alone.
pub fn named_by_mark<'a>(
    view: &View<'a>,
    file: &[u8],
    sketch: &Sketch,
    mark: (usize, usize),
) -> Option<&'a Found<'a>> {
    let last = mark.1.checked_sub(1)?;
    let name = sketch.word(last);
    let unit = if last > mark.0 {
        Some(sketch.words(mark.0, last.saturating_sub(1)))
    } else {
        None
    };
    let mut only = None;
    let mut is_alone = true;
    for found in view.declared {
        if !is_type(found) || !found.is_named(name) {
            continue;
        }
        match unit {
            Some(unit) if found.is_in_unit(unit) => return Some(found),
            None if is_same(found.file, file) => return Some(found),
            None if is_seen(view, found) => {
                is_alone = only.is_none();
                only = Some(found);
            }
            _ => {}
        }
    }
    if is_alone { only } else { None }
}

// Whether a declaration of another file may be meant.
fn is_seen(view: &View<'_>, found: &Found<'_>) -> bool {
    found.sketch.is_outermost(found.declared.scope) && way_of(view, found) != Way::Private
}

fn is_type(found: &Found<'_>) -> bool {
    matches!(
        found.declared.kind,
        DeclaredKind::Type | DeclaredKind::Subtype
    )
}

/// The type of what a declaration declares, or gives back.
pub fn mark_type<'a>(view: &View<'a>, found: &Found<'a>) -> Kind<'a> {
    if found.declared.mark.1 == 0 {
        return Kind::Unknown;
    }
    let named = type_of_mark(view, found.file, found.sketch, found.declared.mark);
    kind_of_type(named)
}

/// The type that was found, if one was.
pub fn kind_of_type<'a>(found: Option<&'a Found<'a>>) -> Kind<'a> {
    match found {
        Some(found) => Kind::Of(found),
        None => Kind::Unknown,
    }
}

/// The type of the expression from a lexeme to the one before that.
pub fn type_of_expression<'a>(view: &View<'a>, from: usize, to: usize) -> Kind<'a> {
    let (from, to) = without_parentheses(view.sketch, from, to);
    let shape = shape_of(view.sketch, from, to);
    match shape {
        Shape::Boolean => standard(view, b"Boolean"),
        Shape::Text => Kind::Text,
        Shape::Aggregate => Kind::Unknown,
        Shape::Operands => type_of_operands(view, from, to),
    }
}

// What an expression is by its outermost operators.
#[derive(Clone, Copy)]
enum Shape {
    Boolean,
    Text,
    Aggregate,
    Operands,
}

fn shape_of(sketch: &Sketch, from: usize, to: usize) -> Shape {
    let mut depth = 0usize;
    let mut is_text = false;
    for index in from..to {
        let word = sketch.word(index);
        depth = depth_behind(word, depth);
        if word.eq_ignore_ascii_case(b"others") || (depth == 0 && is_same(word, b",")) {
            return Shape::Aggregate;
        }
        if depth == 0 && is_boolean_operator(word) {
            return Shape::Boolean;
        }
        if depth == 0 && is_same(word, b"&") {
            is_text = true;
        }
    }
    if is_text {
        Shape::Text
    } else {
        Shape::Operands
    }
}

/// How many parentheses are open behind a lexeme, if so many are before it.
pub fn depth_behind(word: &[u8], depth: usize) -> usize {
    match word {
        b"(" => depth.saturating_add(1),
        b")" => depth.saturating_sub(1),
        _ => depth,
    }
}

/// Whether an operator gives a Boolean.
pub fn is_boolean_operator(word: &[u8]) -> bool {
    is_one_of(word, "= /= < <= > >= in and or xor not")
}

// What is between parentheses that are round all of an expression.
fn without_parentheses(sketch: &Sketch, from: usize, to: usize) -> (usize, usize) {
    let mut from = from;
    let mut to = to;
    for _pair in 0..64 {
        let last = to.saturating_sub(1);
        if !sketch.is(from, b"(") || sketch.closing(from) != last || last <= from {
            break;
        }
        from = from.saturating_add(1);
        to = last;
    }
    (from, to)
}

// The type of the first operand that isn't a mere number.
fn type_of_operands<'a>(view: &View<'a>, from: usize, to: usize) -> Kind<'a> {
    let mut kind = Kind::Unknown;
    let mut at = from;
    for _operand in from..to {
        if at >= to {
            break;
        }
        match view.sketch.kind(at) {
            Some(LexemeKind::Number) => kind = Kind::Universal,
            Some(LexemeKind::Text) => return Kind::Text,
            Some(LexemeKind::Identifier) => {
                let (found, end) = kind_of_name(view, at);
                if !matches!(found, Kind::Universal) {
                    return found;
                }
                kind = found;
                at = end.saturating_sub(1).max(at);
            }
            _ => {}
        }
        at = at.saturating_add(1);
    }
    kind
}

/// E402: what is wanted and what was found.
pub fn no_interpretation(view: &View<'_>, said: &mut Said) {
    let end = context_end(view.sketch, view.at);
    for part in 0..9 {
        if said.is_empty() {
            check_part(view, end, part, said);
        }
    }
}

// Says which part of the context doesn't fit, looking for one thing after another.
fn check_part(view: &View<'_>, end: usize, part: usize, said: &mut Said) {
    match part {
        0 => check_aggregates(view, view.at, end, said),
        1 => check_operands(view, view.at, end, false, said),
        2 => tell_wanted(view, end, said),
        3 => tell_component(view, end, said),
        4 => check_operands(view, view.at, end, true, said),
        5 => check_calls(view, view.at, end, said),
        6 => tell_statement(view, end, said),
        7 => tell_count(view, end, said),
        _ => tell_names(view, end, said),
    }
}

// Says of a name in the context that a record has no component that is named so.
fn tell_component(view: &View<'_>, end: usize, said: &mut Said) {
    for index in view.at..end {
        let is_selector = view.sketch.is(index.saturating_sub(1), b".");
        if !said.is_empty() || is_selector || !view.sketch.is_identifier(index) {
            continue;
        }
        if let Some((record, name)) = missing_component(view, index) {
            say_component(view, record, name, said);
        }
    }
}

fn say_component(view: &View<'_>, record: &Found<'_>, name: usize, said: &mut Said) {
    say_with_spot(record, said);
    add!(said; b" has no component ", view.sketch.word(name));
    let mut mark: &[u8] = b": it has ";
    for found in view.declared {
        if is_component_of(record, found) {
            add!(said; mark, found.name());
            mark = b", ";
        }
    }
    said.end()
}

// Goes on with a name and its place in parentheses.
fn say_with_spot(found: &Found<'_>, said: &mut Said) {
    add!(said; found.name(), b" (");
    found.add_spot(said);
    said.add(b")");
}

// Says how many components an aggregate by places has, and its type.
fn tell_count(view: &View<'_>, end: usize, said: &mut Said) {
    let Some((wanted, from)) = wanted_there(view, end) else {
        return;
    };
    let found = match wanted {
        Kind::Array(found) | Kind::Of(found) => found,
        _ => return,
    };
    let given = argument_count(view.sketch, from);
    // One by names has `=>`, at which the context ends.
    let is_by_places = given > 1 && view.sketch.closing(from) < end;
    if is_by_places && say_size(view, found, given, said) {
        said.add(b", and the aggregate has ");
        said.add_number(given);
        note!(said; b" components")
    }
}

// Goes on with the index of an array, or with how many components a record has, if an aggregate hasn't as many; whether it is one of these.
fn say_size(view: &View<'_>, found: &Found<'_>, given: usize, said: &mut Said) -> bool {
    let first = found.declared.name.saturating_add(2);
    let (from, to) = found.declared.formals;
    let is_array = found.declared.kind != DeclaredKind::Type || found.sketch.is(first, b"array");
    if is_array && to > 0 {
        add!(said; b"the index is ", found.sketch.words(from, to));
        return true;
    }
    let count = component_count(view, found);
    if !found.sketch.is(first, b"record") || count == given {
        return false;
    }
    say_with_spot(found, said);
    said.add(b" has ");
    said.add_number(count);
    true
}

fn component_count(view: &View<'_>, record: &Found<'_>) -> usize {
    let mut count = 0usize;
    for found in view.declared {
        if is_component_of(record, found) {
            count = count.saturating_add(1);
        }
    }
    count
}

// Says of a function that its call is no statement.
fn tell_statement(view: &View<'_>, end: usize, said: &mut Said) {
    let is_first = begins_statement(view.sketch, view.at);
    if !is_first || assignment_in(view.sketch, view.at, end).is_some() {
        return;
    }
    let Some(found) = first_meant(view, view.word()) else {
        return;
    };
    if found.declared.kind != DeclaredKind::Function {
        return;
    }
    add!(said; found.name(), b" is a function, declared ");
    found.add_place(said);
    note!(said; b": its call is no statement; assign its value, or pass it on")
}

// Whether a statement begins at a lexeme.
fn begins_statement(sketch: &Sketch, at: usize) -> bool {
    sketch.is_among_statements(at) && is_one_of(sketch.word(at.saturating_sub(1)), BEFORE_STATEMENT)
}

// The end of the context that begins at a lexeme.
fn context_end(sketch: &Sketch, from: usize) -> usize {
    let end = sketch.declaration_end(from);
    for index in from..end {
        if is_one_of(sketch.word(index), "then loop is =>") {
            return index;
        }
    }
    end
}

// Says which type is needed there and which was found, if they differ.
fn tell_wanted(view: &View<'_>, end: usize, said: &mut Said) {
    if view.sketch.is(view.at.saturating_sub(1), b"until") {
        return note!(said; b"delay until wants a Time of Ada.Real_Time, as Clock + Milliseconds (100)");
    }
    if let Some((wanted, from)) = wanted_there(view, end) {
        tell_types(view, wanted, from, end, said);
    }
}

// The type that is needed in the context that begins at the place, and the first lexeme of the expression that is to have it.
fn wanted_there<'a>(view: &View<'a>, end: usize) -> Option<(Kind<'a>, usize)> {
    let before = view.at.saturating_sub(1);
    let word = view.sketch.word(before);
    if is_one_of(word, "if elsif while when") {
        return Some((standard(view, b"Boolean"), view.at));
    }
    if is_same(word, b":=") {
        return Some((target_before(view, before), view.at));
    }
    if word.eq_ignore_ascii_case(b"return") {
        return Some((result_round(view), view.at));
    }
    let assign = assignment_in(view.sketch, view.at, end)?;
    let (wanted, _end) = kind_of_name(view, view.at);
    Some((wanted, assign.saturating_add(1)))
}

fn tell_types<'a>(view: &View<'a>, wanted: Kind<'a>, from: usize, to: usize, said: &mut Said) {
    let found = type_of_expression(view, from, to);
    if !found.differs(&wanted) {
        return;
    }
    note!(said; b"wanted ", wanted.name(), b", found ", found.name());
    if wanted.is_integer() && found.is_integer() {
        let given = view.sketch.words(from, to);
        note!(said; b"a conversion is written ", wanted.name(), b" (", given, b")");
    }
}

// The type of what is before a `:=`: of the target of a statement, or of the object that is declared.
fn target_before<'a>(view: &View<'a>, assign: usize) -> Kind<'a> {
    if !view.sketch.is_among_statements(assign) {
        return declared_before(view, assign);
    }
    for index in (0..assign).rev() {
        if is_one_of(view.sketch.word(index), BEFORE_STATEMENT) {
            let (kind, _end) = kind_of_name(view, index.saturating_add(1));
            return kind;
        }
    }
    Kind::Unknown
}

/// The words that a statement may follow.
const BEFORE_STATEMENT: &str = "; => begin then else loop";

// The type of the object whose value begins behind a `:=`.
fn declared_before<'a>(view: &View<'a>, assign: usize) -> Kind<'a> {
    let mut wanted = Kind::Unknown;
    for found in view.declared {
        let declared = &found.declared;
        let is_round = declared.name < assign && declared.end > assign;
        if view.has(found) && is_round {
            wanted = kind_of_one(view, found);
        }
    }
    wanted
}

// The type of the result of the function round the place.
fn result_round<'a>(view: &View<'a>) -> Kind<'a> {
    match body_round(view) {
        Some(found) => mark_type(view, found),
        None => Kind::Unknown,
    }
}

// The `:=` of a statement, outside parentheses.
fn assignment_in(sketch: &Sketch, from: usize, to: usize) -> Option<usize> {
    for index in from..to {
        if sketch.is(index, b":=") {
            return Some(index);
        }
    }
    None
}

// Says how the names there are declared.
fn tell_names(view: &View<'_>, end: usize, said: &mut Said) {
    for index in view.at..end {
        if said.count() >= 3 {
            break;
        }
        let is_selector = view.sketch.is(index.saturating_sub(1), b".");
        if view.sketch.is_identifier(index) && !is_selector {
            tell_name(view, index, said);
        }
    }
}

fn tell_name(view: &View<'_>, index: usize, said: &mut Said) {
    let Some(found) = first_meant(view, view.sketch.word(index)) else {
        return;
    };
    say_declared(found, said);
    tell_private(view, found, said)
}

// Says what a declaration is, of which subtype, and where.
fn say_declared(found: &Found<'_>, said: &mut Said) {
    add!(said; found.name(), b" is ");
    let mark = found.mark();
    if mark.is_empty() {
        said.add(what_is(found.declared.kind));
    } else {
        let is_array = found.declared.formals.1 > 0 && found.declared.kind == DeclaredKind::Object;
        said.add(if is_array {
            b"an array"
        } else {
            what_is(found.declared.kind)
        });
        add!(said; b" of ", mark);
    }
    said.add(b", declared ");
    found.add_place(said);
    said.end()
}

// Says that the type of an object is private elsewhere, if it is.
fn tell_private(view: &View<'_>, found: &Found<'_>, said: &mut Said) {
    let Kind::Of(named) = mark_type(view, found) else {
        return;
    };
    if !named.begins_with(b"private") || view.has(named) {
        return;
    }
    add!(said; named.name(), b" is a private type, declared ");
    named.add_place(said);
    note!(said; b": only its own package knows what it has")
}
