// Reading the lexemes of a source once, from its beginning.
use crate::declared::{Declared, DeclaredKind};
use crate::scope::{Scope, ScopeKind};
use crate::sketch::Sketch;
use std::alloc::{AllocError, Global};

/// What was read so far.
#[derive(Drop)]
pub struct Scan {
    scopes: Vec<Scope>,
    declared: Vec<Declared>,
    /// The innermost scope that is open.
    open: usize,
    /// Whether its `is` is still to come.
    is_pending: bool,
    /// How many parentheses are open.
    depth: usize,
    /// The name of the last type.
    type_name: usize,
}

const NOTHING: (usize, usize) = (0, 0);

impl Scan {
    /// The scopes and the declarations of a source whose lexemes are known.
    ///
    /// # Errors
    ///
    /// `AllocError` if memory runs out.
    pub fn over(alloc: Global, sketch: &Sketch) -> Result<(Vec<Scope>, Vec<Declared>), AllocError> {
        let mut scan = Scan {
            scopes: Vec::new(alloc),
            declared: Vec::new(alloc),
            open: 0,
            is_pending: false,
            depth: 0,
            type_name: 0,
        };
        scan.scopes.push(Scope {
            kind: ScopeKind::Text,
            name: 0,
            parent: 0,
            start: 0,
            end: usize::MAX,
            private: None,
            begin: None,
        })?;
        for index in 0..sketch.len() {
            scan.see(sketch, index)?;
        }
        let Scan {
            scopes,
            declared,
            open: _,
            is_pending: _,
            depth: _,
            type_name: _,
        } = scan;
        Ok((scopes, declared))
    }

    fn kind(&self) -> ScopeKind {
        match self.scopes.get(self.open) {
            Some(scope) => scope.kind,
            None => ScopeKind::Text,
        }
    }

    fn has_begun(&self) -> bool {
        match self.scopes.get(self.open) {
            Some(scope) => scope.begin.is_some(),
            None => false,
        }
    }

    // Opens a scope.
    fn push(
        &mut self,
        kind: ScopeKind,
        name: usize,
        start: usize,
        begin: Option<usize>,
    ) -> Result<(), AllocError> {
        let number = self.scopes.len();
        self.scopes.push(Scope {
            kind,
            name,
            parent: self.open,
            start,
            end: usize::MAX,
            private: None,
            begin,
        })?;
        self.open = number;
        Ok(())
    }

    // Closes the innermost scope before a lexeme; the source's stays open.
    fn pop(&mut self, end: usize) {
        if self.open == 0 {
            return;
        }
        let open = self.open;
        if let Some(scope) = self.scopes.get_mut(open) {
            scope.end = end;
            self.open = scope.parent;
        }
        self.is_pending = false;
    }

    fn declare(&mut self, declared: Declared) -> Result<(), AllocError> {
        self.declared.push(declared)?;
        Ok(())
    }

    // Reads a lexeme.
    fn see(&mut self, sketch: &Sketch, index: usize) -> Result<(), AllocError> {
        if sketch.is_identifier(index) {
            return self.see_identifier(sketch, index);
        }
        match sketch.word(index) {
            b"(" => self.depth = self.depth.saturating_add(1),
            b")" => self.depth = self.depth.saturating_sub(1),
            b";" => self.see_semicolon(index),
            _ => return self.see_reserved(sketch, index),
        }
        Ok(())
    }

    // A specification without a body ends at its semicolon.
    fn see_semicolon(&mut self, index: usize) {
        if self.is_pending && self.depth == 0 {
            self.pop(index.saturating_add(1));
        }
    }

    fn see_reserved(&mut self, sketch: &Sketch, index: usize) -> Result<(), AllocError> {
        let before = index.saturating_sub(1);
        if index > 0 && sketch.is(before, b"end") {
            return Ok(());
        }
        let word = sketch.word(index);
        if word.eq_ignore_ascii_case(b"type") {
            return self.see_type(sketch, index);
        }
        if word.eq_ignore_ascii_case(b"subtype") {
            return self.see_subtype(sketch, index);
        }
        if self.is_specification(sketch, index) {
            return self.see_specification(sketch, index);
        }
        if word.eq_ignore_ascii_case(b"for") {
            return self.see_loop_parameter(sketch, index);
        }
        self.see_structure(sketch, index)
    }

    // Whether a unit's or an operation's specification begins with the word.
    fn is_specification(&self, sketch: &Sketch, index: usize) -> bool {
        let before = index.saturating_sub(1);
        let is_access = sketch.is(before, b"access")
            || (sketch.is(before, b"protected") && sketch.is(index.saturating_sub(2), b"access"));
        if is_access && index > 0 {
            return false;
        }
        kind_of_specification(sketch, index).is_some()
    }

    // Opens the scope of what a specification begins, and declares it.
    fn see_specification(&mut self, sketch: &Sketch, index: usize) -> Result<(), AllocError> {
        let Some((scope, kind, name)) = kind_of_specification(sketch, index) else {
            return Ok(());
        };
        if self.is_pending {
            self.pop(index);
        }
        self.depth = 0;
        let behind = sketch.name_end(name);
        let last = behind.saturating_sub(1);
        let formals = parentheses_at(sketch, behind);
        let mark = if kind == DeclaredKind::Function {
            result_mark(sketch, behind, formals)
        } else {
            NOTHING
        };
        self.declare(Declared {
            kind,
            name: last,
            scope: self.open,
            is_body: scope == ScopeKind::PackageBody || sketch.is(name.saturating_sub(1), b"body"),
            mark,
            formals,
            end: behind,
        })?;
        self.push(scope, last, index, None)?;
        self.is_pending = true;
        Ok(())
    }

    // What opens, goes on or closes a scope.
    fn see_structure(&mut self, sketch: &Sketch, index: usize) -> Result<(), AllocError> {
        let word = sketch.word(index);
        if word.eq_ignore_ascii_case(b"is") {
            self.see_is(sketch, index);
        } else if word.eq_ignore_ascii_case(b"begin") {
            return self.see_begin(index);
        } else if word.eq_ignore_ascii_case(b"end") {
            self.depth = 0;
            self.pop(sketch.declaration_end(index).saturating_add(1));
        } else if word.eq_ignore_ascii_case(b"private") {
            self.see_private(sketch, index);
        } else if word.eq_ignore_ascii_case(b"declare") {
            return self.push(ScopeKind::Block, index, index, None);
        } else if word.eq_ignore_ascii_case(b"record") {
            return self.see_record(sketch, index);
        } else if self.depth == 0 && opens_block(word) {
            return self.push(ScopeKind::Block, index, index, Some(index));
        }
        Ok(())
    }

    // The `is` behind a specification: a body or a declaration with parts begins, unless something else follows.
    fn see_is(&mut self, sketch: &Sketch, index: usize) {
        let next = sketch.word(index.saturating_add(1));
        let is_short = next.eq_ignore_ascii_case(b"separate")
            || next.eq_ignore_ascii_case(b"new")
            || next.eq_ignore_ascii_case(b"abstract")
            || next.eq_ignore_ascii_case(b"null")
            || next == b"(".as_slice()
            || next == b"<>".as_slice();
        if !self.is_pending || is_short {
            return;
        }
        self.is_pending = false;
        let kind = self.kind();
        if matches!(kind, ScopeKind::Subprogram | ScopeKind::Entry) {
            if let Some(last) = self.last_specification() {
                last.is_body = true;
            }
        }
    }

    // The declaration of the innermost scope.
    fn last_specification(&mut self) -> Option<&mut Declared> {
        let name = self.scopes.get(self.open)?.name;
        for declared in self.declared.iter_mut() {
            if declared.name == name {
                return Some(declared);
            }
        }
        None
    }

    // Statements begin: those of the innermost scope, or a block's.
    fn see_begin(&mut self, index: usize) -> Result<(), AllocError> {
        self.depth = 0;
        let open = self.open;
        if let Some(scope) = self.scopes.get_mut(open) {
            if scope.begin.is_none() && open > 0 {
                scope.begin = Some(index);
                return Ok(());
            }
        }
        self.push(ScopeKind::Block, index, index, Some(index))
    }

    fn see_private(&mut self, sketch: &Sketch, index: usize) {
        let is_type = sketch.is(index.saturating_add(1), b";");
        let kind = self.kind();
        let open = self.open;
        if is_type
            || self.is_pending
            || !matches!(kind, ScopeKind::Package | ScopeKind::Protected)
        {
            return;
        }
        if let Some(scope) = self.scopes.get_mut(open) {
            if scope.private.is_none() {
                scope.private = Some(index);
            }
        }
    }

    fn see_record(&mut self, sketch: &Sketch, index: usize) -> Result<(), AllocError> {
        if sketch.is(index.saturating_sub(1), b"null") {
            return Ok(());
        }
        self.push(ScopeKind::Record, self.type_name, index, None)
    }

    // What is declared before a colon.
    fn see_identifier(&mut self, sketch: &Sketch, index: usize) -> Result<(), AllocError> {
        if sketch.is(index.saturating_sub(1), b",") && index > 0 {
            return Ok(());
        }
        if self.has_begun() && self.depth == 0 {
            return Ok(());
        }
        let Some(colon) = colon_after(sketch, index) else {
            return Ok(());
        };
        let end = sketch.declaration_end(colon);
        let kind = self.kind_before(sketch, colon);
        let mark = mark_after(sketch, colon, end);
        let formals = index_after(sketch, colon, end);
        for name in index..colon {
            if sketch.is_identifier(name) {
                self.declare(Declared {
                    kind,
                    name,
                    scope: self.open,
                    is_body: false,
                    mark,
                    formals,
                    end,
                })?;
            }
        }
        Ok(())
    }

    // What the names before a colon declare.
    fn kind_before(&self, sketch: &Sketch, colon: usize) -> DeclaredKind {
        let next = colon.saturating_add(1);
        if self.depth > 0 {
            return DeclaredKind::Formal;
        }
        if matches!(self.kind(), ScopeKind::Record | ScopeKind::Protected) {
            return DeclaredKind::Component;
        }
        if sketch.is(next, b"exception") {
            return DeclaredKind::Exception;
        }
        if !sketch.is(next, b"constant") {
            return DeclaredKind::Object;
        }
        if sketch.is(next.saturating_add(1), b":=") {
            DeclaredKind::Number
        } else {
            DeclaredKind::Constant
        }
    }

    fn see_type(&mut self, sketch: &Sketch, index: usize) -> Result<(), AllocError> {
        let name = index.saturating_add(1);
        let before = index.saturating_sub(1);
        let is_other = sketch.is(before, b"task")
            || sketch.is(before, b"protected")
            || sketch.is(before, b"use");
        if !sketch.is_identifier(name) || (is_other && index > 0) {
            return Ok(());
        }
        let end = sketch.declaration_end(name);
        self.type_name = name;
        self.declare(Declared {
            kind: DeclaredKind::Type,
            name,
            scope: self.open,
            is_body: false,
            mark: element_of(sketch, name, end),
            formals: parentheses_in(sketch, name, end),
            end,
        })?;
        if sketch.is(name.saturating_add(1), b"is") && sketch.is(name.saturating_add(2), b"(") {
            return self.see_literals(sketch, name, end);
        }
        Ok(())
    }

    // The literals of an enumeration type.
    fn see_literals(
        &mut self,
        sketch: &Sketch,
        type_name: usize,
        end: usize,
    ) -> Result<(), AllocError> {
        for name in type_name.saturating_add(3)..end {
            if sketch.is_identifier(name) {
                self.declare(Declared {
                    kind: DeclaredKind::Literal,
                    name,
                    scope: self.open,
                    is_body: false,
                    mark: (type_name, type_name.saturating_add(1)),
                    formals: NOTHING,
                    end,
                })?;
            }
        }
        Ok(())
    }

    fn see_subtype(&mut self, sketch: &Sketch, index: usize) -> Result<(), AllocError> {
        let name = index.saturating_add(1);
        if !sketch.is_identifier(name) {
            return Ok(());
        }
        let end = sketch.declaration_end(name);
        self.declare(Declared {
            kind: DeclaredKind::Subtype,
            name,
            scope: self.open,
            is_body: false,
            mark: mark_after(sketch, name.saturating_add(1), end),
            formals: NOTHING,
            end,
        })
    }

    // The parameter of a loop, whose scope opens at its `loop`: it is kept in the one round it.
    fn see_loop_parameter(&mut self, sketch: &Sketch, index: usize) -> Result<(), AllocError> {
        let name = index.saturating_add(1);
        let within = name.saturating_add(1);
        if !sketch.is_identifier(name) || !sketch.is(within, b"in") {
            return Ok(());
        }
        self.declare(Declared {
            kind: DeclaredKind::LoopParameter,
            name,
            scope: self.open,
            is_body: false,
            mark: mark_after(sketch, within, sketch.declaration_end(name)),
            formals: NOTHING,
            end: within,
        })
    }
}

// The words that open what `end` closes, but for those that are read on their own.
fn opens_block(word: &[u8]) -> bool {
    word.eq_ignore_ascii_case(b"if")
        || word.eq_ignore_ascii_case(b"case")
        || word.eq_ignore_ascii_case(b"loop")
        || word.eq_ignore_ascii_case(b"select")
        || word.eq_ignore_ascii_case(b"do")
}

// What a word begins the specification of, and its name.
fn kind_of_specification(
    sketch: &Sketch,
    index: usize,
) -> Option<(ScopeKind, DeclaredKind, usize)> {
    let word = sketch.word(index);
    let next = index.saturating_add(1);
    if word.eq_ignore_ascii_case(b"procedure") {
        return Some((ScopeKind::Subprogram, DeclaredKind::Procedure, next));
    }
    if word.eq_ignore_ascii_case(b"function") {
        return Some((ScopeKind::Subprogram, DeclaredKind::Function, next));
    }
    if word.eq_ignore_ascii_case(b"entry") {
        return Some((ScopeKind::Entry, DeclaredKind::Entry, next));
    }
    let is_body = sketch.is(next, b"body");
    let has_word = is_body || sketch.is(next, b"type");
    let name = if has_word {
        next.saturating_add(1)
    } else {
        next
    };
    if word.eq_ignore_ascii_case(b"package") {
        let kind = if is_body {
            ScopeKind::PackageBody
        } else {
            ScopeKind::Package
        };
        return Some((kind, DeclaredKind::Package, name));
    }
    if word.eq_ignore_ascii_case(b"task") {
        return Some((ScopeKind::Task, DeclaredKind::Task, name));
    }
    if word.eq_ignore_ascii_case(b"protected") {
        let kind = if is_body {
            ScopeKind::PackageBody
        } else {
            ScopeKind::Protected
        };
        return Some((kind, DeclaredKind::Protected, name));
    }
    None
}

// The colon behind identifiers with commas between them.
fn colon_after(sketch: &Sketch, first: usize) -> Option<usize> {
    let mut at = first;
    for _name in 0..sketch.len() {
        if !sketch.is_identifier(at) {
            return None;
        }
        let next = at.saturating_add(1);
        if sketch.is(next, b":") {
            return Some(next);
        }
        if !sketch.is(next, b",") {
            return None;
        }
        at = next.saturating_add(1);
    }
    None
}

// The name of a subtype behind a lexeme, up to an end: of an array its elements', and past words that come before it.
fn mark_after(sketch: &Sketch, from: usize, end: usize) -> (usize, usize) {
    let start = from.saturating_add(1);
    if sketch.is(start, b"array") {
        array_element(sketch, start, end)
    } else {
        name_after(sketch, from, end)
    }
}

// The first name behind a lexeme, up to an end, past words that come before a subtype's.
fn name_after(sketch: &Sketch, from: usize, end: usize) -> (usize, usize) {
    let start = from.saturating_add(1);
    for index in start..end.min(start.saturating_add(8)) {
        if sketch.is_identifier(index) {
            return (index, sketch.name_end(index));
        }
        if sketch.is(index, b":=") || sketch.is(index, b"array") {
            break;
        }
    }
    NOTHING
}

// The name of the subtype of an array's elements.
fn array_element(sketch: &Sketch, array: usize, end: usize) -> (usize, usize) {
    for index in array..end {
        if sketch.is(index, b"of") {
            return name_after(sketch, index, end);
        }
    }
    NOTHING
}

// What is between parentheses that open at a lexeme.
fn parentheses_at(sketch: &Sketch, open: usize) -> (usize, usize) {
    if sketch.is(open, b"(") {
        (open.saturating_add(1), sketch.closing(open))
    } else {
        NOTHING
    }
}

// What is between the first parentheses from a lexeme to an end.
fn parentheses_in(sketch: &Sketch, from: usize, end: usize) -> (usize, usize) {
    for index in from..end {
        if sketch.is(index, b"(") {
            return parentheses_at(sketch, index);
        }
    }
    NOTHING
}

// The index of an array behind a colon.
fn index_after(sketch: &Sketch, colon: usize, end: usize) -> (usize, usize) {
    for index in colon..end.min(colon.saturating_add(4)) {
        if sketch.is(index, b"array") {
            return parentheses_at(sketch, index.saturating_add(1));
        }
    }
    NOTHING
}

// The name of the subtype of a function's result.
fn result_mark(sketch: &Sketch, behind: usize, formals: (usize, usize)) -> (usize, usize) {
    let at = if formals.1 > 0 {
        formals.1.saturating_add(1)
    } else {
        behind
    };
    if sketch.is(at, b"return") {
        mark_after(sketch, at, sketch.declaration_end(at))
    } else {
        NOTHING
    }
}

// Of a type: the name of the subtype of its elements, or of its parent.
fn element_of(sketch: &Sketch, name: usize, end: usize) -> (usize, usize) {
    let is_at = name.saturating_add(1);
    let first = is_at.saturating_add(1);
    if sketch.is(first, b"array") {
        return array_element(sketch, first, end);
    }
    if sketch.is(first, b"new") {
        return mark_after(sketch, first, end);
    }
    NOTHING
}
