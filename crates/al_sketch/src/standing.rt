// Places in a sketch.
use crate::declared::Declared;
use crate::lexeme::LexemeKind;
use crate::scope::{Scope, ScopeKind};
use crate::sketch::Sketch;

impl Sketch {
    /// The first lexeme that isn't before a place; how many lexemes there are, if all are.
    pub fn first_at(&self, line: u32, col: u32) -> usize {
        let mut low = 0;
        let mut high = self.len();
        for _halving in 0..64 {
            if low >= high {
                break;
            }
            let middle = low.midpoint(high);
            if self.is_before(middle, line, col) {
                low = middle.saturating_add(1);
            } else {
                high = middle;
            }
        }
        low
    }

    // Whether a lexeme is before a place.
    fn is_before(&self, index: usize, line: u32, col: u32) -> bool {
        match self.lexeme(index) {
            Some(lexeme) => lexeme.line < line || (lexeme.line == line && lexeme.col < col),
            None => false,
        }
    }

    /// The innermost scope that has begun before a lexeme and hasn't ended.
    pub fn scope_at(&self, index: usize) -> usize {
        let mut innermost = 0;
        for (number, scope) in self.scopes().iter().enumerate() {
            if scope.start >= index {
                break;
            }
            if index < scope.end {
                innermost = number;
            }
        }
        innermost
    }

    /// The scope of a number.
    pub fn scope(&self, number: usize) -> Option<Scope> {
        self.scopes().get(number).copied()
    }

    /// Whether a scope is of the source, or of the library unit that it holds.
    pub fn is_outermost(&self, number: usize) -> bool {
        match self.scope(number) {
            Some(scope) => scope.kind == ScopeKind::Text || scope.parent == 0,
            None => false,
        }
    }

    /// Whether a declaration is in a private part.
    pub fn is_private(&self, declared: &Declared) -> bool {
        match self.scope(declared.scope) {
            Some(scope) => match scope.private {
                Some(private) => private < declared.name,
                None => false,
            },
            None => false,
        }
    }

    /// Whether a lexeme is among statements.
    pub fn is_among_statements(&self, index: usize) -> bool {
        match self.scope(self.scope_at(index)) {
            Some(scope) => match scope.begin {
                Some(begin) => begin < index,
                None => false,
            },
            None => false,
        }
    }

    /// The innermost parenthesis that is open before a lexeme, if one is.
    pub fn open_parenthesis(&self, index: usize) -> Option<usize> {
        let mut closed = 0usize;
        for before in (0..index).rev() {
            if self.is(before, b")") {
                closed = closed.saturating_add(1);
            } else if self.is(before, b"(") {
                if closed == 0 {
                    return Some(before);
                }
                closed = closed.saturating_sub(1);
            } else if self.kind(before) == Some(LexemeKind::Reserved) && self.is_boundary(before) {
                return None;
            }
        }
        None
    }

    // Whether no parenthesis reaches over a word.
    fn is_boundary(&self, index: usize) -> bool {
        self.is(index, b"begin")
            || self.is(index, b"end")
            || self.is(index, b"procedure")
            || self.is(index, b"function")
            || self.is(index, b"package")
    }

    /// The lexeme after the name that begins at a lexeme: identifiers with dots between them.
    pub fn name_end(&self, from: usize) -> usize {
        let mut end = from.saturating_add(1);
        for _part in 0..self.len() {
            let next = end.saturating_add(1);
            if !self.is(end, b".") || !self.is_identifier(next) {
                break;
            }
            end = next.saturating_add(1);
        }
        end
    }

    /// The first lexeme of the name that ends with one: identifiers with dots between them.
    pub fn name_start(&self, last: usize) -> usize {
        let mut first = last;
        for _part in 0..last {
            if first < 2 || !self.is(first.saturating_sub(1), b".") {
                break;
            }
            first = first.saturating_sub(2);
        }
        first
    }

    /// The lexeme that closes the parenthesis that opens at a lexeme; how many there are, where none does.
    pub fn closing(&self, open: usize) -> usize {
        let mut depth = 0usize;
        for index in open..self.len() {
            if self.is(index, b"(") {
                depth = depth.saturating_add(1);
            } else if self.is(index, b")") {
                depth = depth.saturating_sub(1);
                if depth == 0 {
                    return index;
                }
            }
        }
        self.len()
    }

    /// The next lexeme from a place on that is `;` outside parentheses, or an unpaired `)`; how many there are, where none is.
    pub fn declaration_end(&self, from: usize) -> usize {
        let mut depth = 0usize;
        for index in from..self.len() {
            if self.is(index, b"(") {
                depth = depth.saturating_add(1);
            } else if self.is(index, b")") {
                if depth == 0 {
                    return index;
                }
                depth = depth.saturating_sub(1);
            } else if depth == 0 && self.is(index, b";") {
                return index;
            }
        }
        self.len()
    }
}
