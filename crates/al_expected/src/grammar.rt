// The rules, with what each begins with.
use crate::rules::RULES;
use std::alloc::{AllocError, Global};

/// What a rule has at a place.
#[derive(Clone, Copy, PartialEq, Eq)]
pub enum Part {
    /// The lexeme of a number.
    Lexeme(usize),
    /// The rule of a number.
    Rule(usize),
}

/// The rules of [`RULES`], read.
pub struct Grammar {
    alloc: Global,
    /// The names of the rules.
    names: Vec<&'static str>,
    lexemes: Vec<&'static str>,
    /// Of each rule its alternatives.
    rules: Vec<Vec<Vec<Part>>>,
    /// Of each rule the lexemes that it begins with, by their numbers.
    firsts: Vec<Vec<bool>>,
    /// Of each rule whether it may be empty.
    empties: Vec<bool>,
}

impl Drop for Grammar {
    fn drop(self) {
        let Grammar {
            alloc: _,
            names: _,
            lexemes: _,
            rules: _,
            firsts: _,
            empties: _,
        } = self;
    }
}

impl Grammar {
    /// The grammar of the language.
    ///
    /// # Errors
    ///
    /// If out of memory.
    pub fn new(alloc: Global) -> Result<Grammar, AllocError> {
        let mut grammar = Grammar {
            alloc,
            names: Vec::new(alloc),
            lexemes: Vec::new(alloc),
            rules: Vec::new(alloc),
            firsts: Vec::new(alloc),
            empties: Vec::new(alloc),
        };
        grammar.read()?;
        grammar.start_firsts()?;
        grammar.find_firsts();
        Ok(grammar)
    }

    // Reads the rules, their names first.
    fn read(&mut self) -> Result<(), AllocError> {
        for line in RULES.split('\n') {
            if let Some((name, _parts)) = line.split_once(" = ") {
                self.names.push(name)?;
            }
        }
        for line in RULES.split('\n') {
            if let Some((_name, parts)) = line.split_once(" = ") {
                let alternatives = self.alternatives_of(parts)?;
                self.rules.push(alternatives)?;
            }
        }
        Ok(())
    }

    // The number of the rule of that name.
    fn rule_named(&self, word: &str) -> Option<usize> {
        for (number, name) in self.names.iter().enumerate() {
            if *name == word {
                return Some(number);
            }
        }
        None
    }

    fn alternatives_of(&mut self, parts: &'static str) -> Result<Vec<Vec<Part>>, AllocError> {
        let mut alternatives = Vec::new(self.alloc);
        let mut alternative = Vec::new(self.alloc);
        for word in parts.split_whitespace() {
            if word == "|" {
                let whole = std::mem::replace(&mut alternative, Vec::new(self.alloc));
                alternatives.push(whole)?;
            } else {
                alternative.push(self.part_of(word)?)?;
            }
        }
        alternatives.push(alternative)?;
        Ok(alternatives)
    }

    fn part_of(&mut self, word: &'static str) -> Result<Part, AllocError> {
        if let Some(number) = self.rule_named(word) {
            return Ok(Part::Rule(number));
        }
        if let Some(number) = self.lexeme_of(word.as_bytes()) {
            return Ok(Part::Lexeme(number));
        }
        self.lexemes.push(word)?;
        Ok(Part::Lexeme(self.lexemes.len().saturating_sub(1)))
    }

    /// The number of a lexeme of the rules, if they have it.
    pub fn lexeme_of(&self, word: &[u8]) -> Option<usize> {
        for (number, lexeme) in self.lexemes.iter().enumerate() {
            if word.eq_ignore_ascii_case(lexeme.as_bytes()) {
                return Some(number);
            }
        }
        None
    }

    /// The lexemes of the rules, by their numbers.
    pub fn lexemes(&self) -> &[&'static str] {
        self.lexemes.as_slice()
    }

    fn start_firsts(&mut self) -> Result<(), AllocError> {
        for _rule in 0..self.rules.len() {
            self.firsts
                .push(vec![in self.alloc; false; self.lexemes.len()]?)?;
            self.empties.push(false)?;
        }
        Ok(())
    }

    // Finds what each rule begins with: the last rule first, since most name later ones. What is found in one round is used in the next, and rules
    // nest no deeper than they are many.
    fn find_firsts(&mut self) {
        for _round in 0..self.rules.len() {
            let mut has_changed = false;
            for rule in (0..self.rules.len()).rev() {
                for alternative in 0..self.count_of(rule) {
                    has_changed = self.extend_first(rule, alternative) || has_changed;
                }
            }
            if !has_changed {
                break;
            }
        }
    }

    fn count_of(&self, rule: usize) -> usize {
        match self.rules.get(rule) {
            Some(alternatives) => alternatives.len(),
            None => 0,
        }
    }

    // Adds what an alternative of a rule begins with; whether that was new.
    fn extend_first(&mut self, rule: usize, alternative: usize) -> bool {
        let mut has_changed = false;
        for at in 0..self.length_of(rule, alternative) {
            let part = self.part(rule, alternative, at);
            for lexeme in 0..self.lexemes.len() {
                if self.begins(part, lexeme) {
                    has_changed = self.set_first(rule, lexeme) || has_changed;
                }
            }
            if !self.is_empty(part) {
                return has_changed;
            }
        }
        self.set_empty(rule) || has_changed
    }

    fn length_of(&self, rule: usize, alternative: usize) -> usize {
        self.parts(rule, alternative).len()
    }

    /// The parts of an alternative of a rule.
    pub(crate) fn parts(&self, rule: usize, alternative: usize) -> &[Part] {
        match self.rules.get(rule) {
            Some(alternatives) => match alternatives.get(alternative) {
                Some(parts) => parts.as_slice(),
                None => &[],
            },
            None => &[],
        }
    }

    fn part(&self, rule: usize, alternative: usize, at: usize) -> Part {
        match self.parts(rule, alternative).get(at) {
            Some(part) => *part,
            None => Part::Lexeme(usize::MAX),
        }
    }

    fn set_first(&mut self, rule: usize, lexeme: usize) -> bool {
        match self.firsts.get_mut(rule) {
            Some(first) => match first.get_mut(lexeme) {
                Some(begins) => !std::mem::replace(begins, true),
                None => false,
            },
            None => false,
        }
    }

    fn set_empty(&mut self, rule: usize) -> bool {
        match self.empties.get_mut(rule) {
            Some(empty) => !std::mem::replace(empty, true),
            None => false,
        }
    }

    /// Whether what is at a place of a rule can begin with a lexeme.
    pub(crate) fn begins(&self, part: Part, lexeme: usize) -> bool {
        match part {
            Part::Lexeme(number) => number == lexeme,
            Part::Rule(rule) => match self.firsts.get(rule) {
                Some(first) => first.get(lexeme).copied().unwrap_or(false),
                None => false,
            },
        }
    }

    /// Whether what is at a place of a rule can be empty.
    pub(crate) fn is_empty(&self, part: Part) -> bool {
        match part {
            Part::Lexeme(_number) => false,
            Part::Rule(rule) => self.empties.get(rule).copied().unwrap_or(false),
        }
    }

    /// The alternative of a rule that goes on with a lexeme: one that begins with it, else one that may be empty.
    pub(crate) fn alternative_for(&self, rule: usize, lexeme: usize) -> Option<usize> {
        let mut empty = None;
        for alternative in 0..self.count_of(rule) {
            let parts = self.parts(rule, alternative);
            if self.sequence_begins(parts, lexeme) {
                return Some(alternative);
            }
            if self.is_sequence_empty(parts) {
                empty = Some(alternative);
            }
        }
        empty
    }

    fn sequence_begins(&self, parts: &[Part], lexeme: usize) -> bool {
        for part in parts {
            if self.begins(*part, lexeme) {
                return true;
            }
            if !self.is_empty(*part) {
                return false;
            }
        }
        false
    }

    fn is_sequence_empty(&self, parts: &[Part]) -> bool {
        for part in parts {
            if !self.is_empty(*part) {
                return false;
            }
        }
        true
    }
}
