// Which units a source names: those of its with clauses, its own, its parent body's and those of its stubs (ARM 10.1).
use al_base::{Name, NoMemory, ReservedWord, folded};
use al_lex::{Delimiter, Kind, LexError, Token, lex};
use std::alloc::Global;

/// What the next lexemes belong to.
#[derive(Clone, Copy, PartialEq, Eq)]
enum Part {
    /// The context clause, between two clauses.
    Context,
    /// A clause that names no unit, up to its semicolon.
    Other,
    /// A with clause.
    With,
    /// The name of the parent body, after the word separate.
    Parent,
    /// The name of the unit itself.
    Own,
    /// What follows the unit's name.
    Body,
    /// In a body the name after the word procedure, function or body.
    Inner,
}

/// What has been read of a source.
#[derive(Drop)]
struct Scan {
    alloc: Global,
    part: Part,
    /// The name that is being read.
    name: Vec<u8>,
    /// The unit's own name, after that of its parent body.
    own: Vec<u8>,
    /// The last name after the word procedure, function or body.
    inner: Vec<u8>,
    /// Whether the last lexeme was the word is.
    after_is: bool,
    found: Vec<Name>,
}

/// The units that a source names, in lower case; none if it has a lexical error.
///
/// # Errors
///
/// `NoMemory` if the allocator refuses memory.
pub fn units_named(alloc: Global, text: &[u8]) -> Result<Vec<Name>, NoMemory> {
    let mut scan = Scan::new(alloc);
    if text.len() > 4294967294 {
        return Ok(scan.found);
    }
    let tokens = match lex(alloc, text) {
        Ok(tokens) => tokens,
        Err(LexError::NoMemory) => return Err(NoMemory),
        Err(LexError::Fault(_)) => return Ok(scan.found),
    };
    for token in tokens.iter() {
        scan.take(*token, text)?;
    }
    Ok(scan.found)
}

impl Scan {
    fn new(alloc: Global) -> Scan {
        Scan {
            alloc,
            part: Part::Context,
            name: Vec::new(alloc),
            own: Vec::new(alloc),
            inner: Vec::new(alloc),
            after_is: false,
            found: Vec::new(alloc),
        }
    }

    // Reads one more lexeme.
    fn take(&mut self, token: Token, text: &[u8]) -> Result<(), NoMemory> {
        match token.kind {
            Kind::Reserved(word) => self.take_word(word),
            Kind::Identifier => self.take_name(spelling(token, text)),
            Kind::Delimiter(Delimiter::Dot) => self.take_name(b"."),
            Kind::Delimiter(delimiter) => self.take_delimiter(delimiter),
            Kind::Number | Kind::Str => Ok(()),
        }
    }

    fn take_word(&mut self, word: ReservedWord) -> Result<(), NoMemory> {
        match self.part {
            Part::Context => self.begin(word),
            Part::Own => self.take_own_word(word),
            Part::Body | Part::Inner => self.take_inner_word(word),
            Part::Other | Part::With | Part::Parent => Ok(()),
        }
    }

    // Reads the first word of a clause or of the unit.
    fn begin(&mut self, word: ReservedWord) -> Result<(), NoMemory> {
        self.name.clear();
        self.part = match word {
            ReservedWord::With => Part::With,
            ReservedWord::Separate => Part::Parent,
            ReservedWord::Package | ReservedWord::Procedure | ReservedWord::Function => Part::Own,
            ReservedWord::Task | ReservedWord::Protected => Part::Own,
            ReservedWord::Private | ReservedWord::Limited => Part::Context,
            _ => Part::Other,
        };
        Ok(())
    }

    // Reads a word before the unit's name or after it.
    fn take_own_word(&mut self, word: ReservedWord) -> Result<(), NoMemory> {
        if self.name.is_empty() {
            return Ok(());
        }
        self.end_own()?;
        self.take_inner_word(word)
    }

    fn take_inner_word(&mut self, word: ReservedWord) -> Result<(), NoMemory> {
        if matches!(word, ReservedWord::Separate) && self.after_is {
            self.add_stub()?;
        }
        self.after_is = matches!(word, ReservedWord::Is);
        if is_before_name(word) {
            self.inner.clear();
            self.part = Part::Inner;
        }
        Ok(())
    }

    fn take_name(&mut self, bytes: &[u8]) -> Result<(), NoMemory> {
        match self.part {
            Part::With | Part::Parent | Part::Own => self.name.extend_from_slice(bytes)?,
            Part::Inner => {
                self.inner.extend_from_slice(bytes)?;
                self.part = Part::Body;
            }
            Part::Context => self.part = Part::Other,
            Part::Other | Part::Body => {}
        }
        Ok(())
    }

    fn take_delimiter(&mut self, delimiter: Delimiter) -> Result<(), NoMemory> {
        let is_end = matches!(delimiter, Delimiter::Semicolon);
        match self.part {
            Part::With => {
                self.add_name()?;
                if is_end {
                    self.part = Part::Context;
                }
            }
            Part::Parent if matches!(delimiter, Delimiter::RightParenthesis) => {
                self.add_parent()?;
                self.part = Part::Context;
            }
            Part::Own => self.end_own()?,
            Part::Other if is_end => self.part = Part::Context,
            _ => {}
        }
        self.after_is = false;
        Ok(())
    }

    // Adds the name that was read, which is a unit's.
    fn add_name(&mut self) -> Result<(), NoMemory> {
        let name = folded(self.alloc, &self.name)?;
        self.name.clear();
        self.found.push(name)?;
        Ok(())
    }

    // Adds the name that was read, which is the parent body's.
    fn add_parent(&mut self) -> Result<(), NoMemory> {
        self.own.clear();
        self.own.extend_from_slice(&self.name)?;
        self.own.push(b'.')?;
        self.add_name()
    }

    // Adds the name that was read, which is the unit's own.
    fn end_own(&mut self) -> Result<(), NoMemory> {
        self.own.extend_from_slice(&self.name)?;
        self.name.clear();
        self.part = Part::Body;
        let own = folded(self.alloc, &self.own)?;
        self.found.push(own)?;
        Ok(())
    }

    // Adds the last inner name, which is that of a stub.
    fn add_stub(&mut self) -> Result<(), NoMemory> {
        let mut stub = Vec::from_slice(self.alloc, &self.own)?;
        stub.push(b'.')?;
        stub.extend_from_slice(&self.inner)?;
        let stub = folded(self.alloc, &stub)?;
        self.found.push(stub)?;
        Ok(())
    }
}

// Whether the name of a body or a subprogram follows the word.
fn is_before_name(word: ReservedWord) -> bool {
    matches!(
        word,
        ReservedWord::Procedure | ReservedWord::Function | ReservedWord::Body
    )
}

// The bytes of a lexeme.
fn spelling(token: Token, text: &[u8]) -> &[u8] {
    let start = token.span.start as usize;
    match text.get(start..start + token.span.len as usize) {
        Some(bytes) => bytes,
        None => &[],
    }
}
