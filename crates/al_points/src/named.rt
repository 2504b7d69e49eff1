// Names of a text.
use al_base::{NoMemory, Place, folded};
use al_lex::{Delimiter, Kind, LexError, Token, lex};
use al_tree::{Expression, Identifier, IdentifierName, Longer, NamePart};
use std::alloc::Global;

/// A name of a text, with the names before it over dots.
pub struct Named {
    /// All of it in lower case, with dots.
    pub key: Vec<u8>,
    /// Its last identifier in lower case.
    pub last: Vec<u8>,
    pub name: Expression,
    /// The place of its first identifier.
    pub first: Place,
    /// The last identifier.
    pub token: Token,
    /// What is declared of it, as it is written, where it stands in front of a colon.
    pub defined: Option<Vec<u8>>,
}

impl Drop for Named {
    fn drop(self) {
        let Named {
            key: _,
            last: _,
            name: _,
            first: _,
            token: _,
            defined: _,
        } = self;
    }
}

// The bytes of a text from one offset up to another, as far as it has them.
pub(crate) fn bytes_between(text: &[u8], start: usize, end: usize) -> &[u8] {
    let end = end.min(text.len());
    &text[start.min(end)..end]
}

// .. of a list of lexemes.
fn tokens_between(tokens: &[Token], start: usize, end: usize) -> &[Token] {
    let end = end.min(tokens.len());
    &tokens[start.min(end)..end]
}

pub(crate) fn bytes_of<'a>(text: &'a [u8], token: &Token) -> &'a [u8] {
    let start = token.span.start as usize;
    bytes_between(text, start, start + token.span.len as usize)
}

impl Named {
    /// The name with another identifier in place of the last one, which is in lower case.
    ///
    /// # Errors
    ///
    /// `NoMemory` if the allocator refuses memory.
    pub(crate) fn with_last(&self, alloc: Global, last: &[u8]) -> Result<Named, NoMemory> {
        let before = bytes_between(
            self.key.as_slice(),
            0,
            self.key.len().saturating_sub(self.last.len()),
        );
        let key = joined(alloc, before, last)?;
        named_so(alloc, key, last, self.first, self.token)
    }

    // The name, of which this is declared.
    fn defining(self, defined: Option<Vec<u8>>) -> Named {
        let Named {
            key,
            last,
            name,
            first,
            token,
            defined: _,
        } = self;
        Named {
            key,
            last,
            name,
            first,
            token,
            defined,
        }
    }
}

fn joined(alloc: Global, before: &[u8], last: &[u8]) -> Result<Vec<u8>, NoMemory> {
    let mut key = Vec::from_slice(alloc, before)?;
    key.extend_from_slice(last)?;
    Ok(key)
}

// A name of this key, with dots, and this last identifier.
pub(crate) fn named_so(
    alloc: Global,
    key: Vec<u8>,
    last: &[u8],
    first: Place,
    token: Token,
) -> Result<Named, NoMemory> {
    let name = expression_of(alloc, key.as_slice(), first)?;
    match Vec::from_slice(alloc, last) {
        Ok(last) => Ok(Named {
            key,
            last,
            name,
            first,
            token,
            defined: None,
        }),
        Err(_) => Err(NoMemory),
    }
}

// The offset of the first dot from here on; the length where there is none.
fn dot_from(key: &[u8], start: usize) -> usize {
    for i in start..key.len() {
        if key[i] == b'.' {
            return i;
        }
    }
    key.len()
}

// A name of these bytes, with dots.
fn expression_of(alloc: Global, key: &[u8], place: Place) -> Result<Expression, NoMemory> {
    let mut end = dot_from(key, 0);
    let mut name = Expression::Name(identifier_of(alloc, bytes_between(key, 0, end), place)?);
    for _ in 0..key.len() {
        if end >= key.len() {
            return Ok(name);
        }
        let start = end + 1;
        end = dot_from(key, start);
        name = longer(alloc, name, bytes_between(key, start, end), place)?;
    }
    Ok(name)
}

fn identifier_of(alloc: Global, spelling: &[u8], place: Place) -> Result<Identifier, NoMemory> {
    let name = IdentifierName::of_spelling(alloc, spelling)?;
    Ok(Identifier { name, place })
}

// With one more identifier behind a dot.
fn longer(
    alloc: Global,
    prefix: Expression,
    spelling: &[u8],
    place: Place,
) -> Result<Expression, NoMemory> {
    match identifier_of(alloc, spelling, place) {
        Ok(selector) => selected(alloc, prefix, selector),
        Err(_) => {
            drop(prefix);
            Err(NoMemory)
        }
    }
}

fn selected(
    alloc: Global,
    prefix: Expression,
    selector: Identifier,
) -> Result<Expression, NoMemory> {
    let part = NamePart::Selector(selector);
    match Box::new(alloc, Longer { prefix, part }) {
        Ok(longer) => Ok(Expression::Longer(longer)),
        Err(_) => Err(NoMemory),
    }
}

pub(crate) fn is_identifier(token: &Token) -> bool {
    matches!(token.kind, Kind::Identifier)
}

fn is_dot(token: &Token) -> bool {
    matches!(token.kind, Kind::Delimiter(Delimiter::Dot))
}

fn is_apostrophe(token: &Token) -> bool {
    matches!(token.kind, Kind::Delimiter(Delimiter::Apostrophe))
}

// Whether an identifier names an attribute.
fn is_attribute(tokens: &[Token], at: usize) -> bool {
    at > 0 && at <= tokens.len() && is_apostrophe(&tokens[at - 1])
}

// Whether an offset is in a lexeme, or at its end.
fn is_around(token: &Token, offset: usize) -> bool {
    let start = token.span.start as usize;
    start <= offset && offset <= start + token.span.len as usize
}

// The number of the identifier at an offset, or of that which ends there.
fn token_at(tokens: &[Token], offset: usize) -> Option<usize> {
    for i in 0..tokens.len() {
        if is_around(&tokens[i], offset) && is_identifier(&tokens[i]) && !is_attribute(tokens, i) {
            return Some(i);
        }
    }
    None
}

// The number of the identifier before this one, over a dot.
fn name_before(tokens: &[Token], at: usize) -> Option<usize> {
    if at < 2 || at >= tokens.len() {
        return None;
    }
    if is_dot(&tokens[at - 1]) && is_identifier(&tokens[at - 2]) {
        Some(at - 2)
    } else {
        None
    }
}

// The number of the first identifier of the name that ends with this one.
fn first_of(tokens: &[Token], at: usize) -> usize {
    let mut first = at;
    for _ in 0..at {
        match name_before(tokens, first) {
            Some(before) => first = before,
            None => return first,
        }
    }
    first
}

fn key_of(alloc: Global, text: &[u8], tokens: &[Token]) -> Result<Vec<u8>, NoMemory> {
    let mut key = Vec::new(alloc);
    for token in tokens {
        if is_dot(token) {
            key.push(b'.')?;
        } else {
            key.extend_from_slice(folded(alloc, bytes_of(text, token))?.as_slice())?;
        }
    }
    Ok(key)
}

fn is_comma(token: &Token) -> bool {
    matches!(token.kind, Kind::Delimiter(Delimiter::Comma))
}

fn is_colon(token: &Token) -> bool {
    matches!(token.kind, Kind::Delimiter(Delimiter::Colon))
}

// The number of the identifier behind the comma of this number.
fn name_behind(tokens: &[Token], comma: usize) -> Option<usize> {
    if comma >= tokens.len() || !is_comma(&tokens[comma]) {
        return None;
    }
    let next = comma + 1;
    if next < tokens.len() && is_identifier(&tokens[next]) {
        Some(next)
    } else {
        None
    }
}

// The number of the colon behind the identifiers of which this one is.
fn colon_behind(tokens: &[Token], at: usize) -> Option<usize> {
    let mut next = at.saturating_add(1);
    for _ in at..tokens.len() {
        match name_behind(tokens, next) {
            Some(name) => next = name.saturating_add(1),
            None => break,
        }
    }
    if next < tokens.len() && is_colon(&tokens[next]) {
        Some(next)
    } else {
        None
    }
}

fn ends_declaration(token: &Token) -> bool {
    match token.kind {
        Kind::Delimiter(Delimiter::Semicolon) => true,
        Kind::Delimiter(Delimiter::RightParenthesis) => true,
        Kind::Delimiter(Delimiter::Assign) => true,
        _ => false,
    }
}

// What stands from the colon on behind an identifier, up to the end of the declaration or its value.
fn defined_at(
    alloc: Global,
    text: &[u8],
    tokens: &[Token],
    at: usize,
) -> Result<Option<Vec<u8>>, NoMemory> {
    let Some(colon) = colon_behind(tokens, at) else {
        return Ok(None);
    };
    let mut words = Vec::new(alloc);
    for token in tokens_between(tokens, at, at.saturating_add(1)) {
        words.extend_from_slice(bytes_of(text, token))?;
    }
    for token in tokens_between(tokens, colon, tokens.len()) {
        if ends_declaration(token) {
            return Ok(Some(words));
        }
        words.push(b' ')?;
        words.extend_from_slice(bytes_of(text, token))?;
    }
    Ok(Some(words))
}

// The name that ends with the identifier of this number.
fn named_at(
    alloc: Global,
    text: &[u8],
    tokens: &[Token],
    at: usize,
) -> Result<Option<Named>, NoMemory> {
    let first = first_of(tokens, at);
    if at >= tokens.len() || first >= tokens.len() {
        return Ok(None);
    }
    let key = key_of(alloc, text, tokens_between(tokens, first, at + 1))?;
    let last = folded(alloc, bytes_of(text, &tokens[at]))?;
    let named = named_so(
        alloc,
        key,
        last.as_slice(),
        tokens[first].span.place,
        tokens[at],
    )?;
    Ok(Some(named))
}

// .. with what is declared of it.
fn named_with(
    alloc: Global,
    text: &[u8],
    tokens: &[Token],
    at: usize,
) -> Result<Option<Named>, NoMemory> {
    let defined = defined_at(alloc, text, tokens, at)?;
    match named_at(alloc, text, tokens, at)? {
        Some(named) => Ok(Some(named.defining(defined))),
        None => Ok(None),
    }
}

/// A source of more bytes isn't cut into lexemes.
const MAX_SOURCE: usize = 4_294_967_294;

/// The lexemes of a text; none where it isn't cut into lexemes.
///
/// # Errors
///
/// `NoMemory` if the allocator refuses memory.
pub(crate) fn tokens_of(alloc: Global, text: &[u8]) -> Result<Vec<Token>, NoMemory> {
    if text.len() > MAX_SOURCE {
        return Ok(Vec::new(alloc));
    }
    match lex(alloc, text) {
        Ok(tokens) => Ok(tokens),
        Err(LexError::Fault(_)) => Ok(Vec::new(alloc)),
        Err(LexError::NoMemory) => Err(NoMemory),
    }
}

/// The name that ends with the identifier at an offset; none where no identifier is there, or the text isn't cut into lexemes.
///
/// # Errors
///
/// `NoMemory` if the allocator refuses memory.
pub fn name_at(alloc: Global, text: &[u8], offset: usize) -> Result<Option<Named>, NoMemory> {
    let tokens = tokens_of(alloc, text)?;
    match token_at(tokens.as_slice(), offset) {
        Some(at) => named_with(alloc, text, tokens.as_slice(), at),
        None => Ok(None),
    }
}

// Whether the lexeme of this number is an identifier that is spelt so.
fn is_spelt(text: &[u8], tokens: &[Token], at: usize, last: &[u8]) -> bool {
    at < tokens.len()
        && is_identifier(&tokens[at])
        && !is_attribute(tokens, at)
        && bytes_of(text, &tokens[at]).eq_ignore_ascii_case(last)
}

/// All names of a text that end with this identifier, in lower case.
///
/// # Errors
///
/// `NoMemory` if the allocator refuses memory.
pub fn identifiers_in(alloc: Global, text: &[u8], last: &[u8]) -> Result<Vec<Named>, NoMemory> {
    let tokens = tokens_of(alloc, text)?;
    let mut names = Vec::new(alloc);
    for at in 0..tokens.len() {
        if is_spelt(text, tokens.as_slice(), at, last) {
            if let Some(named) = named_with(alloc, text, tokens.as_slice(), at)? {
                names.push(named)?;
            }
        }
    }
    Ok(names)
}
