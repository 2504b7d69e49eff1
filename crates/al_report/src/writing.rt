// JSON as it is written.
use crate::noted::Noted;
use al_base::Files;
use al_base_words::message_of;
use al_folder::line_at;
use al_sketch::Sketch;
use std::alloc::{AllocError, Global};

/// A text of JSON, as far as it is written.
pub(crate) struct Json {
    alloc: Global,
    text: String,
    /// Whether it is out of memory.
    is_short: bool,
}

impl Drop for Json {
    fn drop(self) {
        let Json {
            alloc: _,
            text: _,
            is_short: _,
        } = self;
    }
}

impl Json {
    /// Nothing yet.
    pub(crate) fn new(alloc: Global) -> Json {
        Json {
            alloc,
            text: String::new(alloc),
            is_short: false,
        }
    }

    /// Goes on with a piece, as it is.
    pub(crate) fn add(&mut self, piece: &str) {
        if self.text.push_str(piece).is_err() {
            self.is_short = true;
        }
    }

    /// Goes on with a piece and a number.
    pub(crate) fn add_number(&mut self, piece: &str, number: usize) {
        self.add(piece);
        match format!(in self.alloc; "{number}") {
            Ok(digits) => self.add(digits.as_str()),
            Err(_no_memory) => self.is_short = true,
        }
    }

    /// Goes on with a piece and a code as it is printed, E402.
    pub(crate) fn add_code(&mut self, piece: &str, code: u16) {
        self.add(piece);
        match format!(in self.alloc; "E{code:03}") {
            Ok(text) => self.add(text.as_str()),
            Err(_no_memory) => self.is_short = true,
        }
    }

    /// Goes on with a piece and what is between the quotes of a string with these bytes; those that are no text are replaced.
    pub(crate) fn add_text(&mut self, piece: &str, bytes: &[u8]) {
        self.add(piece);
        match String::from_utf8_lossy(self.alloc, bytes) {
            Ok(text) => self.add_letters(text.as_str()),
            Err(_no_memory) => self.is_short = true,
        }
    }

    fn add_letters(&mut self, text: &str) {
        for letter in text.chars() {
            match letter {
                '"' => self.add("\\\""),
                '\\' => self.add("\\\\"),
                '\0'..='\u{1f}' => self.add_control(letter),
                _ => self.add_letter(letter),
            }
        }
    }

    fn add_letter(&mut self, letter: char) {
        if self.text.push(letter).is_err() {
            self.is_short = true;
        }
    }

    fn add_control(&mut self, letter: char) {
        match letter {
            '\u{8}' => self.add("\\b"),
            '\t' => self.add("\\t"),
            '\n' => self.add("\\n"),
            '\u{c}' => self.add("\\f"),
            '\r' => self.add("\\r"),
            _ => match format!(in self.alloc; "\\u{:04x}", u32::from(letter)) {
                Ok(code) => self.add(code.as_str()),
                Err(_no_memory) => self.is_short = true,
            },
        }
    }

    /// Goes on with a piece and FOLDER/FILE; without the folder where that is the present one.
    pub(crate) fn add_path(&mut self, piece: &str, folders: &Files, file: &[u8]) {
        match path_of(self.alloc, folders, file) {
            Ok(path) => self.add_text(piece, path.as_slice()),
            Err(_no_memory) => self.is_short = true,
        }
    }

    /// Goes on with a piece and FOLDER/FILE as a reference of a URI: bytes that its paths don't have are written as %XX (RFC 3986, 2.1).
    pub(crate) fn add_uri(&mut self, piece: &str, folders: &Files, file: &[u8]) {
        self.add(piece);
        match path_of(self.alloc, folders, file) {
            Ok(path) => self.add_escaped(path.as_slice()),
            Err(_no_memory) => self.is_short = true,
        }
    }

    fn add_escaped(&mut self, path: &[u8]) {
        match String::from_utf8_lossy(self.alloc, path) {
            Ok(text) => self.add_uri_bytes(text.as_bytes()),
            Err(_no_memory) => self.is_short = true,
        }
    }

    fn add_uri_bytes(&mut self, path: &[u8]) {
        for byte in path {
            if byte.is_ascii_alphanumeric() || matches!(*byte, b'/' | b'.' | b'-' | b'_' | b'~') {
                self.add_letter(char::from(*byte));
            } else {
                self.add_percent(*byte);
            }
        }
    }

    fn add_percent(&mut self, byte: u8) {
        match format!(in self.alloc; "%{:02X}", byte) {
            Ok(code) => self.add(code.as_str()),
            Err(_no_memory) => self.is_short = true,
        }
    }

    /// Goes on with a piece and the column behind the lexeme at the place of a diagnostic; the place's own where none is there.
    pub(crate) fn add_end_col(&mut self, piece: &str, texts: &Files, noted: &Noted<'_>) {
        match end_col(self.alloc, texts, noted) {
            Ok(col) => self.add_number(piece, col),
            Err(_no_memory) => self.is_short = true,
        }
    }

    /// The text.
    ///
    /// # Errors
    ///
    /// If memory ran out for a piece of it.
    pub(crate) fn into_text(self) -> Result<String, AllocError> {
        let Json {
            alloc: _,
            text,
            is_short,
        } = self;
        if is_short { Err(AllocError) } else { Ok(text) }
    }
}

// FOLDER/FILE; without the folder where that is the present one.
fn path_of(alloc: Global, folders: &Files, file: &[u8]) -> Result<Vec<u8>, AllocError> {
    let mut path = Vec::new(alloc);
    let folder = folders.get(file).unwrap_or(b".");
    if folder != b".".as_slice() {
        path.extend_from_slice(folder)?;
    }
    if folder != b".".as_slice() && folder != b"/".as_slice() {
        path.push(b'/')?;
    }
    path.extend_from_slice(file)?;
    Ok(path)
}

/// What the rule of a code says, without the code.
pub(crate) fn words_of(code: u16) -> &'static [u8] {
    let message = message_of(code);
    message.get(5..).unwrap_or(message)
}

fn end_col(alloc: Global, texts: &Files, noted: &Noted<'_>) -> Result<usize, AllocError> {
    let place = noted.diagnostic.place;
    let text = texts.get(noted.diagnostic.file.as_slice()).unwrap_or(&[]);
    let line = line_at(place.line, text);
    let before = place.col.saturating_sub(1);
    let rest = line.get(before as usize..).unwrap_or(&[]);
    let sketch = Sketch::of(alloc, rest)?;
    let width = match sketch.lexeme(0) {
        Some(lexeme) if lexeme.start == 0 => lexeme.end,
        _ => 0,
    };
    Ok(width.saturating_add(place.col as usize))
}
