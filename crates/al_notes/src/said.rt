// Notes as they are written.
use std::alloc::{AllocError, Global};

/// What is said of one diagnostic, a line each.
pub struct Said {
    alloc: Global,
    lines: Vec<Vec<u8>>,
    /// The line that is being written.
    line: Vec<u8>,
    /// Whether it is out of memory.
    is_short: bool,
}

impl Drop for Said {
    fn drop(self) {
        let Said {
            alloc: _,
            lines: _,
            line: _,
            is_short: _,
        } = self;
    }
}

impl Said {
    /// No sentences.
    pub fn new(alloc: Global) -> Said {
        Said {
            alloc,
            lines: Vec::new(alloc),
            line: Vec::new(alloc),
            is_short: false,
        }
    }

    /// Whether nothing is said yet.
    pub fn is_empty(&self) -> bool {
        self.lines.is_empty()
    }

    /// How many lines there are.
    pub fn count(&self) -> usize {
        self.lines.len()
    }

    /// Goes on with the line.
    pub fn add(&mut self, piece: &[u8]) {
        if self.line.extend_from_slice(piece).is_err() {
            self.is_short = true;
        }
    }

    /// Goes on with two pieces.
    pub fn add_two(&mut self, one: &[u8], two: &[u8]) {
        self.add(one);
        self.add(two);
    }

    /// Goes on with three pieces.
    pub fn add_three(&mut self, one: &[u8], two: &[u8], three: &[u8]) {
        self.add_two(one, two);
        self.add(three);
    }

    /// Goes on with a piece, and ends the line.
    pub fn say(&mut self, one: &[u8]) {
        self.add(one);
        self.end();
    }

    /// Goes on with two pieces, and ends the line.
    pub fn say_two(&mut self, one: &[u8], two: &[u8]) {
        self.add(one);
        self.say(two);
    }

    /// Goes on with three pieces, and ends the line.
    pub fn say_three(&mut self, one: &[u8], two: &[u8], three: &[u8]) {
        self.add_two(one, two);
        self.say(three);
    }

    /// Goes on with a number in digits.
    pub fn add_number(&mut self, number: usize) {
        match format!(in self.alloc; "{number}") {
            Ok(digits) => self.add(digits.as_bytes()),
            Err(_no_memory) => self.is_short = true,
        }
    }

    /// Goes on with FILE:LINE.
    pub fn add_place(&mut self, file: &[u8], line: u32) {
        self.add(file);
        self.add(b":");
        self.add_number(line as usize);
    }

    /// Ends the line.
    pub fn end(&mut self) {
        let line = std::mem::replace(&mut self.line, Vec::new(self.alloc));
        if self.lines.push(line).is_err() {
            self.is_short = true;
        }
    }

    /// What was made for a line, if memory was there for it.
    pub fn made<T: Drop>(&mut self, made: Result<T, AllocError>) -> Option<T> {
        match made {
            Ok(made) => Some(made),
            Err(_no_memory) => {
                self.is_short = true;
                None
            }
        }
    }

    /// What was made for a line, if there is something and memory was there for it.
    pub fn made_some<T: Drop>(&mut self, made: Result<Option<T>, AllocError>) -> Option<T> {
        match made {
            Ok(made) => made,
            Err(_no_memory) => {
                self.is_short = true;
                None
            }
        }
    }

    /// The lines.
    ///
    /// # Errors
    ///
    /// `AllocError` if memory ran out for a piece of one.
    pub fn into_lines(self) -> Result<Vec<Vec<u8>>, AllocError> {
        let Said {
            alloc: _,
            lines,
            line: _,
            is_short,
        } = self;
        if is_short { Err(AllocError) } else { Ok(lines) }
    }
}

/// Says a line of these pieces, one after another, or ends one with them.
#[macro_export]
macro_rules! note {
    ($said:expr; $one:expr) => {
        $said.say($one)
    };
    ($said:expr; $one:expr, $two:expr) => {
        $said.say_two($one, $two)
    };
    ($said:expr; $one:expr, $two:expr, $three:expr) => {
        $said.say_three($one, $two, $three)
    };
    ($said:expr; $one:expr, $two:expr, $three:expr, $($piece:expr),+) => {{
        $said.add_three($one, $two, $three);
        note!($said; $($piece),+)
    }};
}

/// Goes on with these pieces, one after another.
#[macro_export]
macro_rules! add {
    ($said:expr; $one:expr) => {
        $said.add($one)
    };
    ($said:expr; $one:expr, $two:expr) => {
        $said.add_two($one, $two)
    };
    ($said:expr; $one:expr, $two:expr, $three:expr) => {
        $said.add_three($one, $two, $three)
    };
    ($said:expr; $one:expr, $two:expr, $three:expr, $($piece:expr),+) => {{
        $said.add_three($one, $two, $three);
        add!($said; $($piece),+)
    }};
}

/// Says that something isn't in the subset, and where the page of the language has the list.
pub fn say_outside(what: &[u8], said: &mut Said) {
    note!(said; what, b" isn't in this subset of Ada (docs/language.md#what-there-isnt)")
}

/// The bytes in lower case.
///
/// # Errors
///
/// `AllocError` if memory runs out.
pub fn folded(alloc: Global, bytes: &[u8]) -> Result<Vec<u8>, AllocError> {
    let mut whole = Vec::with_capacity(alloc, bytes.len())?;
    for byte in bytes {
        whole.push(byte.to_ascii_lowercase())?;
    }
    Ok(whole)
}
