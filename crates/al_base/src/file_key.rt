// The names of files that can be there, without the allocator's memory.
ghost use Rattle.std.specs.Prelude.{◌≡◌, ◌+◌, ◌<◌, ◌≤◌, ◌++◌, ◌∷◌, [], length, MatchOption, map};
ghost use Rattle.al_base.specs.FileNames.{file_name_of, hyphen_for_dot, with_tilde, ending_of};

use crate::file_name::{ending_of, hyphen_for_dot, put_tilde};
use crate::unit_key::UnitKind;
use std::marker::Model;

/// The longest name of a file.
pub const MAX_NAME: usize = 255;

/// The name of a file in at most 255 bytes. It takes no memory.
pub struct FileKey {
    bytes: [u8; 255],
    len: usize,
}

impl Drop for FileKey {
    fn drop(self) {
        let FileKey { bytes: _, len: _ } = self;
    }
}

impl Model for FileKey {
    ghost use Rattle.std.specs.Prelude.{ℕ, ◌≤◌, List, take};

    ghost Value = { List ℕ };

    ghost view = { λ f. take f.len f.bytes };

    ghost invariant = { λ f. f.len ≤ 255 };
}

impl FileKey {
    /// The name of the file that holds this part of the unit of the name, as `file_name_of` gives it; none if that has more than
    /// 255 bytes.
    #[tactic(auto, unfolding(crate::specs::FileNames::file_name_of))]
    pub fn of(name: &[u8], kind: UnitKind) -> Option<FileKey>
        ensures { MatchOption result (255 < length (file_name_of (name.now, kind))) (λ file. file ≡ file_name_of (name.now, kind)) }
    {
        if name.len() > 251 {
            return None;
        }
        let mut file = FileKey {
            bytes: [0; 255],
            len: 0,
        };
        file.add_hyphened(name);
        file.put_tilde();
        file.add(ending_of(kind));
        Some(file)
    }

    /// Appends a byte.
    fn push(&mut self, byte: u8)
        requires { length self.old < 255 }
        ensures { self.new ≡ self.old ++ byte ∷ [] }
    {
        self.bytes[self.len] = byte;
        self.len += 1;
    }

    /// Appends these bytes, with hyphens for dots.
    fn add_hyphened(&mut self, name: &[u8])
        requires { length self.old + length name.now ≤ 255 }
        ensures { self.new ≡ self.old ++ map hyphen_for_dot name.now }
    {
        for byte in name {
            self.push(hyphen_for_dot(*byte));
        }
    }

    /// Appends these bytes.
    fn add(&mut self, bytes: &[u8])
        requires { length self.old + length bytes.now ≤ 255 }
        ensures { self.new ≡ self.old ++ bytes.now }
    {
        for byte in bytes {
            self.push(*byte);
        }
    }

    /// Puts a tilde for the hyphen after a letter that begins the names of predefined files.
    fn put_tilde(&mut self)
        ensures { self.new ≡ with_tilde self.old }
    {
        put_tilde(&mut self.bytes[..self.len]);
    }

    /// The bytes of the name.
    pub fn as_slice(&self) -> &[u8]
        ensures { result.now ≡ self.now }
    {
        &self.bytes[..self.len]
    }
}
