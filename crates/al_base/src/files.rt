// A finite map from file names to sources.
ghost use Rattle.std.specs.Prelude.{◌≡◌, [], length, map, IfOk, OnOk, OnErr, slice_get};
ghost use Rattle.std.specs.Option.{option_copied, option_map};
ghost use Rattle.al_base.specs.FileLaws.{Ascend};
ghost use Rattle.al_base.specs.Files.{AreFiles, text_of, with_file, without_file, with_renamed, put_refusal, delete_refusal, rename_refusal, AnswersRefusal, AnswersFirst};

use crate::is_file_name;
use crate::refusal::{NoMemory, Refusal};
use std::alloc::{AllocError, Global};
use std::collections::BTreeMap;
use std::marker::Model;
use std::rc::Rc;

/// The most files that a library may have.
pub const MAX_FILES: usize = 4096;

/// The most bytes that a file may have.
pub const MAX_TEXT: usize = 1_048_576;

/// A finite map from file names to sources, in the order of the names' bytes. Copies share the sources.
pub struct Files {
    alloc: Global,
    texts: BTreeMap<Vec<u8>, Rc<Vec<u8>>>,
}

impl Drop for Files {
    fn drop(self) {
        let Files { alloc: _, texts: _ } = self;
    }
}

impl Model for Files {
    ghost use Rattle.al_base.specs.Files.{Texts, AreFiles};
    ghost use Rattle.al_base.specs.Pairs.{pairs_of};

    ghost Value = { Texts };

    ghost view = { λ f. pairs_of f.texts.entries };

    ghost invariant = { λ f. AreFiles (pairs_of f.texts.entries) };
}

impl Files {
    /// A map without files. It takes no memory.
    pub fn new(alloc: Global) -> Self
        ensures { result ≡ [] }
    {
        Files {
            alloc,
            texts: BTreeMap::new(alloc),
        }
    }

    /// How many files there are.
    pub fn len(&self) -> usize
        ensures { result ≡ length self.now }
    {
        self.texts.len()
    }

    /// A map with the same files. The sources aren't copied.
    ///
    /// # Errors
    ///
    /// `NoMemory` if the allocator refuses memory.
    pub fn copy(&self) -> Result<Files, NoMemory>
        ensures { IfOk result (λ files. files ≡ self.now) }
    {
        match self.texts.clone() {
            Ok(texts) => Ok(Files {
                alloc: self.alloc,
                texts,
            }),
            Err(_) => Err(NoMemory),
        }
    }

    /// The source in a file.
    pub fn get(&self, name: &[u8]) -> Option<&[u8]>
        ensures { option_map (λ text. text.now) result ≡ text_of self.now name.now }
    {
        Some(self.texts.get(name)?.as_slice())
    }

    /// The i-th file by name, from 0: its name and its source.
    pub fn at(&self, i: usize) -> Option<(&[u8], &[u8])>
        ensures { option_map (λ file. (file.0.now, file.1.now)) result ≡ slice_get self.now i }
    {
        let (name, text) = self.texts.iter().nth(i)?;
        Some((name.as_slice(), text.as_slice()))
    }

    /// The names and sources of all files, by name.
    ///
    /// # Errors
    ///
    /// `NoMemory` if the allocator refuses memory.
    pub fn list(&self) -> Result<Vec<(&[u8], &[u8])>, NoMemory>
        ensures { IfOk result (λ list. map (λ f. (f.0.now, f.1.now)) list.items ≡ self.now) }
    {
        let mut list = Vec::with_capacity(self.alloc, self.texts.len())?;
        for (name, text) in self.texts.iter() {
            list.push((name.as_slice(), text.as_slice()))?;
        }
        Ok(list)
    }

    /// The names and sources of all files, by name. The sources may be shared. The names ascend.
    ///
    /// # Errors
    ///
    /// `NoMemory` if the allocator refuses memory.
    pub fn shared(&self) -> Result<Vec<(&[u8], &Rc<Vec<u8>>)>, NoMemory>
        ensures list { IfOk result (λ list. map (λ f. (f.0.now, f.1.now.value.items)) list.items ≡ self.now) }
        ensures ascend { Ascend self.now }
        ensures files { AreFiles self.now }
    {
        let mut list = Vec::with_capacity(self.alloc, self.texts.len())?;
        for (name, text) in self.texts.iter() {
            list.push((name.as_slice(), text))?;
        }
        Ok(list)
    }

    /// Whether a file of this name and of this many bytes could be put, but for memory.
    ///
    /// # Errors
    ///
    /// `BadName` if the name is not that of a source file; else `TextTooLong` if the file would have more than `MAX_TEXT` bytes;
    /// else `TooManyFiles` if it would be new and there are `MAX_FILES` already.
    #[tactic(auto, unfolding(crate::specs::Files::put_refusal))]
    pub fn check_put(&self, name: &[u8], len: usize) -> Result<(), Refusal>
        ensures { AnswersRefusal result (put_refusal self.now name.now len) }
    {
        if !is_file_name(name) {
            return Err(Refusal::BadName);
        }
        if len > MAX_TEXT {
            return Err(Refusal::TextTooLong);
        }
        if self.texts.get(name).is_none() && self.texts.len() >= MAX_FILES {
            return Err(Refusal::TooManyFiles);
        }
        Ok(())
    }

    /// Sets what a file holds. The file may be new.
    ///
    /// # Errors
    ///
    /// The refusals of `check_put`, in its order; else `NoMemory` if the allocator refuses memory. The files stay as they were.
    #[tactic(auto, unfolding(crate::specs::Files::put_refusal))]
    pub fn put(&mut self, name: &[u8], text: Vec<u8>) -> Result<(), Refusal>
        ensures answer { AnswersFirst result (put_refusal self.old name.now (length text.items)) }
        ensures ok { OnOk result (self.new ≡ with_file self.old name.now text.items) }
        ensures err { OnErr result (self.new ≡ self.old) }
    {
        if let Err(refusal) = self.check_put(name, text.len()) {
            return Err(refusal);
        }
        let Ok(name) = Vec::from_slice(self.alloc, name) else {
            return Err(Refusal::NoMemory);
        };
        let Ok(text) = Rc::new(self.alloc, text) else {
            return Err(Refusal::NoMemory);
        };
        let Ok(_) = self.texts.insert(name, text) else {
            return Err(Refusal::NoMemory);
        };
        Ok(())
    }

    /// Removes a file. It takes no memory.
    ///
    /// # Errors
    ///
    /// `BadName` if the name is not that of a source file; else `NoFile` if there is no such file. The files stay as they were.
    #[tactic(auto, unfolding(crate::specs::Files::delete_refusal))]
    pub fn delete(&mut self, name: &[u8]) -> Result<(), Refusal>
        ensures answer { AnswersRefusal result (delete_refusal self.old name.now) }
        ensures ok { OnOk result (self.new ≡ without_file self.old name.now) }
        ensures err { OnErr result (self.new ≡ self.old) }
    {
        if !is_file_name(name) {
            return Err(Refusal::BadName);
        }
        match self.texts.remove(name) {
            Some(_) => Ok(()),
            None => Err(Refusal::NoFile),
        }
    }

    /// Gives a file another name, which no file has. What it holds isn't copied, and the steps that can fail for memory come first.
    ///
    /// # Errors
    ///
    /// The refusals of `check_rename`, in its order; else `NoMemory` if the allocator refuses memory. The files stay as they were.
    pub fn rename(&mut self, old: &[u8], new: &[u8]) -> Result<(), Refusal>
        ensures answer { AnswersFirst result (rename_refusal self.old old.now new.now) }
        ensures ok { OnOk result (self.new ≡ with_renamed self.old old.now new.now) }
        ensures err { OnErr result (self.new ≡ self.old) }
    {
        if let Err(refusal) = self.check_rename(old, new) {
            return Err(refusal);
        }
        let Ok(text) = self.texts.get(old).unwrap().clone() else {
            return Err(Refusal::NoMemory);
        };
        let Ok(name) = Vec::from_slice(self.alloc, new) else {
            return Err(Refusal::NoMemory);
        };
        let Ok(_) = self.texts.insert(name, text) else {
            return Err(Refusal::NoMemory);
        };
        self.texts.remove(old);
        Ok(())
    }

    /// Whether a file could be renamed, but for memory.
    ///
    /// # Errors
    ///
    /// `BadName` if either name is not that of a source file; else `NoFile` if there is no file of the old name; else `FileExists`
    /// if there is one of the new name.
    pub fn check_rename(&self, old: &[u8], new: &[u8]) -> Result<(), Refusal>
        ensures { AnswersRefusal result (rename_refusal self.now old.now new.now) }
    {
        if !is_file_name(old) || !is_file_name(new) {
            return Err(Refusal::BadName);
        }
        if self.texts.get(old).is_none() {
            return Err(Refusal::NoFile);
        }
        if self.texts.get(new).is_some() {
            return Err(Refusal::FileExists);
        }
        Ok(())
    }
}
