// Entries in a slab.
ghost use Rattle.std.specs.Prelude.{◌≡◌, ℕ, [], IfOk, IsTrue, OnOk, OnErr, None, Some, nat_eq, if◌then◌else◌};
ghost use Rattle.std.specs.Option.{option_copied, option_map};
ghost use Rattle.slab.specs.Slab.{get, SameValues, Updates};
ghost use Rattle.al_query_store.specs.Reads.{same_place};
ghost use Rattle.al_query_store.specs.Counting.{IsCount};
ghost use Rattle.al_query_store.specs.Marking.{IsMarked, IsSized, answer_at, is_of};
ghost use Rattle.al_query_store.specs.Stored.{HaveLastMarks, SameBase, base, fresh, kept, settled};

use crate::Readers;
use crate::keeping::{keep_all, put_back_all, settle_one};
use crate::logged::Logged;
use crate::logs::{enter, withdraw};
use crate::marking::mark_places;
use crate::marks::Marks;
use al_base::{NoMemory, UnitKey};
use al_query::Answers;
use slab::Slab;
use std::alloc::Global;
use std::marker::Model;

/// An entry with its marks. One that isn't settled was made by a build that hasn't ended.
pub struct Held<E> {
    /// The entry.
    pub entry: E,
    /// Which of its answers differ.
    pub marks: Marks,
    /// Whether the build that made it has ended.
    pub is_settled: bool,
}

impl<E: Drop> Drop for Held<E> {
    fn drop(self) {
        let Held {
            entry: _,
            marks: _,
            is_settled: _,
        } = self;
    }
}

/// Entries by key, with an index from each question to the places of its answers: of all entries' answers, and of no others.
pub struct Slots<E: Logged> {
    alloc: Global,
    entries: Slab<Held<E>>,
    readers: Readers,
    /// The keys of entries whose marks of now may differ from the last build's: a key is noted when a mark of now changes.
    touched: Vec<usize>,
}

impl<E: Logged + Drop> Drop for Slots<E> {
    fn drop(self) {
        let Slots {
            alloc: _,
            entries: _,
            readers: _,
            touched: _,
        } = self;
    }
}

impl<E: Logged> Model for Slots<E> {
    ghost use Rattle.slab.specs.Slab.{Slab};
    ghost use Rattle.al_query_store.specs.declared.slots.Held.{Held};
    ghost use Rattle.al_query_store.specs.Stored.{AreUntouched, IsIndexed};

    ghost Value = { Slab (Held E) };

    ghost view = { λ s. s.entries };

    ghost invariant = { λ s. IsIndexed E.log s.entries s.readers × AreUntouched s.entries s.touched.items };
}

impl<E: Logged> Slots<E> {
    /// A store without entries. It takes no memory.
    pub fn new(alloc: Global) -> Self
        ensures { result.slots ≡ [] }
    {
        Slots {
            alloc,
            entries: Slab::new(alloc),
            readers: Readers::new(alloc),
            touched: Vec::new(alloc),
        }
    }

    /// What is held under a key.
    pub fn get(&self, key: usize) -> Option<&Held<E>>
        ensures { option_copied result ≡ get self.now key }
    {
        self.entries.get(key)
    }

    /// Holds an entry under a new key, which it gives. No mark is set, and the entry isn't settled.
    ///
    /// # Errors
    ///
    /// `NoMemory` if the allocator refuses memory. Nothing has changed then.
    pub fn insert(&mut self, entry: E) -> Result<usize, NoMemory>
        ensures vacant { IfOk result (λ key. get self.old key ≡ None) }
        ensures ok { IfOk result (λ key. Updates self.old self.new key (Some (fresh E.log entry))) }
        ensures err { OnErr result (SameValues self.old self.new) }
    {
        let marks = Marks::new(self.alloc, entry.log().len())?;
        self.entries.reserve(1)?;
        let key = self.entries.vacant_key();
        enter(&mut self.readers, entry.log(), key)?;
        Ok(
            self.entries.insert_reserved(Held {
                entry,
                marks,
                is_settled: false,
            }),
        )
    }

    /// Drops what is held under a key. It takes no memory.
    pub fn remove(&mut self, key: usize)
        ensures { Updates self.old self.new key None }
    {
        if let Some(held) = self.entries.try_remove(key) {
            withdraw(&mut self.readers, held.entry.log(), key);
        }
    }

    /// What is held under a key is settled from here on, with the marks that it was made with. It takes no memory.
    pub fn settle(&mut self, key: usize)
        ensures { (k : ℕ) → get self.new k ≡ (if nat_eq k key then option_map settled (get self.old k) else get self.old k) }
    {
        settle_one(&mut self.entries, key);
    }

    /// Compares the stored answers of settled entries to the questions of a unit with the answers of now, and marks each by whether
    /// it differs. The result is how many answers were compared.
    ///
    /// # Errors
    ///
    /// `NoMemory` if the allocator refuses memory. All is then as before but for marks of now.
    pub fn mark<A: Answers>(&mut self, unit: &UnitKey, asked: &A) -> Result<usize, NoMemory>
        ensures base { SameBase self.old self.new }
        ensures sized { IsSized E.log self.new }
        ensures counted { IfOk result (λ n. IsCount same_place (λ p. is_of unit.now (answer_at E.log self.old p)) n) }
        ensures marked { OnOk result (IsMarked E.log (A.table asked.now) (λ p. is_of unit.now (answer_at E.log self.old p)) self.old self.new) }
    {
        let places = self.readers.of_unit(unit)?;
        let compared = mark_places(
            &mut self.entries,
            &mut self.touched,
            unit,
            places.as_slice(),
            asked,
        )?;
        Ok(compared)
    }

    /// Whether it is known that no mark of now differs from the last build's. It takes no memory.
    pub fn is_untouched(&self) -> bool
        ensures { IsTrue result → HaveLastMarks self.now }
    {
        self.touched.is_empty()
    }

    /// The marks of now are those of the last build from here on. It takes no memory.
    pub fn keep_marks(&mut self)
        ensures { (k : ℕ) → get self.new k ≡ option_map kept (get self.old k) }
    {
        keep_all(&mut self.entries, self.touched.as_slice());
        self.touched.clear();
    }

    /// The marks of now are those of the last build again. It takes no memory.
    pub fn put_back_marks(&mut self)
        ensures { (k : ℕ) → get self.new k ≡ option_map base (get self.old k) }
    {
        put_back_all(&mut self.entries, self.touched.as_slice());
        self.touched.clear();
    }
}
