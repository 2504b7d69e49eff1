// Two marks for each answer of a log.
ghost use Rattle.std.specs.Prelude.{◌≡◌, ◌<◌, ◌↔◌, false, IfOk, IsTrue, Some, length, replicate, slice_get, slice_set};
ghost use Rattle.std.specs.List.{list_any};
ghost use Rattle.al_query_store.specs.Marked.{unmarked};

use al_base::NoMemory;
use std::alloc::Global;
use std::marker::Model;

/// Whether each answer of a log differs: from the answers of the last build, and from those of now.
pub struct Marks {
    last: Vec<bool>,
    now: Vec<bool>,
}

impl Drop for Marks {
    fn drop(self) {
        let Marks { last: _, now: _ } = self;
    }
}

impl Model for Marks {
    ghost use Rattle.std.specs.Prelude.{◌≡◌, length};
    ghost use Rattle.al_query_store.specs.Marked.{Marked};

    ghost Value = { Marked };

    ghost view = { λ m. record { last = m.last.items; now = m.now.items } };

    ghost invariant = { λ m. length m.now.items ≡ length m.last.items };
}

/// So many marks, none of which is set.
fn unset(alloc: Global, len: usize) -> Result<Vec<bool>, NoMemory>
    ensures { IfOk result (λ marks. marks.items ≡ replicate len false) }
{
    let mut marks = Vec::with_capacity(alloc, len)?;
    marks.resize(len, false)?;
    Ok(marks)
}

impl Marks {
    /// Marks of so many answers, none of which differs.
    ///
    /// # Errors
    ///
    /// `NoMemory` if the allocator refuses memory.
    pub fn new(alloc: Global, len: usize) -> Result<Marks, NoMemory>
        ensures { IfOk result (λ marks. marks ≡ unmarked len) }
    {
        let last = unset(alloc, len)?;
        let now = unset(alloc, len)?;
        Ok(Marks { last, now })
    }

    /// Sets a mark of now. It takes no memory.
    pub fn set(&mut self, at: usize, differs: bool)
        requires { at < length self.old.now }
        ensures { self.new ≡ record self.old { now = slice_set self.old.now at differs } }
    {
        self.now[at] = differs;
    }

    /// Whether the mark of now of an answer is this one. It takes no memory.
    pub fn is_now(&self, at: usize, differs: bool) -> bool
        ensures { IsTrue result ↔ slice_get self.entry.now.now at ≡ Some differs }
    {
        match self.now.as_slice().get(at) {
            Some(mark) => *mark == differs,
            None => false,
        }
    }

    /// Whether an answer differs now. It takes no memory.
    pub fn any(&self) -> bool
        ensures { result ≡ list_any (λ b. b) self.entry.now.now }
    {
        self.now.as_slice().iter().any(|differs| *differs)
    }

    /// The marks of now are those of the last build from here on. It takes no memory.
    pub fn keep(&mut self)
        ensures { self.new ≡ record { last = self.old.now; now = self.old.now } }
    {
        self.last.copy_from_slice(self.now.as_slice());
    }

    /// The marks of now are those of the last build again. It takes no memory.
    pub fn put_back(&mut self)
        ensures { self.new ≡ record { last = self.old.last; now = self.old.last } }
    {
        self.now.copy_from_slice(self.last.as_slice());
    }
}
