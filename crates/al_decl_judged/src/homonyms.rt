// How many declarations of each name a unit has so far.
ghost use Rattle.std.specs.Prelude.{◌≡◌, [], IfOk, OnOk, OnErr};
ghost use Rattle.al_decl_judged.specs.Homonyms.{count_of, with_name};

use al_base::NoMemory;
use indexmap::IndexMap;
use std::alloc::Global;
use std::marker::Model;

/// How many declarations of each name there are before a place in the whole unit. A name is found without a walk.
pub struct Homonyms {
    alloc: Global,
    by_name: IndexMap<Vec<u8>, usize>,
}

impl Drop for Homonyms {
    fn drop(self) {
        let Homonyms {
            alloc: _,
            by_name: _,
        } = self;
    }
}

impl Model for Homonyms {
    ghost use Rattle.al_decl_judged.specs.Homonyms.{Counts, counts_of};

    ghost Value = { Counts };

    ghost view = { λ h. counts_of h.by_name.entries };
}

impl Homonyms {
    /// No declarations. It takes no memory.
    pub fn new(alloc: Global) -> Self
        ensures { result ≡ [] }
    {
        Homonyms {
            alloc,
            by_name: IndexMap::new(alloc),
        }
    }

    /// Counts one more declaration of the name. The result is its number: how many there are before it.
    /// # Errors
    /// `NoMemory` if the allocator refuses memory; nothing is counted then.
    pub fn number(&mut self, name: &[u8]) -> Result<usize, NoMemory>
        ensures number { IfOk result (λ number. number ≡ count_of self.old name.now) }
        ensures ok { OnOk result (self.new ≡ with_name self.old name.now) }
        ensures err { OnErr result (self.new ≡ self.old) }
    {
        if let Some(count) = self.by_name.get_mut(name) {
            let number = *count;
            let Some(more) = number.checked_add(1) else {
                return Err(NoMemory);
            };
            *count = more;
            return Ok(number);
        }
        let name = Vec::from_slice(self.alloc, name)?;
        self.by_name.insert(name, 1)?;
        Ok(0)
    }
}
