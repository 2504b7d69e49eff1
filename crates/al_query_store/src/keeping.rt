// The marks of what is held, taken over or put back.
ghost use Rattle.std.specs.Prelude.{◌≡◌, ℕ, nat_eq, if◌then◌else◌};
ghost use Rattle.std.specs.List.{list_any};
ghost use Rattle.std.specs.Option.{option_map};
ghost use Rattle.slab.specs.Slab.{get};
ghost use Rattle.al_query_store.specs.Stored.{base, kept, settled};

use crate::slots::Held;
use slab::Slab;

impl<E> Held<E> {
    /// The marks of now are those of the last build from here on.
    fn keep(&mut self)
        ensures { self.new ≡ kept self.old }
    {
        self.marks.keep();
    }

    /// The marks of now are those of the last build again.
    fn put_back(&mut self)
        ensures { self.new ≡ base self.old }
    {
        self.marks.put_back();
    }

    /// Settles the entry, with the marks that it was made with.
    fn settle(&mut self)
        ensures { self.new ≡ settled self.old }
    {
        self.is_settled = true;
        self.marks.put_back();
    }
}

/// Settles what is held under a key.
pub(crate) fn settle_one<E>(entries: &mut Slab<Held<E>>, key: usize)
    ensures { (k : ℕ) → get entries.new k ≡ (if nat_eq k key then option_map settled (get entries.old k) else get entries.old k) }
{
    let Some(held) = entries.get_mut(key) else {
        return;
    };
    held.settle();
}

/// Takes over the marks of now of what is held under a key.
fn keep_one<E>(entries: &mut Slab<Held<E>>, key: usize)
    ensures { (k : ℕ) → get entries.new k ≡ (if nat_eq k key then option_map kept (get entries.old k) else get entries.old k) }
{
    let Some(held) = entries.get_mut(key) else {
        return;
    };
    held.keep();
}

/// Takes over the marks of now of what is held under these keys. It takes no memory.
pub(crate) fn keep_all<E>(entries: &mut Slab<Held<E>>, keys: &[usize])
    ensures { (k : ℕ) → get entries.new k ≡ (if list_any (nat_eq k) keys.now then option_map kept (get entries.old k) else get entries.old k) }
{
    for key in keys {
        keep_one(entries, *key);
    }
}

/// Puts back the marks of what is held under a key.
fn put_back_one<E>(entries: &mut Slab<Held<E>>, key: usize)
    ensures { (k : ℕ) → get entries.new k ≡ (if nat_eq k key then option_map base (get entries.old k) else get entries.old k) }
{
    let Some(held) = entries.get_mut(key) else {
        return;
    };
    held.put_back();
}

/// Puts back the marks of what is held under these keys. It takes no memory.
pub(crate) fn put_back_all<E>(entries: &mut Slab<Held<E>>, keys: &[usize])
    ensures { (k : ℕ) → get entries.new k ≡ (if list_any (nat_eq k) keys.now then option_map base (get entries.old k) else get entries.old k) }
{
    for key in keys {
        put_back_one(entries, *key);
    }
}
