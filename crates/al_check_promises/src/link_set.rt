// Sets of links.
ghost use Rattle.std.specs.Prelude.{◌≡◌, [], ◌∷◌, false, OnOk};
ghost use Rattle.al_view.specs.ViewUses.{link};
ghost use Rattle.al_view.specs.declared.link.LinkSymbol.{LinkSymbol};
ghost use Rattle.al_check_promises.specs.Links.{Gains, has_link, of_kind};

use crate::symbol_set::SymbolSet;
use al_base::NoMemory;
use al_view::{LinkKind, Symbol};
use std::alloc::Global;

/// A set of links: each is in it once, and is found by hashing.
pub struct LinkSet {
    code: SymbolSet,
    gates: SymbolSet,
    entry_bodies: SymbolSet,
    flags: SymbolSet,
    words: SymbolSet,
    protected_objects: SymbolSet,
}

impl Drop for LinkSet {
    fn drop(self) {
        let LinkSet {
            code: _,
            gates: _,
            entry_bodies: _,
            flags: _,
            words: _,
            protected_objects: _,
        } = self;
    }
}

impl LinkSet {
    /// The empty set. It takes no memory.
    pub fn new(alloc: Global) -> LinkSet
        ensures { (x : LinkSymbol) → has_link result x ≡ false }
    {
        LinkSet {
            code: SymbolSet::new(alloc),
            gates: SymbolSet::new(alloc),
            entry_bodies: SymbolSet::new(alloc),
            flags: SymbolSet::new(alloc),
            words: SymbolSet::new(alloc),
            protected_objects: SymbolSet::new(alloc),
        }
    }

    /// The symbols of the links of this kind.
    fn of(&self, kind: LinkKind) -> &SymbolSet
        ensures { result.now ≡ of_kind self.now kind }
    {
        match kind {
            LinkKind::Code => &self.code,
            LinkKind::Gate => &self.gates,
            LinkKind::EntryBody => &self.entry_bodies,
            LinkKind::Flag => &self.flags,
            LinkKind::Data => &self.words,
            LinkKind::Protected => &self.protected_objects,
        }
    }

    /// Whether the link of this kind of the declaration with this symbol is in the set.
    pub fn contains(&self, kind: LinkKind, symbol: &Symbol) -> bool
        ensures { result ≡ has_link self.now (link kind symbol.now) }
    {
        self.of(kind).contains(symbol)
    }

    /// Adds the link of this kind of the declaration with this symbol, unless it is in the set.
    ///
    /// # Errors
    /// `NoMemory` if the allocator refuses memory.
    pub fn insert(&mut self, kind: LinkKind, symbol: &Symbol) -> Result<(), NoMemory>
        ensures { OnOk result (Gains self.old self.new (link kind symbol.now ∷ [])) }
    {
        match kind {
            LinkKind::Code => self.code.insert(symbol),
            LinkKind::Gate => self.gates.insert(symbol),
            LinkKind::EntryBody => self.entry_bodies.insert(symbol),
            LinkKind::Flag => self.flags.insert(symbol),
            LinkKind::Data => self.words.insert(symbol),
            LinkKind::Protected => self.protected_objects.insert(symbol),
        }
    }
}
