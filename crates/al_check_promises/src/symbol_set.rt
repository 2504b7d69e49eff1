// Sets of symbols.
ghost use Rattle.std.specs.Prelude.{◌≡◌, ◌||◌, [], OnOk};
ghost use Rattle.std.specs.List.{list_any};
ghost use Rattle.al_view.specs.Symbols.{same_symbol};
ghost use Rattle.al_view.specs.declared.symbol.Symbol.{Symbol};

use al_base::NoMemory;
use al_view::Symbol;
use indexmap::IndexSet;
use std::alloc::Global;
use std::marker::Model;

/// A set of symbols: each is in it once, and is found by hashing.
pub(crate) struct SymbolSet {
    alloc: Global,
    symbols: IndexSet<Symbol>,
}

impl Drop for SymbolSet {
    fn drop(self) {
        let SymbolSet {
            alloc: _,
            symbols: _,
        } = self;
    }
}

impl Model for SymbolSet {
    ghost use Rattle.std.specs.Prelude.{List};
    ghost use Rattle.al_view.specs.declared.symbol.Symbol.{Symbol};

    ghost Value = { List Symbol };

    ghost view = { λ s. s.symbols.keys };
}

impl SymbolSet {
    /// The empty set. It takes no memory.
    pub(crate) fn new(alloc: Global) -> Self
        ensures { result ≡ [] }
    {
        SymbolSet {
            alloc,
            symbols: IndexSet::new(alloc),
        }
    }

    /// Whether the symbol is in the set.
    pub(crate) fn contains(&self, symbol: &Symbol) -> bool
        ensures { result ≡ list_any (same_symbol symbol.now) self.now }
    {
        self.symbols.contains(symbol)
    }

    /// Adds a symbol, unless it is in the set.
    pub(crate) fn insert(&mut self, symbol: &Symbol) -> Result<(), NoMemory>
        ensures { OnOk result ((s : Symbol) → list_any (same_symbol s) self.new ≡ (same_symbol s symbol.now || list_any (same_symbol s) self.old)) }
    {
        if self.contains(symbol) {
            return Ok(());
        }
        let symbol = symbol.copy(self.alloc)?;
        self.symbols.insert(symbol)?;
        Ok(())
    }
}
