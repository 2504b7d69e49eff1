// The places of symbols.
ghost use Rattle.std.specs.Prelude.{◌≡◌, ◌+◌, ◌^◌, ◌<◌, [], map, IfOk, OnOk, fold};
ghost use Rattle.std.specs.List.{All};
ghost use Rattle.al_link.specs.Bases.{AreSmall, base_of, next_bases};
ghost use Rattle.al_link.specs.Linking.{places_of, with_address, with_defines};
ghost use Rattle.al_link.specs.Symbols.{place_in};
ghost use Rattle.al_link.specs.Units.{located_model};

use crate::bases::{Bases, base_of};
use crate::units::Located;
use al_base::NoMemory;
use al_code_object::{Address, Compiled};
use al_view::LinkSymbol;
use indexmap::IndexMap;
use std::alloc::Global;
use std::marker::Model;

/// The places of symbols: of code, in bytes of the image's code; of words, among all data words; of protected objects, by their numbers. A symbol is
/// found by hashing.
pub(crate) struct Places {
    alloc: Global,
    by_symbol: IndexMap<LinkSymbol, u32>,
}

impl Drop for Places {
    fn drop(self) {
        let Places {
            alloc: _,
            by_symbol: _,
        } = self;
    }
}

impl Model for Places {
    ghost use Rattle.al_link.specs.Symbols as symbols;

    ghost Value = { symbols.Places };

    ghost view = { λ p. p.by_symbol.entries };
}

impl Places {
    fn new(alloc: Global) -> Places
        ensures { result ≡ [] }
    {
        Places {
            alloc,
            by_symbol: IndexMap::new(alloc),
        }
    }

    // Adds a symbol.
    fn add(&mut self, bases: Bases, define: &Address) -> Result<(), NoMemory>
        requires { base_of bases define.now.symbol.kind + define.now.offset < 2 ^ 32 }
        ensures { OnOk result (self.new ≡ with_address bases self.old define.now) }
    {
        let place = base_of(bases, define.symbol.kind) + define.offset;
        let symbol = LinkSymbol {
            symbol: define.symbol.symbol.copy(self.alloc)?,
            kind: define.symbol.kind,
        };
        self.by_symbol.insert(symbol, place)?;
        Ok(())
    }

    // Adds the symbols of an object.
    fn add_all(&mut self, bases: Bases, object: &Compiled) -> Result<(), NoMemory>
        requires { AreSmall (next_bases bases object.now) }
        ensures { OnOk result (self.new ≡ fold (with_address bases) self.old object.now.defines) }
    {
        object.keeps();
        for define in object.defines() {
            self.add(bases, define)?;
        }
        Ok(())
    }

    /// The places of the symbols of all units.
    pub(crate) fn of(alloc: Global, units: &[Located<'_>]) -> Result<Places, NoMemory>
        requires { All (λ l. AreSmall (next_bases l.before l.object.now)) units.now }
        ensures { IfOk result (λ places. places ≡ places_of (map located_model units.now)) }
    {
        let mut places = Places::new(alloc);
        for unit in units {
            places.add_all(unit.before, unit.object)?;
        }
        Ok(places)
    }

    /// The place of a symbol.
    pub(crate) fn place_of(&self, symbol: &LinkSymbol) -> u32
        ensures { result ≡ place_in self.now symbol.now }
    {
        self.by_symbol.get(symbol).copied().unwrap_or(0)
    }
}
