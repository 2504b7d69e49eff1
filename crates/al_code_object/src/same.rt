// Whether two objects say the same of symbols and words.
ghost use Rattle.std.specs.Prelude.{◌≡◌, ◌↔◌, IsTrue};

use crate::object::{Address, Region, Relocation};
use al_instr::LineEntry;
use al_view::{LinkSymbol, Same};

/// Whether two symbols are one for the linker.
pub fn is_same_symbol(symbol: &LinkSymbol, other: &LinkSymbol) -> bool
    ensures { IsTrue result ↔ (symbol.now ≡ other.now) }
{
    symbol.kind == other.kind && symbol.symbol.is_same(&other.symbol)
}

impl Same for Address {
    fn is_same(&self, other: &Address) -> bool {
        self.offset == other.offset && is_same_symbol(&self.symbol, &other.symbol)
    }
}

impl Same for Relocation {
    fn is_same(&self, other: &Relocation) -> bool {
        self.place == other.place && is_same_symbol(&self.symbol, &other.symbol)
    }
}

impl Same for Region {
    fn is_same(&self, other: &Region) -> bool {
        self.word == other.word
            && self.words == other.words
            && self.ceiling.level() == other.ceiling.level()
    }
}

fn is_same_entry(entry: &LineEntry, other: &LineEntry) -> bool
    ensures { IsTrue result ↔ (entry.now ≡ other.now) }
{
    entry.place == other.place && entry.line == other.line
}

/// Whether the lines of two codes are the same.
pub fn are_same_lines(lines: &[LineEntry], others: &[LineEntry]) -> bool
    ensures { IsTrue result ↔ (lines.now ≡ others.now) }
{
    if lines.len() != others.len() {
        return false;
    }
    for i in 0..lines.len() {
        if !is_same_entry(&lines[i], &others[i]) {
            return false;
        }
    }
    true
}
