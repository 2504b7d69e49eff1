// Ranges, of which each holds those of what is declared inside.
ghost use Rattle.std.specs.Prelude.{◌≡◌, ◌+◌, ◌<◌, ℕ, length, map, drop};
ghost use Rattle.std.specs.List.{All};
ghost use Rattle.al_lsp_outline.specs.Nested.{AreNested, HasName, HoldsDeeper, IsWithin};

use crate::declared::Declared;

/// Which bytes of a text: those from one offset to before another.
#[derive(Clone, Copy)]
pub struct Extent {
    pub from: usize,
    pub to: usize,
}

/// A declaration in a text.
#[derive(Clone, Copy)]
pub struct Symbol {
    pub declared: Declared,
    /// Its name as it is written, with what comes before the identifier that it declares.
    pub shown: Extent,
    /// The identifier that it declares.
    pub name: Extent,
    /// All of it, and of what is declared inside.
    pub whole: Extent,
}

/// The least extent that holds two.
pub(crate) fn hull(a: Extent, b: Extent) -> Extent
    ensures first { IsWithin a result }
    ensures second { IsWithin b result }
{
    Extent {
        from: a.from.min(b.from),
        to: a.to.max(b.to),
    }
}

// An extent that holds this one, and those of all deeper declarations at the head of the list.
fn held(depth: u32, whole: Extent, inner: &[Symbol]) -> Extent
    ensures own { IsWithin whole result }
    ensures inner { HoldsDeeper depth result inner.now }
{
    let mut held = whole;
    for symbol in inner {
        if symbol.declared.depth <= depth {
            return held;
        }
        held = hull(held, symbol.whole);
    }
    held
}

fn widen_at(symbols: &mut Vec<Symbol>, at: usize)
    requires { at < length symbols.old.items }
    ensures nested { AreNested (drop (at + 1) symbols.old.items) → AreNested (drop at symbols.new.items) }
    ensures declared { map (λ s. s.declared) symbols.new.items ≡ map (λ s. s.declared) symbols.old.items }
    ensures names { All HasName symbols.old.items → All HasName symbols.new.items }
    ensures len { length symbols.new.items ≡ length symbols.old.items }
{
    let of = symbols[at];
    let whole = held(of.declared.depth, of.whole, &symbols.as_slice()[at + 1..]);
    symbols[at] = Symbol {
        declared: of.declared,
        shown: of.shown,
        name: of.name,
        whole,
    };
}

/// Widens ranges so that each holds those of what is declared inside.
pub(crate) fn widen(symbols: &mut Vec<Symbol>)
    ensures nested { AreNested symbols.new.items }
    ensures declared { map (λ s. s.declared) symbols.new.items ≡ map (λ s. s.declared) symbols.old.items }
    ensures names { All HasName symbols.old.items → All HasName symbols.new.items }
{
    let mut at = symbols.len();
    while at > 0 {
        at -= 1;
        widen_at(symbols, at);
    }
}
