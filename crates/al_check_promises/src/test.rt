// Tests of links.
ghost use Rattle.std.specs.Prelude.{◌≡◌};
ghost use Rattle.al_view.specs.ViewUses.{link};

use al_view::{LinkKind, Symbol};

/// A test of links.
pub trait LinkTest {
    ghost use Rattle.std.specs.Prelude.{Bool};
    ghost use Rattle.al_view.specs.declared.link.LinkSymbol.{LinkSymbol};

    /// The links that pass.
    ghost passing: { Self → LinkSymbol → Bool };

    /// Whether the link of this kind of the declaration with this symbol passes.
    fn passes(&self, kind: LinkKind, symbol: &Symbol) -> bool
        ensures { result ≡ passing self.now (link kind symbol.now) };
}
