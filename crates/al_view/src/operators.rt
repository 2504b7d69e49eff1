// Operators of types.
ghost use Rattle.std.specs.Prelude.{◌≡◌};
ghost use Rattle.al_view.specs.Operators.{is_operator_of};

use crate::symbol::Symbol;
use crate::view::{CallKind, View, ViewKind};

impl View {
    /// Whether the view is of an operator of the type with this symbol: one that a use clause of the type makes visible (ARM
    /// 8.4(8.1)).
    pub fn is_operator_of(&self, symbol: &Symbol) -> bool
        ensures { result ≡ is_operator_of self.now symbol.now }
    {
        match self.kind() {
            ViewKind::OfSubprogram(subprogram) => match &subprogram.call {
                CallKind::Operator { of_type } => of_type.is(symbol),
                _ => false,
            },
            _ => false,
        }
    }
}
