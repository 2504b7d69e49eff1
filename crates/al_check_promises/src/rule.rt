// The links that a unit may use.
use crate::link_set::LinkSet;
use crate::test::LinkTest;
use al_base::UnitKey;
use al_view::{LinkKind, Symbol, is_unit};

/// The links that a unit may use: some of its own, and some of other units.
pub struct LinkRule {
    /// The unit that uses them.
    pub unit: UnitKey,
    /// The links of this unit that it may use.
    pub own: LinkSet,
    /// The links of other units that it may use.
    pub others: LinkSet,
}

impl Drop for LinkRule {
    fn drop(self) {
        let LinkRule {
            unit: _,
            own: _,
            others: _,
        } = self;
    }
}

impl LinkTest for LinkRule {
    ghost use Rattle.al_check_promises.specs.Rules.{permits};

    ghost passing = { permits };

    #[tactic(auto, unfolding(crate::specs::Rules::permits))]
    fn passes(&self, kind: LinkKind, symbol: &Symbol) -> bool {
        if is_unit(&symbol.unit, &self.unit) {
            self.own.contains(kind, symbol)
        } else {
            self.others.contains(kind, symbol)
        }
    }
}
