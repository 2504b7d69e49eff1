// Who watches the walk of a check.
use al_base::{NoMemory, Place};
use al_check_here::CheckState;
use al_tree::Identifier;
use al_view::Symbol;
use al_view_typed::{Typed, TypedCall};

/// Who watches a walk.
pub(crate) trait Watch {
    /// A construct begins at this place, in this state of the check, and declares these identifiers.
    fn begins(
        &mut self,
        state: &CheckState,
        place: Place,
        names: &[&Identifier],
    ) -> Result<(), NoMemory>;

    /// The construct has declared these identifiers, and left the check in this state.
    fn declared(&mut self, state: &CheckState, names: &[&Identifier]) -> Result<(), NoMemory>;

    /// An expression of the construct is judged so.
    fn judged(&mut self, typed: &Typed);

    /// The construct is this call, whose name begins at a place.
    fn called(&mut self, begins: Place, call: &TypedCall);

    /// The body whose head was the construct is of the subprogram with this symbol.
    fn headed(&mut self, symbol: &Symbol);

    /// The body of the subprogram with this symbol ends with the `end` at this place.
    fn ended(&mut self, end: Place, symbol: &Symbol);
}
