// Parts of names.
use al_base::Name;

/// A part of a name in an expression, in lower case, with no copy of what comes before it.
pub(crate) enum Piece {
    /// An identifier alone, or the sign of an operator.
    Alone(Name),
    /// A selector after the name before it (ARM 4.1.3).
    After(Name),
}

impl Drop for Piece {
    fn drop(self) {
        match self {
            Piece::Alone(_) => {}
            Piece::After(_) => {}
        }
    }
}
