// Names and signs in an expression.
use al_base::Name;

/// A name or a sign in an expression, in lower case.
pub enum TextName {
    /// An identifier alone, or the sign of an operator.
    Simple(Name),
    /// A name that is selected in another one (ARM 4.1.3).
    Selected { prefix: Name, name: Name },
}

impl Drop for TextName {
    fn drop(self) {
        match self {
            TextName::Simple(_) => {}
            TextName::Selected { prefix: _, name: _ } => {}
        }
    }
}
