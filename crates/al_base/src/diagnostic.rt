// What a build says of a file.
use crate::name::Name;
use crate::place::Place;

/// One diagnostic of a build: a file, a place in it, and the rule that is broken there.
pub struct Diagnostic {
    /// The name of the file.
    pub file: Name,
    /// The line and the column at which it is reported.
    pub place: Place,
    /// The number of the rule that is broken: 401 is printed as E401.
    pub code: u16,
}

impl Drop for Diagnostic {
    fn drop(self) {
        let Diagnostic {
            file: _,
            place: _,
            code: _,
        } = self;
    }
}
