// What the names in an expression denote.

use al_view::Interface;

/// What names denote at a place. A name that is selected in another one has a dot between.
pub struct Names {
    /// The declarations that are visible under each name.
    pub visible: Interface,
    /// For each selected name, the declarations in which it was looked for: packages, and constructs round the place (ARM 4.1.3(4, 13)).
    pub prefixes: Interface,
}

impl Drop for Names {
    fn drop(self) {
        let Names {
            visible: _,
            prefixes: _,
        } = self;
    }
}
