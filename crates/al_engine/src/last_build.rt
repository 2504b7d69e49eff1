// What a library keeps of its last build.
ghost use Rattle.std.specs.Prelude.{◌≡◌};

use crate::UnitGraph;
use crate::orders::KnownOrder;
use al_base::Name;
use std::rc::Rc;

/// The files of a build, as they are read; the graph of their units; and the main unit.
pub(crate) struct LastBuild<R> {
    pub read: R,
    pub graph: Rc<UnitGraph>,
    pub main: Name,
    /// Orders of elaboration of these files, for this main unit and for others, the latest last.
    pub orders: Vec<Rc<KnownOrder>>,
}

impl<R: Drop> Drop for LastBuild<R> {
    fn drop(self) {
        let LastBuild {
            read: _,
            graph: _,
            main: _,
            orders: _,
        } = self;
    }
}

impl<R: Drop> LastBuild<R> {
    /// The files, as they are read.
    pub(crate) fn into_read(self) -> R
        ensures { result ≡ self.read }
    {
        let LastBuild {
            read,
            graph: _,
            main: _,
            orders: _,
        } = self;
        read
    }
}
