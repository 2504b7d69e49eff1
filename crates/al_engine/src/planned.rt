// The result of compiling before anything is linked.
ghost use Rattle.std.specs.Prelude.{◌≡◌};

use crate::objects::UnitObject;
use al_base::{Diagnostic, UnitKey};
use al_bind::BindFault;
use al_view::LinkSymbol;
use std::rc::Rc;

/// A partition that is to be linked: the order of its items, the symbol of its main subprogram's code, and its units with their objects, in the order
/// that they have in an image.
pub struct Partition {
    pub(crate) order: Vec<UnitKey>,
    pub(crate) main: LinkSymbol,
    pub(crate) objects: Vec<Rc<UnitObject>>,
}

impl Drop for Partition {
    fn drop(self) {
        let Partition {
            order: _,
            main: _,
            objects: _,
        } = self;
    }
}

impl Partition {
    /// The order.
    pub(crate) fn into_order(self) -> Vec<UnitKey>
        ensures { result ≡ self.order }
    {
        let Partition {
            order,
            main: _,
            objects: _,
        } = self;
        order
    }

    /// The order, and the units with their objects.
    pub(crate) fn into_parts(self) -> (Vec<UnitKey>, Vec<Rc<UnitObject>>)
        ensures { result ≡ (self.order, self.objects) }
    {
        let Partition {
            order,
            main: _,
            objects,
        } = self;
        (order, objects)
    }
}

/// A partition that differs from the one before in one unit's object: the place of that unit among the units, and its object.
pub struct Renewal {
    pub(crate) main: LinkSymbol,
    pub(crate) at: usize,
    pub(crate) object: Rc<UnitObject>,
}

impl Drop for Renewal {
    fn drop(self) {
        let Renewal {
            main: _,
            at: _,
            object: _,
        } = self;
    }
}

impl Renewal {
    /// The main subprogram's symbol, the place, and the object.
    pub(crate) fn into_parts(self) -> (LinkSymbol, usize, Rc<UnitObject>)
        ensures { result ≡ (self.main, self.at, self.object) }
    {
        let Renewal { main, at, object } = self;
        (main, at, object)
    }
}

/// The result of compiling before anything is linked.
#[derive(Drop)]
pub enum Planned {
    /// The errors in the files, by file, place and number: at least one.
    Faulty(Vec<Diagnostic>),
    /// Something is missing in the partition, or there is no order of elaboration.
    Unbound(BindFault),
    /// This partition is to be linked.
    Linkable(Partition),
    /// A partition is to be linked that differs from the one before only in one unit's object.
    Renewed(Renewal),
}
