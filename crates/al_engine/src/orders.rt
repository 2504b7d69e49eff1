// The orders of elaboration that a library keeps for its files.
ghost use Rattle.std.specs.Prelude.{◌≡◌, ◌∷◌, ◌++◌, [], IfOk, IfSome, OnOk, map};
ghost use Rattle.al_base.specs.Batch.{key_of};
ghost use Rattle.al_bind.specs.Binding.{IsElaboration};
ghost use Rattle.al_unit_graph.specs.Headers.{Library};
ghost use Rattle.al_engine.specs.Graphs.{AreElaborations, IsOrderOf};

use crate::planned::Planned;
use crate::planning::copied;
use al_base::{Name, NoMemory, UnitKey};
use std::alloc::Global;
use std::rc::Rc;

/// The largest number of main units for which orders are kept.
const MOST_ORDERS: usize = 8;

/// The order of elaboration of a main unit's partition.
pub(crate) struct KnownOrder {
    pub main: Name,
    pub order: Vec<UnitKey>,
}

impl Drop for KnownOrder {
    fn drop(self) {
        let KnownOrder { main: _, order: _ } = self;
    }
}

/// The order for this main unit, if it is kept.
pub(crate) fn order_of<'a>(orders: &'a [Rc<KnownOrder>], main: &[u8]) -> Option<&'a [UnitKey]>
    ensures { IfSome result (λ order. (lib : Library) → AreElaborations lib (map (λ o. o.value) orders.now) → IsElaboration lib main.now (map key_of order.now)) }
{
    for known in orders {
        if known.main.as_slice() == main {
            return Some(known.order.as_slice());
        }
    }
    None
}

/// These orders, shared; none if there are too many.
///
/// # Errors
///
/// `NoMemory` if the allocator refuses memory.
pub(crate) fn shared_orders(
    alloc: Global,
    orders: &[Rc<KnownOrder>],
) -> Result<Vec<Rc<KnownOrder>>, NoMemory>
    ensures { IfOk result (λ shared. (lib : Library) → AreElaborations lib (map (λ o. o.value) orders.now) → AreElaborations lib (map (λ o. o.value) shared.items)) }
{
    let mut shared = Vec::new(alloc);
    if orders.len() >= MOST_ORDERS {
        return Ok(shared);
    }
    for known in orders {
        shared.push(known.clone()?)?;
    }
    Ok(shared)
}

/// Adds the order of a partition that is to be linked.
///
/// # Errors
///
/// `NoMemory` if the allocator refuses memory.
pub(crate) fn add_order(
    alloc: Global,
    main: &[u8],
    planned: &Planned,
    orders: &mut Vec<Rc<KnownOrder>>,
) -> Result<(), NoMemory>
    ensures { OnOk result ((lib : Library) → IsOrderOf lib main.now planned.now → AreElaborations lib (map (λ o. o.value) orders.old.items) → AreElaborations lib (map (λ o. o.value) orders.new.items)) }
{
    let Planned::Linkable(partition) = planned else {
        return Ok(());
    };
    let main = Name::from_slice(alloc, main)?;
    let order = copied(alloc, partition.order.as_slice())?;
    let known = Rc::new(alloc, KnownOrder { main, order })?;
    orders.push(known)?;
    Ok(())
}
