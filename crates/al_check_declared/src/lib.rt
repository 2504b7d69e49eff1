//! Declarations, heads, stubs and bodies at the place that the check of a unit has reached, and the objects that they declare.
//!
//! - Each is *judged*: looked at as the table of answers shows other units. `declarations`, `objects`, `heads`, `entry`, `barrier` and `whole` (a
//!   unit that is one subprogram) do this.
//! - It is then *settled* (module `settled`): if it is right, the state goes on with what it declares; else the error ends the list.
//! - `bodies` and `object` enter bodies, private parts and protected bodies. `region` has the two forms of a protected body's region: in that of a
//!   function, components are constants.
#![tactic(auto)]

mod barrier;
mod bodies;
mod declarations;
mod entry;
mod heads;
pub mod laws;
mod nowhere;
mod object;
mod objects;
mod placing;
mod region;
mod settled;
mod whole;

pub use bodies::{enter_body, enter_private};
pub use declarations::{declared, nested_subprogram};
pub use heads::{inner_head, open_stub};
pub use nowhere::not_yet_fault;
pub use object::{barrier_fault_here, is_of_object, leave_object, open_object, renew_region};
pub use objects::{declare_object, declare_task, enter_object, entry_head, task_head};
pub use settled::{Effects, no_place};
pub use whole::{whole_head, whole_subprogram};
