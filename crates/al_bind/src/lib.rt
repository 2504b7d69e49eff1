//! The binder: what is missing in a partition, and the order in which its library items are elaborated (ARM 10.2, 10.2.1).
//!
//! - A *partition* has the units that its main unit needs. An *item* is one of its library declarations or bodies. The *parts* of an item are itself
//!   and its subunits (`parts`).
//! - A declaration with Elaborate_Body and its body are a *pair*, and one *node*; every other item is a node of its own. `places` sorts items and
//!   nodes by name.
//! - An *edge* leads from a node to one that must be elaborated before it, for a *reason*: a dependence or a pragma (`edges`).
//! - `missing` and `lacking` find the first thing that is missing, `binding` the order or a cycle. `laws` and `order_laws` say what is proved of
//!   them.
#![tactic(auto)]

mod binding;
mod edges;
mod lacking;
pub mod laws;
mod missing;
pub mod order_laws;
mod parts;
mod places;

pub use al_base_graph::Reason;
pub use binding::{BindFault, Line, bind};
pub use lacking::{MissingItem, first_lack};
pub use parts::parts_of;
