//! Directed graphs on the numbers below a count: what some nodes reach, what reaches them, which nodes lie on cycles, and an order of
//! all nodes in which each comes after those that it needs.
//!
//! A *node* is a number below the count. A *step* leads from a node to a successor. An *edge* says that an item of one node comes
//! after an item of another, and why. A node is *stuck* if it lies on a cycle or needs a node that does, so that no order has it.
//!
//! - `graph`, `reverse`: graphs, and the same steps the other way round.
//! - `search`, `sets`, `walk`: what is reached, and the nodes on cycles.
//! - `ordering` with `placing`, `ready`, `least`, `later`, `cycle`: the order, or a cycle among stuck nodes.
//! - `edge`: orders under edges, and the edges that show a cycle.
//! - `laws`, `order_laws`: what holds of these, as contracts of functions without code.
#![tactic(auto)]

mod cycle;
mod edge;
mod graph;
mod later;
pub mod laws;
mod least;
pub mod order_laws;
mod ordering;
mod placing;
mod ready;
mod reverse;
mod search;
mod sets;
mod walk;

pub use cycle::Cycle;
pub use edge::{Edge, Reason, line, order_of_ties};
pub use graph::Graph;
pub use ordering::order;
