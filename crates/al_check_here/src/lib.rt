//! The state of the check of a unit: which place of the unit it has reached, what encloses that place, and what the unit declares so far.
//!
//! - `state` has the state, `CheckState`: the unit's header, the environment at the place, and what encloses it: blocks, bodies and a protected
//!   object. A `stack` holds these, innermost last.
//! - `regions`, `bodies` and `parts` enter and leave blocks and loops, bodies, and the parts of a unit with their stubs and use clauses. `kinds`
//!   gives each body its kind.
//! - `faulty` ends the list of errors at a wrong declaration. `ends` gives what is left at the end of the unit. `words` has questions about a state.
#![tactic(auto)]

mod bodies;
mod ends;
mod faulty;
mod kinds;
mod parts;
mod regions;
mod stack;
mod state;
mod words;

pub use bodies::{enter_nested, enter_whole, labelled, leave_innermost, returns_in};
pub use ends::{Ends, into_ends, into_private_part, stub_names};
pub use faulty::{effect_list, end_list, settle_effect};
pub use parts::{add_stub, add_uses, begin_private, copied_interface, enter_statements};
pub use regions::{
    declare_alone, declare_parameter, enter_block, enter_loop, leave_block, leave_region, leave_to,
};
pub use stack::Stack;
pub use state::{
    AnalyzedHeading, BodyRole, CheckState, LoopType, OpenBody, OpenObject, UnitText, UseHere,
};
