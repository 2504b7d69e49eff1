//! Labelled trees of terms, and what they are put together from (ARM 4, 8.6).
//!
//! A *labelled tree* is a term whose labelling has been chosen: each node has labels (its place, type, nominal range and static value) and
//! a form (what is evaluated). A `Reading` (`node`) is what a term is with its labelling: what is known of its value, and its labelled
//! tree, or the first fault in it that isn't a static failure. `reading` recurses over the term; `leaf`, `made`, `operator`, `call` and
//! `name` make the nodes; `chain` processes chains by loops.
//!
//! `context`, `range` and `variable` check whole contexts, pairs of bounds and targets; `staticness` those that must be static.
//! `determined` finds the type that an expression has by itself.
#![tactic(auto)]

mod call;
mod chain;
mod context;
mod determined;
mod gather;
mod labeller;
pub mod laws;
mod leaf;
mod made;
mod meaning;
mod name;
mod node;
mod operands;
mod operator;
mod pair;
mod range;
mod reading;
mod staticness;
mod universal;
mod variable;

pub use call::{add_actual, unless_variable};
pub use context::{check_call, check_static_term, check_target, check_term, read_call, read_term};
pub use determined::{
    DeterminedType, among, are_universal, everywhere, is_computed, pair_type, range_type,
    test_type, type_told, types_in,
};
pub use gather::{Actuals, Values};
pub use labeller::Labeller;
pub use leaf::{
    Application, add_value, aggregate_reading, argument_type, attribute_reading, bound_reading,
    component_of_type, conversion_context, how_applied, in_mark_reading, length_reading,
    marked_reading, named_reading, nominal_of, others_reading, qualified_context,
};
pub use name::{is_variable, no_variable};
pub use node::{Reading, checked, faulty, grouped, misfit};
pub use operator::{Signature, picked_subprogram, root_result};
pub use range::{
    DeterminedValue, FoundType, Pair, check_bounds, check_selector, check_static_bounds,
};
pub use variable::{nominal, target_part};
