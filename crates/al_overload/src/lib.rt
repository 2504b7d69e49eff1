//! What an expression means in its complete context (ARM 8.6).
//!
//! A *term* (`heads_term`) is an expression whose names have been looked up. Its *head* is the name, call or operator that it is an
//! application of; the head has *candidates* (`candidate`, `heads_candidate`), each of which wants operands of certain types and gives a
//! value of a type. `heads_head` and `heads_chain` build the tree of heads (`term`) from a term. A *labelling* (`label`) is the tree with
//! the number of one candidate at each head. `context` says what each kind of complete context wants, `count` in how many ways a tree can
//! be what is wanted, and `choose` and `meaning` give the one acceptable interpretation, or E402 if there is none and E403 if there are
//! several.
//!
//! `part` and `picked_types` have nominal subtypes, words and ranges, `everywhere` what every unit has, and `laws`, `law`, `heads_laws` and
//! `picking` the laws that the result obeys.
#![tactic(auto)]

mod aggregate;
mod built;
mod candidate;
mod chain;
mod choose;
mod class;
mod computing;
mod context;
mod count;
mod everywhere;
mod head;
mod heads_candidate;
mod heads_chain;
mod heads_head;
mod heads_laws;
mod heads_term;
mod in_context;
mod label;
mod law;
mod laws;
mod meaning;
mod operands;
mod part;
mod picked_types;
mod picking;
mod place;
mod range;
mod term;
mod types;

pub use choose::{Interpretation, interpret};
pub use class::value_type;
pub use computing::{computes_one, computes_two, is_position, is_sole_number};
pub use context::{Context, PredefinedTypes, converted_to, wanted_in};
pub use everywhere::Predefined;
pub use head::{all_of, is_any_no_value, name, operator, sole};
pub use heads_head::{bounds_head, head_of};
pub use heads_laws::{
    aggregates_stand_where_allowed, indexes_take_one_value, nothing_from_nothing,
    numbers_are_universal, numbers_need_no_operator,
};
pub use heads_term::Term;
pub use in_context::{interpret_bounds, interpret_term};
pub use label::{is_root_in, number_in, operand_label};
pub use law::{acceptable_is_preferred, no_type_is_left_out};
pub use laws::{faults_tell_why, one_is_acceptable};
pub use meaning::{nothing_fits, resolve};
pub use part::{Nominal, declared_under, part_of};
pub use picked_types::{
    Indexing, component_at, count_of, how_indexed, is_scalar_type, length_of, positions_in,
    range_in, words_in,
};
pub use picking::{numbers_mean_candidates, pick};
pub use place::first_place;
pub use term::{Candidate, Expression, Labelled, LabelledTerms, Operands};
pub use types::{Class, Expected, Given, ValueType};
