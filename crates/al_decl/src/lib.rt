//! Declarations of objects, numbers, types, subtypes, subprograms and their bodies at a place in a unit's source.
//!
//! An `Environment` (`env`) is the place: the regions round it, what the declarations before it have taken, what waits for its body, and
//! what the innermost part declares. A `PartAnalyzer` (`analyzer`) reads the parts of declarations there: marks, subtype indications,
//! values. Each declaration begins its names, reads its parts, has its result from al_decl_judged, and makes its names visible at its end
//! (`ending`).
//!
//! `object`, `simple`, `definition`, `record`, `types`, `heading`, `subprogram` and `body` are the kinds of declarations, `item` chooses
//! among them. `homograph` finds what is declared twice, `block`, `inner` and `subprogram_body` enter and leave regions, and `slots` gives
//! temporaries their words.
#![tactic(auto)]

mod analyzer;
mod block;
mod body;
mod components;
mod definition;
mod ending;
mod env;
mod formals;
mod heading;
mod homograph;
mod inner;
mod item;
mod laws;
mod names;
mod object;
mod private_type;
mod record;
mod simple;
mod slots;
mod subprogram;
mod subprogram_body;
mod subprogram_homograph;
mod types;

pub use analyzer::PartAnalyzer;
pub use block::{Outside, enter_block, set_aside, take_back};
pub use body::{PlacedBody, place_body};
pub use components::names_fault;
pub use definition::{check_array, check_enumeration, check_integer, check_private, check_record};
pub use ending::{finish, finish_right};
pub use env::{Environment, begin, begin_one};
pub use heading::heading_at;
pub use homograph::{
    duplicate, duplicates, fixed_duplicate, fixed_duplicates, overloaded_duplicate,
    overloaded_duplicates,
};
pub use inner::{enter_region, leave_region, make_visible};
pub use item::{check_object_item, check_subtype_item, check_type_item};
pub use laws::a_literal_is_a_homograph_of_what_is_fixed;
pub use names::{defining_name, defining_names};
pub use object::check_objects;
pub use record::{check_null_record, check_record_type};
pub use simple::{check_number, check_subtype};
pub use subprogram::{check_subprogram, place_subprogram};
pub use subprogram_body::{OuterFrame, declare_all_formals, enter_subprogram};
pub use subprogram_homograph::{has_right_marks, head_duplicate};
pub use types::{begin_type, enumeration_duplicate, type_duplicate, type_name};
