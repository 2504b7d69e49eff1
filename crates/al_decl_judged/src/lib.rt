//! What declarations declare, from parts that have been checked already: views and what is done at their place, or the first rule that is
//! broken. Nothing is asked here.
//!
//! Terms: a *view* is what others see of a declaration. A declaration's *effect* is what is done where it is. `Progress` (`progress`) is
//! how far the check of a unit has come: the words (`words`), names (`homonyms`) and objects that the declarations before a place have
//! taken. `Uncompleted` has the declarations that wait for their bodies.
//!
//! A module for each kind of declaration: `object` and `new_object`, `number`, `type_kind` (with `array`, `record`, `signs`), `subtype`,
//! `subprogram` and `body`. `profile`, `heading`, `conformance` and `completing` compare specifications and find what a body completes.
#![tactic(auto)]

mod array;
mod body;
mod completing;
mod completion;
mod conformance;
mod declaration;
mod declared;
mod frame;
mod heading;
mod homonyms;
pub mod laws;
mod mark;
mod names;
mod new_object;
mod number;
mod object;
mod object_views;
mod profile;
mod profile_laws;
mod progress;
mod record;
mod signs;
mod specification;
mod standing;
mod static_piece;
mod subprogram;
mod subtype;
mod subtype_views;
mod symbol_set;
mod type_kind;
mod type_list;
mod uncompleted;
mod words;

pub use array::{MOST_WORDS, array_type};
pub use body::{Completing, NewBody, declare_body};
pub use completing::{completing_of, copied_flag};
pub use completion::completes;
pub use conformance::{conformance_fault, conforms, has_types_of};
pub use declaration::{Declaration, declared_by, full_declared_by, next_symbol, own_type};
pub use declared::Declared;
pub use frame::{Formals, NewFormal, declare_formals, enter_body, leave_body, new_formals};
pub use heading::{FormalPart, Heading, ReturnedPart, heading_fault, is_function};
pub use homonyms::Homonyms;
pub use mark::{index_of_bounds, index_of_mark, indication};
pub use names::{DefiningName, TypeName, duplicate_at, named_so, repeated};
pub use new_object::{NewObject, ObjectType, copied_subtype, new_objects};
pub use number::declare_numbers;
pub use object::declare_objects;
pub use object_views::{formal_view, missing_value, number_view, object_view, subtype_view};
pub use profile::{profile_of, profile_types, specification_of};
pub use profile_laws::a_specification_has_the_types_of_one_signature;
pub use progress::Progress;
pub use record::{Part, record_type};
pub use specification::{BodyHead, Formal, Returned, Specification};
pub use standing::{dotted_name_fault, lone_body_fault, mode_fault, stub_fault};
pub use static_piece::{place_label, static_of, static_range};
pub use subprogram::{declare_subprogram, subprogram_view};
pub use subtype::declare_subtype;
pub use subtype_views::{StaticRange, scalar_bounds, subtype_of};
pub use type_kind::{
    declare_array, declare_enumeration, declare_integer, declare_private, declare_record,
};
pub use type_list::{add_types, enumeration_type, integer_type, words_of};
pub use uncompleted::Uncompleted;
pub use words::Words;
