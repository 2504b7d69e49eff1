//! Expressions at their places: labelled trees with the words of their temporaries, or the first rule that is broken (ARM 8.6).
//!
//! A `Site` (`site`) is a place: the labeller, the regions and the packages that are mentioned. `text_at` and `at` look the names of an
//! expression up there and give its term; `value`, `pair`, `selector`, `assigned`, `perform` and `context` check it in its context; `words`
//! numbers its temporaries. `text`, `fault` and `mark` find what is wrong in the prefixes of attributes, which are contexts of their own
//! but belong to the context round them. `compound` has names of several identifiers, and `put_text` what Put puts.
#![tactic(auto)]

mod assigned;
mod at;
mod compound;
mod context;
mod fault;
mod mark;
mod pair;
mod perform;
mod put_text;
mod selector;
mod site;
mod text;
mod text_at;
mod value;
mod words;

pub use assigned::{source_at, target_at};
pub use at::{bounds_with_at, context_with_at, range_with_at, read_with_at};
pub use compound::name_mark_at;
pub use context::{condition_at, moment_at, no_types, result_at};
pub use pair::{pair_judged_at, static_pair_at};
pub use perform::{CallEffect, check_performed};
pub use selector::{selector_at, selector_judged_at};
pub use site::Site;
pub use text_at::{mark_at, term_at};
pub use value::{checked_at, static_checked_at, value_at};
