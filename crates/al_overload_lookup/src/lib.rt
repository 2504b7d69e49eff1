//! The names in an expression, looked up at its place (ARM 4.1.3, 8.3). This is the layer that asks the scope, once for each name.
//!
//! `text` collects the names and signs of an expression, in source order, by their parts (`piece`). `pieces` and `selectors` look them up
//! part after part, as far as something is visible; `lookup` and `select` say what one name denotes and what is selected after it. The
//! result is `Names` (`denoted`): under each name the declarations that are visible, and those in which it was looked for. `keys` has the
//! names themselves, in lower case with dots between, `places` where expressions begin, and `sign` the signs under which operators are
//! declared.
#![tactic(auto)]

mod chain;
mod denoted;
mod keys;
mod lookup;
mod name;
mod piece;
mod pieces;
mod places;
mod select;
mod selectors;
mod sign;
mod text;

pub use denoted::Names;
pub use keys::{dotted, is_none, key_of, not_visible};
pub use lookup::names;
pub use name::TextName;
pub use places::{first_place, group_place, prefix_place};
pub use selectors::look_up_selected;
