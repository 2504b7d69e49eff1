//! A checker of units over any *finder*, which gives the verdict over a unit by what it asks of others. The checker bounds what may be asked, and
//! tests the verdict.
//!
//! - `bounded_check` and `texts` are the checker; `finder` is the interface of a finder.
//! - *Bounds* (`bounds`, `words`, `name_set`, `unit_set`) say which units a unit may ask, and for which names. `checking` asks within them, and
//!   `replayed` records what was asked.
//! - The views that a unit was *shown* (`wanted`, `queries`, `asking`, `recorded`, `shown`) and what is *left* to it for completion (`left`) decide
//!   in `concluding` whether the unit is what a check promises.
//! - For finders: `said`, `after` and `made` put the verdict (`finding`) together from what the walk over a unit left; `faults` makes diagnostics of
//!   errors.
#![tactic(auto)]

mod after;
mod asking;
mod bounded_check;
mod bounds;
mod checking;
mod concluding;
mod faults;
mod finder;
mod finding;
mod laws;
mod left;
mod lines;
mod made;
mod name_set;
mod predefined;
mod queries;
mod recorded;
mod replayed;
mod said;
mod segments;
mod shown;
mod texts;
mod unit_set;
mod views;
mod wanted;
mod words;

pub use after::{EndedText, UnitFacts, found_after};
pub use asking::asked_again;
pub use bounded_check::BoundedCheck;
pub use bounds::{Bounded, Bounds};
pub use checking::check_within;
pub use faults::{diagnostic, faults_in};
pub use finder::UnitFinder;
pub use finding::{UnitResult, UnitVerdict};
pub use laws::shown_views_are_answered;
pub use lines::item_line;
pub use made::{WalkedUnit, finding_of};
pub use name_set::NameSet;
pub use predefined::predefined_everywhere;
pub use recorded::recorded_views;
pub use replayed::{answer_within, replay};
pub use said::{SaidUnit, own_view};
pub use unit_set::UnitSet;
pub use wanted::Wanted;
