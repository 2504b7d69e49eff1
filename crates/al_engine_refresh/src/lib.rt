//! Checks again those units of a library that an edit affects, and uses the kept entries of the others.
//!
//! - An *entry* (`entry`) is what is kept of a checked unit: its source, the questions that its check asked with their answers, and the result. It
//!   is *settled* once a build has answered (`kept_entries`).
//! - A unit is *reached* if it is in the order, and all that it depends on is without errors. A *mark* says that a stored answer differs from the
//!   current one.
//! - A unit *moves* if it may answer otherwise than before: it is reached now and wasn't or the reverse, an entry is made of it, or it leaves
//!   (`moving`, `leaving`). Only stored answers of units that moved are compared.
//! - `refreshed` takes the units in an order of dependence, `unit` one of them, with the answers so far (`present`). `files` gives the diagnostics.
//!   The laws say what is proved.
#![tactic(auto)]

pub mod entries_laws;
mod entry;
mod files;
mod finding;
pub mod found_laws;
pub mod keep_laws;
mod kept_entries;
pub mod laws;
mod leaving;
mod moving;
pub mod order_laws;
mod present;
mod refreshed;
mod unit;

pub use entry::Entry;
pub use files::findings_of;
pub use kept_entries::KeptEntries;
pub use leaving::leave_out;
pub use present::{Present, has_sound, text_of};
pub use refreshed::{begun, refresh, refresh_rest};
pub use unit::{Done, check_anew};
