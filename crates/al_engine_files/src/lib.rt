//! Ada files and the predefined units, for a library that is edited and built (`al_engine`).
//!
//! - [`AdaFiles`] are files as a build reads them (`files`). Each source is read once; it and its header are shared from then on (`sources`).
//!   If only one file was edited, only that file is read again (`renewing`).
//! - [`PredefinedUnits`] are the packages Standard, Ada, `Ada.Text_IO` and `Ada.Real_Time` (`units`, `package`): what they answer to look-ups.
//!   [`FixedAnswers`] says that such answers are the same for all values of a type (`fixed`).
//! - `laws` and `query_predefined_laws` say what is proved of headers and of the predefined units.
#![tactic(auto)]

mod files;
mod fixed;
pub mod laws;
mod package;
pub mod query_predefined_laws;
mod renewing;
mod sources;
mod units;

pub use files::AdaFiles;
pub use fixed::FixedAnswers;
pub use units::PredefinedUnits;
