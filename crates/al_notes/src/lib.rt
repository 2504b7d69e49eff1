//! Notes on diagnostics: what the reader of a diagnostic wants to know next.
//!
//! A note is made after a build, from the diagnostic and the sources of its files, and nothing keeps it. It may say less than it could, and decides
//! nothing: what is wrong is what the diagnostic says.
//!
//! - [`Notes`] makes the notes. `view` is what they are made from: a diagnostic with the sketches of the files that can be seen from it (`around`,
//!   [`needs_of`]). `said` are the sentences so far, and `telling` finds the notes for a code.
//! - Each other module has the notes for some codes: `lexical`, `beyond`, `units`, `cycle`, `completions`, `bounds`, `kinds`, `pragmas`,
//!   `not_visible`, `types`, `calls`, `operands`, `statements`.
//! - `names`, `types`, `visible`, `context`, `near`, `file_names` and `predefined` say what names mean, as far as the sources show it.
#![tactic(auto)]

mod around;
mod beyond;
mod bounds;
mod calls;
mod completions;
mod context;
mod cycle;
mod file_names;
mod kinds;
mod lexical;
mod names;
mod near;
mod not_visible;
mod notes;
mod operands;
mod pragmas;
mod predefined;
mod said;
mod statements;
mod telling;
mod types;
mod units;
mod view;
mod visible;
mod words;

pub use around::needs_of;
pub use notes::Notes;
