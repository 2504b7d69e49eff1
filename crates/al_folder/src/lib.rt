//! The words of a program that builds folders of Ada sources: how it reads names, numbers and commands, and what it prints.
//!
//! - `names`, `numbers` and `words` read: names of sources and of the main unit, numbers, and the lines of the standard input in a watch.
//! - `lines` and `excerpt` show a source line with a caret under a place. `diagnostics` prints errors with such lines, `faults` why a library without
//!   errors has no program.
//! - `parts` prints units, `progress` what a build did, and `runs` how a run ended. `status` is the exit status.
//! - `messages` prints bytes so that no control character reaches a terminal.
//!
//! Each function `emit_..` writes one piece of an output, as [`al_session_stream::emit`] does.
#![tactic(auto)]

mod diagnostics;
mod excerpt;
mod faults;
mod lines;
mod messages;
mod names;
mod numbers;
mod parts;
mod progress;
mod runs;
mod status;
mod words;

pub use diagnostics::{emit_count, emit_diagnostics, emit_told};
pub use excerpt::{BEFORE, WIDTH, emit_excerpt};
pub use faults::{emit_cycle, emit_no_body, emit_no_main, emit_no_subunit, emit_too_large};
pub use lines::line_at;
pub use messages::{emit_message, emit_shown_bytes};
pub use names::{has_source_ending, unit_of};
pub use numbers::number_of;
pub use parts::emit_parts;
pub use progress::{ImageChange, emit_progress, image_change};
pub use runs::{RunEnd, emit_end};
pub use status::{Ending, ending_of, exit_code};
pub use words::{WatchWord, watch_word};
