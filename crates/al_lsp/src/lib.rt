//! What a language server takes its bytes for, and nothing of Ada's meaning: frames with lengths, positions in texts, edits of texts,
//! URIs of files.
//!
//! - [`read_frame`] cuts a body from a source, [`emit_frame`] writes one.
//! - [`position_of`] and [`offset_of`] lead from bytes to a client's lines and columns and back, [`range_at`] from a place of a diagnostic;
//!   a [`Spot`] counts on from byte to byte.
//! - [`edited`] is a text after one change, [`path_of`] and [`uri_of`] lead from URIs to paths and back.
#![tactic(auto)]

mod edit;
mod frame;
mod head;
mod offset;
mod place;
mod position;
mod uri;

pub use edit::{Range, edited};
pub use frame::{Frame, ReadError, emit_frame, read_frame};
pub use head::{MAX_BODY, content_length};
pub use offset::offset_of;
pub use place::range_at;
pub use position::{Counting, Position, Spot, position_of};
pub use uri::{path_of, uri_of};
