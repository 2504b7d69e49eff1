//! The messages of the Language Server Protocol 3.17, as far as a server of diagnostics needs them, between bytes and types, by the JSON of `serde_json`.
//!
//! - [`incoming_of`] says what a JSON text is: a request, a notice, an answer, or no message. [`request_of`] and [`notice_of`] know the
//!   methods, and the functions of [`params`] read their parameters.
//! - [`Outgoing`] is what a server sends, and [`body_of`] its bytes.
#![tactic(auto)]

mod incoming;
mod members;
mod methods;
mod outgoing;
pub mod params;
mod places;
mod symbols;
mod values;

pub use incoming::{Incoming, incoming_of};
pub use methods::{NoticeMethod, RequestMethod, notice_of, request_of};
pub use outgoing::{ErrorCode, Outgoing, Published, body_of};
pub use places::{hover_value, proposed_value};
pub use symbols::{ListedSymbol, location_value, symbol_value, unit_value};
pub use values::{Shown, capabilities, message_params, shown_value, watch_params};
