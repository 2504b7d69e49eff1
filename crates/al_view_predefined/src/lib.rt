//! The predefined operators of types, what the predefined packages declare, and views of types alone.
//!
//! - `standard`, `predefined`: the packages Standard, Ada.Text_IO and Ada.Real_Time, as interfaces.
//! - `operators`: the operators that the declaration of a type declares (ARM 4.5).
//! - `types`: the types that every unit has, the root integer type among them.
//! - `copies`: copies of types.
//! - `laws`: what holds of the predefined declarations, as contracts of functions without code.
#![tactic(auto)]

mod copies;
pub mod laws;
mod operators;
mod predefined;
mod standard;
mod types;

pub use copies::{copied_layout, copied_type};
pub use operators::{
    OperatorProfile, OperatorSymbol, declare_logical, declare_operator, declare_operators, operand,
    operator_view, predefined_symbol, standard_symbol, whole_type,
};
pub use predefined::predefined_package;
pub use standard::{INTEGER_BOUNDS, no_names, of_type, private_type, scalar, standard_package};
pub use types::{ROOT_BOUNDS, StandardTypes, root_integer, root_operators};
