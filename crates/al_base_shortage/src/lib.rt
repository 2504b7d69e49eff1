//! The count of calls that failed because the allocator refused memory.
//!
//! A *growth* is a call that may ask the allocator for memory. A function that keeps the count (`AllocFailures`) raises it by one if
//! it fails for memory, and its code can do so only with the result of a growth that was refused. So it cannot report that memory
//! is short without a refused growth.
#![tactic(auto)]

mod failures;

pub use failures::{AllocFailures, one_more};
