//! Whether the choices of a case statement are right (ARM 5.4), decided by one test. `choices` applies the test of al_stmts; `laws` has
//! that it holds if, and only if, the choices are right: no value is chosen twice, and each value of the selector is chosen.
#![tactic(auto)]

mod choices;
mod laws;

pub use choices::are_right;
pub use laws::the_test_decides;
