//! What a check may ask bounds only how it asks: a law says that nothing which it finds depends on these bounds.
//!
//! Two tables that answer alike of units that may be asked, by names that may be asked for, give the same: names at a place (`SamePlaces`,
//! `SameNames` in proofs/), expressions and declarations (`SameValues`, `SameDeclarations`, `SameParts`, `SameObjects`), the walk over a
//! unit (`SameWalk`, `SameAda`, `SameUses`, `SameUnit`), its context clause and its start (`SameContext`, `SameStarts`, `SameStart`). The
//! table within the bounds and the table of all other units are such (`SameAround`, `SameBounds`, `SameBegins`), since names that are asked
//! for are spelt by the source or told by contexts (`Spelt`, `Words`).
#![tactic(auto)]

pub mod laws;
