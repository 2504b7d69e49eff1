// E307: pragmas.
use crate::near::Nearest;
use crate::note;
use crate::said::Said;
use crate::view::View;
use crate::words::{entry_for, is_one_of};
use std::alloc::AllocError;

/// What the pragma is, and which there are.
pub fn bad_pragma(view: &View<'_>, said: &mut Said) {
    let name = view.word();
    if is_one_of(name, "elaborate elaborate_all") {
        return note!(said; name, b" belongs in a context clause, after the with clause of the units that it names: with P; pragma ", name, b" (P);");
    }
    if name.eq_ignore_ascii_case(b"elaborate_body") {
        return note!(said; b"Elaborate_Body belongs in a package's declaration, without an argument or with the package's name");
    }
    say_other(view, name, said);
    note!(said; b"the pragmas are Elaborate and Elaborate_All in context clauses, and Elaborate_Body in a package's declaration")
}

// Says of another pragma that what it asks for holds, that the subset doesn't have it, or which one is nearly named so.
fn say_other(view: &View<'_>, name: &[u8], said: &mut Said) {
    if holds_anyway(view) {
        let argument = view.sketch.word(view.at.saturating_add(2));
        return note!(said; name, b" (", argument, b") is what holds anyway: tasks and protected objects are those of the Ravenscar profile, with priorities and ceilings; leave the pragma out");
    }
    if is_one_of(name, OF_ADA) {
        return note!(said; b"pragma ", name, b" isn't in this subset of Ada (docs/language.md#what-there-is): leave it out");
    }
    say_near(view, name, said)
}

// Which pragma is nearly named so.
fn near_pragma(view: &View<'_>, name: &[u8]) -> Result<Option<Vec<u8>>, AllocError> {
    let mut nearest = Nearest::to(view.alloc, name)?;
    for known in ["Elaborate", "Elaborate_All", "Elaborate_Body"] {
        nearest.see(known.as_bytes());
    }
    nearest.into_name()
}

// Says which pragma is nearly named so.
fn say_near(view: &View<'_>, name: &[u8], said: &mut Said) {
    if let Some(other) = said.made_some(near_pragma(view, name)) {
        note!(said; b"did you mean ", other.as_slice(), b"?");
    }
}

// Whether a pragma asks for what holds in every program.
fn holds_anyway(view: &View<'_>) -> bool {
    let argument = view.sketch.word(view.at.saturating_add(2));
    match entry_for(HOLDING, view.word()) {
        Some(held) => argument.eq_ignore_ascii_case(held.as_bytes()),
        None => false,
    }
}

/// Pragmas with the argument that holds in every program.
const HOLDING: &str = "profile|ravenscar
locking_policy|ceiling_locking
task_dispatching_policy|fifo_within_priorities
partition_elaboration_policy|concurrent
";

/// The pragmas of Ada that the subset doesn't have.
const OF_ADA: &str =
    "all_calls_remote assert assertion_policy asynchronous atomic attach_handler convention cpu detect_blocking discard_names
dispatching_domain export import independent inline inspection_point interrupt_handler interrupt_priority linker_options list locking_policy
no_return normalize_scalars optimize pack page partition_elaboration_policy preelaborate preelaborable_initialization priority profile pure
queuing_policy restrictions suppress task_dispatching_policy unsuppress volatile warnings spark_mode";
