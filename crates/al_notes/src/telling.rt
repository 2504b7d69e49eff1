// Which notes a code has.
use crate::beyond::syntax;
use crate::bounds::{not_static, out_of_limits};
use crate::calls::ambiguous;
use crate::completions::{duplicate, missing_completion, not_conformant};
use crate::kinds::{not_a_variable, not_allowed, static_failure, wrong_kind};
use crate::lexical::lexical;
use crate::not_visible::not_visible;
use crate::pragmas::bad_pragma;
use crate::said::Said;
use crate::statements::{statements, tasks};
use crate::types::no_interpretation;
use crate::units::units;
use crate::view::View;

/// Says what there is to say of a diagnostic of this code.
pub fn tell(view: &View<'_>, code: u16, said: &mut Said) {
    match code {
        1..=6 => lexical(view, code, said),
        101 => syntax(view, said),
        200..=299 => units(view, code, said),
        301..=303 => tell_completions(view, code, said),
        304..=310 => tell_declarations(view, code, said),
        400..=499 => tell_names(view, code, said),
        500..=599 => statements(view, code, said),
        _ => tasks(view, code, said),
    }
}

fn tell_completions(view: &View<'_>, code: u16, said: &mut Said) {
    match code {
        301 => duplicate(view, said),
        302 => missing_completion(view, said),
        _ => not_conformant(view, said),
    }
}

fn tell_declarations(view: &View<'_>, code: u16, said: &mut Said) {
    match code {
        304 => not_static(view, said),
        305 => out_of_limits(view, said),
        307 => bad_pragma(view, said),
        _ => not_allowed(view, code, said),
    }
}

fn tell_names(view: &View<'_>, code: u16, said: &mut Said) {
    match code {
        401 => not_visible(view, said),
        402 => no_interpretation(view, said),
        403 => ambiguous(view, said),
        404 => wrong_kind(view, said),
        405 => static_failure(said),
        _ => not_a_variable(view, said),
    }
}
