// Which declaration a body completes.
ghost use Rattle.std.specs.Prelude.{◌≡◌, ◌↔◌, IsTrue, MatchOption};
ghost use Rattle.std.specs.List.{All};
ghost use Rattle.al_decl_judged.specs.Completing.{Completes, IsBodyOf, IsFirst, IsSubprogramBodyOf, is_entry};

use crate::conformance::has_types_of;
use crate::specification::BodyHead;
use al_query::Completion;
use al_view::{CallKind, SubprogramView, ViewKind};

fn is_entry(call: &CallKind) -> bool
    ensures { result ≡ is_entry call.now }
{
    matches!(call, CallKind::Entry)
}

fn is_subprogram_body_of(head: &BodyHead, subprogram: &SubprogramView) -> bool
    ensures { IsTrue result ↔ IsSubprogramBodyOf head.now subprogram.now }
{
    match head {
        BodyHead::Subprogram(specification) => {
            !is_entry(&subprogram.call) && has_types_of(specification, &subprogram.profile)
        }
        BodyHead::Entry => is_entry(&subprogram.call),
        BodyHead::Task => false,
        BodyHead::Protected => false,
    }
}

fn is_body_of(head: &BodyHead, view: &ViewKind) -> bool
    ensures { IsTrue result ↔ IsBodyOf head.now view.now }
{
    match (head, view) {
        (head, ViewKind::OfSubprogram(subprogram)) => is_subprogram_body_of(head, subprogram),
        (BodyHead::Task, ViewKind::OfTask(_)) => true,
        (BodyHead::Protected, ViewKind::OfProtected(_)) => true,
        _ => false,
    }
}

/// Whether a body with that name completes a declaration: the declaration has its name and kind, and if it is a subprogram its types.
pub fn completes(name: &[u8], head: &BodyHead, declared: &Completion) -> bool
    ensures { IsTrue result ↔ Completes name.now head.now declared.now }
{
    declared.name.as_slice() == name && is_body_of(head, declared.view.kind())
}

/// The index of the first of some declarations that a body with that name completes; `None` if it completes none.
pub(crate) fn completed_of(declared: &[Completion], name: &[u8], head: &BodyHead) -> Option<usize>
    ensures { MatchOption result (All (λ c. Completes name.now head.now c → ⊥) declared.now) (IsFirst (Completes name.now head.now) declared.now) }
{
    for i in 0..declared.len() {
        if completes(name, head, &declared[i]) {
            return Some(i);
        }
    }
    None
}
