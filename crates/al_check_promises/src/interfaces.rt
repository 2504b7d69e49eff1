// The links that a unit shows to others.
ghost use Rattle.std.specs.Prelude.{◌≡◌, ◌<◌, ◌++◌, ◌∷◌, [], ℕ, get_or, length, List};
ghost use Rattle.std.specs.List.{flat_map, list_all};
ghost use Rattle.al_view.specs.ViewUses.{view_uses};
ghost use Rattle.al_view.specs.declared.view.ViewKind.{ViewKind};
ghost use Rattle.al_query_outcome.specs.Defines.{declared_uses};
ghost use Rattle.al_check_promises.specs.Parts.{part_uses, property_uses};

use crate::{LinkTest, view_passes};
use al_query::Completion;
use al_query_outcome::{Parts, Properties, StubDeclarations};
use al_view::{Interface, View};

/// The views of the `i`-th name, from 0.
pub(crate) fn views_at(interface: &Interface, i: usize) -> &[View]
    requires { i < length interface.now }
    ensures { (e : List ℕ × List ViewKind) → result.now ≡ (get_or interface.now i e).1 }
{
    match interface.at(i) {
        Some((_, views)) => views,
        None => &[],
    }
}

pub(crate) fn views_pass<T: LinkTest>(views: &[View], test: &T) -> bool
    ensures { result ≡ list_all (T.passing test.now) (flat_map view_uses views.now) }
{
    for view in views {
        if !view_passes(view, test) {
            return false;
        }
    }
    true
}

fn declared_pass<T: LinkTest>(interface: &Interface, test: &T) -> bool
    ensures { result ≡ list_all (T.passing test.now) (declared_uses interface.now) }
{
    for i in 0..interface.len() {
        if !views_pass(views_at(interface, i), test) {
            return false;
        }
    }
    true
}

fn stubs_pass<T: LinkTest>(stubs: &[StubDeclarations], test: &T) -> bool
    ensures { result ≡ list_all (T.passing test.now) (flat_map (λ s. declared_uses s.before) stubs.now) }
{
    for stub in stubs {
        if !declared_pass(&stub.before, test) {
            return false;
        }
    }
    true
}

/// Whether all links that the parts of a unit show pass the test.
pub(crate) fn parts_pass<T: LinkTest>(parts: &Parts, test: &T) -> bool
    ensures { result ≡ list_all (T.passing test.now) (part_uses parts.now) }
{
    declared_pass(&parts.visible, test)
        && declared_pass(&parts.private_part, test)
        && declared_pass(&parts.body, test)
        && stubs_pass(parts.stubs.as_slice(), test)
}

pub(crate) fn completions_pass<T: LinkTest>(completions: &[Completion], test: &T) -> bool
    ensures { result ≡ list_all (T.passing test.now) (flat_map (λ c. view_uses c.view) completions.now) }
{
    for completion in completions {
        if !view_passes(&completion.view, test) {
            return false;
        }
    }
    true
}

/// Whether all links that the properties of a unit show pass the test.
pub(crate) fn properties_pass<T: LinkTest>(properties: &Properties, test: &T) -> bool
    ensures { result ≡ list_all (T.passing test.now) (property_uses properties.now) }
{
    view_passes(&properties.kind, test) && completions_pass(properties.completions.as_slice(), test)
}
