// Whether the links that views show pass a test.
ghost use Rattle.std.specs.Prelude.{◌≡◌, ◌&&◌};
ghost use Rattle.std.specs.List.{flat_map, list_all};
ghost use Rattle.al_view.specs.ViewUses.{callee_uses, flag_uses, link, place_uses, subprogram_uses, view_uses};
ghost use Rattle.al_view.specs.declared.link.LinkKind.TheVariants.{Data, Flag, Protected};

use crate::test::LinkTest;
use al_view::{CallKind, LinkKind, ObjectPlace, Operation, SubprogramView, Symbol, View, ViewKind};

/// Whether the link of an object at this place passes the test. An object in a frame has no link.
pub(crate) fn place_passes<T: LinkTest>(kind: LinkKind, place: &ObjectPlace, test: &T) -> bool
    ensures { result ≡ list_all (T.passing test.now) (place_uses kind place.now) }
{
    match place {
        ObjectPlace::Frame { .. } => true,
        ObjectPlace::Static { symbol, .. } => test.passes(kind, symbol),
    }
}

/// Whether the link of a flag passes the test, if there is a flag.
pub(crate) fn flag_passes<T: LinkTest>(flag: &Option<ObjectPlace>, test: &T) -> bool
    ensures { result ≡ list_all (T.passing test.now) (flag_uses flag.now) }
{
    match flag {
        Some(place) => place_passes(LinkKind::Flag, place, test),
        None => true,
    }
}

/// Whether the code of a called subprogram passes the test.
fn callee_passes<T: LinkTest>(call: &CallKind, symbol: &Symbol, test: &T) -> bool
    ensures { result ≡ list_all (T.passing test.now) (callee_uses call.now symbol.now) }
{
    match call {
        CallKind::Operator { .. } => true,
        CallKind::Predefined => true,
        CallKind::Subprogram { .. } => test.passes(LinkKind::Code, symbol),
        CallKind::Protected => test.passes(LinkKind::Code, symbol),
        CallKind::Entry => {
            test.passes(LinkKind::Gate, symbol) && test.passes(LinkKind::EntryBody, symbol)
        }
    }
}

fn subprogram_passes<T: LinkTest>(subprogram: &SubprogramView, test: &T) -> bool
    ensures { result ≡ list_all (T.passing test.now) (subprogram_uses subprogram.now) }
{
    callee_passes(&subprogram.call, &subprogram.symbol, test) && flag_passes(&subprogram.flag, test)
}

fn operations_pass<T: LinkTest>(operations: &[Operation], test: &T) -> bool
    ensures { result ≡ list_all (T.passing test.now) (flat_map (λ o. subprogram_uses o.subprogram) operations.now) }
{
    for operation in operations {
        if !subprogram_passes(&operation.subprogram, test) {
            return false;
        }
    }
    true
}

/// Whether the links of the words and of the number of a protected object pass the test.
fn object_passes<T: LinkTest>(symbol: &Symbol, test: &T) -> bool
    ensures { result ≡ (T.passing test.now (link Data symbol.now) && T.passing test.now (link Protected symbol.now) && T.passing test.now (link Flag symbol.now)) }
{
    test.passes(LinkKind::Data, symbol)
        && test.passes(LinkKind::Protected, symbol)
        && test.passes(LinkKind::Flag, symbol)
}

/// Whether all links that a view shows pass the test: code, data and protected objects. A type shows none.
#[tactic(auto, unfolding(al_view::specs::ViewUses::view_uses))]
pub fn view_passes<T: LinkTest>(view: &View, test: &T) -> bool
    ensures { result ≡ list_all (T.passing test.now) (view_uses view.now) }
{
    match view.kind() {
        ViewKind::OfObject(object) => place_passes(LinkKind::Data, &object.place, test),
        ViewKind::OfSubprogram(subprogram) => subprogram_passes(subprogram, test),
        ViewKind::OfTask(task) => test.passes(LinkKind::Code, &task.symbol),
        ViewKind::OfProtected(object) => {
            object_passes(&object.symbol, test)
                && operations_pass(object.operations.as_slice(), test)
        }
        ViewKind::OfType(_) => true,
        ViewKind::OfSubtype(_) => true,
        ViewKind::OfComponent => true,
        ViewKind::OfNumber(_) => true,
        ViewKind::OfLiteral(_) => true,
        ViewKind::OfPackage(_) => true,
    }
}
