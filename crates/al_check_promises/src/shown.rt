// The links that views show, as sets.
ghost use Rattle.std.specs.Prelude.{◌≡◌, [], ◌∷◌, OnOk};
ghost use Rattle.std.specs.List.{flat_map};
ghost use Rattle.al_view.specs.ViewUses.{callee_uses, flag_uses, link, place_uses, subprogram_uses, view_uses};
ghost use Rattle.al_view.specs.declared.link.LinkKind.TheVariants.{Data, Flag, Protected};
ghost use Rattle.al_view.specs.declared.view.CallKind.TheVariants.{Entry};
ghost use Rattle.al_check_promises.specs.Links.{Gains};

use crate::link_set::LinkSet;
use al_base::NoMemory;
use al_view::{
    CallKind, LinkKind, ObjectPlace, Operation, ProtectedView, SubprogramView, Symbol, View,
    ViewKind,
};

fn add_place(set: &mut LinkSet, kind: LinkKind, place: &ObjectPlace) -> Result<(), NoMemory>
    ensures { OnOk result (Gains set.old set.new (place_uses kind place.now)) }
{
    match place {
        ObjectPlace::Frame { .. } => Ok(()),
        ObjectPlace::Static { symbol, .. } => set.insert(kind, symbol),
    }
}

fn add_flag(set: &mut LinkSet, flag: &Option<ObjectPlace>) -> Result<(), NoMemory>
    ensures { OnOk result (Gains set.old set.new (flag_uses flag.now)) }
{
    match flag {
        Some(place) => add_place(set, LinkKind::Flag, place),
        None => Ok(()),
    }
}

/// Adds both links of an entry: its gate and its body.
#[tactic(auto, using(crate::proofs::Gained::gains_both))]
pub(crate) fn add_entry(set: &mut LinkSet, symbol: &Symbol) -> Result<(), NoMemory>
    ensures { OnOk result (Gains set.old set.new (callee_uses Entry symbol.now)) }
{
    set.insert(LinkKind::Gate, symbol)?;
    set.insert(LinkKind::EntryBody, symbol)
}

fn add_callee(set: &mut LinkSet, call: &CallKind, symbol: &Symbol) -> Result<(), NoMemory>
    ensures { OnOk result (Gains set.old set.new (callee_uses call.now symbol.now)) }
{
    match call {
        CallKind::Operator { .. } => Ok(()),
        CallKind::Predefined => Ok(()),
        CallKind::Subprogram { .. } => set.insert(LinkKind::Code, symbol),
        CallKind::Protected => set.insert(LinkKind::Code, symbol),
        CallKind::Entry => add_entry(set, symbol),
    }
}

#[tactic(auto, using(crate::proofs::Gained::gains_both))]
fn add_subprogram(set: &mut LinkSet, subprogram: &SubprogramView) -> Result<(), NoMemory>
    ensures { OnOk result (Gains set.old set.new (subprogram_uses subprogram.now)) }
{
    add_callee(set, &subprogram.call, &subprogram.symbol)?;
    add_flag(set, &subprogram.flag)
}

fn add_operations(set: &mut LinkSet, operations: &[Operation]) -> Result<(), NoMemory>
    ensures { OnOk result (Gains set.old set.new (flat_map (λ o. subprogram_uses o.subprogram) operations.now)) }
{
    for operation in operations {
        add_subprogram(set, &operation.subprogram)?;
    }
    Ok(())
}

/// Adds the words, the number and the flag of a protected object.
fn add_object(set: &mut LinkSet, symbol: &Symbol) -> Result<(), NoMemory>
    ensures { OnOk result (Gains set.old set.new (link Data symbol.now ∷ link Protected symbol.now ∷ link Flag symbol.now ∷ [])) }
{
    set.insert(LinkKind::Data, symbol)?;
    set.insert(LinkKind::Protected, symbol)?;
    set.insert(LinkKind::Flag, symbol)
}

#[tactic(auto, using(crate::proofs::Gained::gains_both))]
fn add_protected(set: &mut LinkSet, object: &ProtectedView) -> Result<(), NoMemory>
    ensures { OnOk result (Gains set.old set.new (link Data object.now.symbol ∷ link Protected object.now.symbol ∷ link Flag object.now.symbol ∷ flat_map (λ o. subprogram_uses o.subprogram) object.now.operations)) }
{
    add_object(set, &object.symbol)?;
    add_operations(set, object.operations.as_slice())
}

/// Adds all links that a view shows: code, data and protected objects. A type shows none.
///
/// # Errors
/// `NoMemory` if the allocator refuses memory.
#[tactic(auto, unfolding(al_view::specs::ViewUses::view_uses))]
pub fn add_shown(set: &mut LinkSet, view: &View) -> Result<(), NoMemory>
    ensures { OnOk result (Gains set.old set.new (view_uses view.now)) }
{
    match view.kind() {
        ViewKind::OfObject(object) => add_place(set, LinkKind::Data, &object.place),
        ViewKind::OfSubprogram(subprogram) => add_subprogram(set, subprogram),
        ViewKind::OfTask(task) => set.insert(LinkKind::Code, &task.symbol),
        ViewKind::OfProtected(object) => add_protected(set, object),
        ViewKind::OfType(_) => Ok(()),
        ViewKind::OfSubtype(_) => Ok(()),
        ViewKind::OfComponent => Ok(()),
        ViewKind::OfNumber(_) => Ok(()),
        ViewKind::OfLiteral(_) => Ok(()),
        ViewKind::OfPackage(_) => Ok(()),
    }
}
