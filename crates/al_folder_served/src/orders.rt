// Orders of elaboration with their reasons, as they are printed.
ghost use Rattle.std.specs.Prelude.{◌≡◌, ◌-◌, ◌^◌, ◌<◌, IsOk};
ghost use Rattle.std.specs.List.{flat_map};
ghost use Rattle.al_session_stream.specs.Output.{Adds};
ghost use Rattle.al_folder_served.specs.Orders.{between, depends_line, named_lines, order_text, reasons_text, why_back, why_front};

use crate::reasons::Reasons;
use crate::why::{Why, why_of};
use al_base::{Name, UnitKey};
use al_folder::emit_parts;
use al_session_stream::{Device, Sink, emit};

// The words before the name of what an item depends on.
fn why_front(why: Why) -> &'static [u8]
    ensures { result.now ≡ why_front why }
{
    match why {
        Why::Completed => b"  after the declaration of ",
        Why::Parent => b"  after ",
        Why::With => b"  after ",
    }
}

// The words after it.
fn why_back(why: Why) -> &'static [u8]
    ensures { result.now ≡ why_back why }
{
    match why {
        Why::Completed => b"\n",
        Why::Parent => b", its parent\n",
        Why::With => b", by a with clause\n",
    }
}

// Writes a name between these words.
fn emit_between<K: Sink>(
    so_far: Result<(), Device>,
    writer: &mut K,
    front: &[u8],
    name: &Name,
    back: &[u8],
) -> Result<(), Device>
    requires { IsOk so_far → K.faults writer.old < 2 ^ 64 - 1 }
    ensures faults { IsOk result → IsOk so_far × (K.faults writer.new ≡ K.faults writer.old) }
    ensures adds { Adds K.written K.faults K.waits writer.old writer.new so_far result (between front.now back.now name.now) }
{
    let so_far = emit(so_far, writer, front);
    let so_far = emit(so_far, writer, name.as_slice());
    emit(so_far, writer, back)
}

// Writes each of the names between these words.
fn emit_all_between<K: Sink>(
    mut so_far: Result<(), Device>,
    writer: &mut K,
    front: &[u8],
    names: &[Name],
    back: &[u8],
) -> Result<(), Device>
    requires { IsOk so_far → K.faults writer.old < 2 ^ 64 - 1 }
    ensures faults { IsOk result → IsOk so_far × (K.faults writer.new ≡ K.faults writer.old) }
    ensures adds { Adds K.written K.faults K.waits writer.old writer.new so_far result (flat_map (between front.now back.now) names.now) }
{
    for name in names {
        so_far = emit_between(so_far, writer, front, name, back);
    }
    so_far
}

// Writes that an item comes after one that it depends on.
fn emit_depends<K: Sink>(
    so_far: Result<(), Device>,
    writer: &mut K,
    item: &Name,
    before: &UnitKey,
) -> Result<(), Device>
    requires { IsOk so_far → K.faults writer.old < 2 ^ 64 - 1 }
    ensures faults { IsOk result → IsOk so_far × (K.faults writer.new ≡ K.faults writer.old) }
    ensures adds { Adds K.written K.faults K.waits writer.old writer.new so_far result (depends_line item.now before.now) }
{
    let why = why_of(item.as_slice(), before.name.as_slice());
    emit_between(so_far, writer, why_front(why), &before.name, why_back(why))
}

// Writes that an item comes after each of those that it depends on.
fn emit_all_depends<K: Sink>(
    mut so_far: Result<(), Device>,
    writer: &mut K,
    item: &Name,
    before: &[UnitKey],
) -> Result<(), Device>
    requires { IsOk so_far → K.faults writer.old < 2 ^ 64 - 1 }
    ensures faults { IsOk result → IsOk so_far × (K.faults writer.new ≡ K.faults writer.old) }
    ensures adds { Adds K.written K.faults K.waits writer.old writer.new so_far result (flat_map (depends_line item.now) before.now) }
{
    for key in before {
        so_far = emit_depends(so_far, writer, item, key);
    }
    so_far
}

// Writes that an item comes after the bodies and after all that the units need that its pragmas name.
fn emit_named<K: Sink>(
    so_far: Result<(), Device>,
    writer: &mut K,
    reasons: &Reasons,
) -> Result<(), Device>
    requires { IsOk so_far → K.faults writer.old < 2 ^ 64 - 1 }
    ensures faults { IsOk result → IsOk so_far × (K.faults writer.new ≡ K.faults writer.old) }
    ensures adds { Adds K.written K.faults K.waits writer.old writer.new so_far result (named_lines reasons.now) }
{
    let bodies = reasons.elaborate.as_slice();
    let units = reasons.elaborate_all.as_slice();
    let so_far = emit_all_between(
        so_far,
        writer,
        b"  after the body of ",
        bodies,
        b", by a pragma Elaborate\n",
    );
    emit_all_between(
        so_far,
        writer,
        b"  after all that ",
        units,
        b" needs, by a pragma Elaborate_All\n",
    )
}

// Writes an item, and why it comes after others.
fn emit_reasons<K: Sink>(
    so_far: Result<(), Device>,
    writer: &mut K,
    reasons: &Reasons,
) -> Result<(), Device>
    requires { IsOk so_far → K.faults writer.old < 2 ^ 64 - 1 }
    ensures faults { IsOk result → IsOk so_far × (K.faults writer.new ≡ K.faults writer.old) }
    ensures adds { Adds K.written K.faults K.waits writer.old writer.new so_far result (reasons_text reasons.now) }
{
    let item = &reasons.item;
    let so_far = emit_parts(so_far, writer, std::slice::from_ref(item));
    let so_far = emit_all_depends(so_far, writer, &item.name, reasons.depends.as_slice());
    emit_named(so_far, writer, reasons)
}

/// Writes an order of elaboration: a line for each item, and below it one for each reason why it comes after others.
///
/// # Errors
///
/// As for [`emit`].
pub fn emit_order<K: Sink>(
    mut so_far: Result<(), Device>,
    writer: &mut K,
    order: &[Reasons],
) -> Result<(), Device>
    requires { IsOk so_far → K.faults writer.old < 2 ^ 64 - 1 }
    ensures faults { IsOk result → IsOk so_far × (K.faults writer.new ≡ K.faults writer.old) }
    ensures adds { Adds K.written K.faults K.waits writer.old writer.new so_far result (order_text order.now) }
{
    for reasons in order {
        so_far = emit_reasons(so_far, writer, reasons);
    }
    so_far
}
