// The image of a partition.
ghost use Rattle.std.specs.Prelude.{◌≡◌, ℕ, List, Option, None, true, false, map, slice_set, IfOk, IsTrue, OnErr, OnOk};
ghost use Rattle.std.specs.List.{list_all};
ghost use Rattle.al_base.specs.declared.unit_key.UnitKey.{UnitKey};
ghost use Rattle.al_unit_graph.specs.Headers.{Library};
ghost use Rattle.al_query_outcome.specs.Results.{Outcome};
ghost use Rattle.al_engine.specs.Batches.{IsBatch};
ghost use Rattle.al_engine.specs.Objects.{is_unit_name};
ghost use Rattle.al_engine.specs.ObjectsSeen.{left_model, object_model};
ghost use Rattle.al_engine.specs.Patches.{IsPatched, linked_in};
ghost use Rattle.al_engine.specs.Plans.{AreClosedObjects, IsClosedPlan, IsClosedRenewal, IsPlanned};
ghost use Rattle.al_engine.specs.Links.{IsExchanged, IsLinkedAgain, IsLinkedAnew, IsLinkedAs, IsLinkedOver};

use crate::compiled::{Compiled, Program};
use crate::names::is_unit_name;
use crate::objects::UnitObject;
use crate::planned::{Partition, Planned, Renewal};
use al_base::{NoMemory, UnitKey};
use al_code_object::Object;
use al_link::{CompiledUnit, Linked};
use al_link_image::LinkFault;
use al_view::LinkSymbol;
use std::alloc::Global;
use std::rc::Rc;

/// Whether an image can have the names of the units.
fn are_named(objects: &[Rc<UnitObject>]) -> bool
    ensures { result ≡ list_all (λ u. is_unit_name u.0.name) (map object_model objects.now) }
{
    for unit in objects {
        if !is_unit_name(unit.key.name.as_slice()) {
            return false;
        }
    }
    true
}

/// The units with their objects, in the form that the linker takes.
fn left<'a>(alloc: Global, objects: &'a [Rc<UnitObject>]) -> Result<Vec<CompiledUnit<'a>>, NoMemory>
    ensures { IfOk result (λ left. map left_model left.items ≡ map object_model objects.now) }
{
    let mut left = Vec::new(alloc);
    for unit in objects {
        left.push(CompiledUnit {
            key: &unit.key,
            object: &unit.object,
        })?;
    }
    Ok(left)
}

/// The image of units whose names an image can have, with this main subprogram; `None` if it would pass a limit.
fn linked_anew(
    alloc: Global,
    main: &LinkSymbol,
    objects: &[Rc<UnitObject>],
) -> Result<Option<Linked>, NoMemory>
    requires named { list_all (λ u. is_unit_name u.0.name) (map object_model objects.now) ≡ true }
    requires closed { AreClosedObjects main.now (map object_model objects.now) }
    ensures { IfOk result (IsLinkedAnew main.now (map object_model objects.now)) }
{
    let left = left(alloc, objects)?;
    match Linked::new(alloc, main, left.as_slice()) {
        Ok(linked) => Ok(Some(linked)),
        Err(LinkFault::TooLarge) => Ok(None),
        Err(LinkFault::NoMemory) => Err(NoMemory),
        Err(LinkFault::Damaged) => unreachable!(),
    }
}

/// Links units, whose names an image can have, in the place of others. Gives whether the image passes no limit. The image is the last thing that
/// takes memory; if the allocator refuses it, everything is as before.
fn linked_again(
    alloc: Global,
    linked: &mut Linked,
    main: &LinkSymbol,
    objects: &[Rc<UnitObject>],
) -> Result<bool, NoMemory>
    requires named { list_all (λ u. is_unit_name u.0.name) (map object_model objects.now) ≡ true }
    requires closed { AreClosedObjects main.now (map object_model objects.now) }
    ensures again { IfOk result (IsLinkedAgain main.now (map object_model objects.now) linked.old linked.new) }
    ensures err { OnErr result (linked.new ≡ linked.old) }
{
    let left = left(alloc, objects)?;
    match linked.relink(main, left.as_slice()) {
        Ok(()) => Ok(true),
        Err(LinkFault::TooLarge) => Ok(false),
        Err(LinkFault::NoMemory) => Err(NoMemory),
        Err(LinkFault::Damaged) => unreachable!(),
    }
}

/// The program of a partition, if compiling gave none before.
fn program_anew(
    alloc: Global,
    partition: Partition,
    compiled: &mut Compiled,
) -> Result<usize, NoMemory>
    requires named { list_all (λ u. is_unit_name u.0.name) (map object_model partition.objects.items) ≡ true }
    requires closed { AreClosedObjects partition.main (map object_model partition.objects.items) }
    requires none { linked_in compiled.old ≡ None }
    ensures linked { OnOk result (IsLinkedAs partition.main (map object_model partition.objects.items) partition.order.items compiled.new) }
    ensures patched { IfOk result (IsPatched (linked_in compiled.old) (linked_in compiled.new)) }
    ensures err { OnErr result (compiled.new ≡ compiled.old) }
{
    let linked = linked_anew(alloc, &partition.main, partition.objects.as_slice())?;
    let (order, objects) = partition.into_parts();
    match linked {
        Some(linked) => {
            *compiled = Compiled::Made(Program {
                order,
                objects,
                linked,
            })
        }
        None => *compiled = Compiled::TooLarge(order),
    }
    Ok(0)
}

/// The program of a partition whose units an image can name. It is linked in the place of the one before, if compiling gave one.
fn program_of(
    alloc: Global,
    partition: Partition,
    compiled: &mut Compiled,
) -> Result<usize, NoMemory>
    requires named { list_all (λ u. is_unit_name u.0.name) (map object_model partition.objects.items) ≡ true }
    requires closed { AreClosedObjects partition.main (map object_model partition.objects.items) }
    ensures linked { OnOk result (IsLinkedAs partition.main (map object_model partition.objects.items) partition.order.items compiled.new) }
    ensures patched { IfOk result (IsPatched (linked_in compiled.old) (linked_in compiled.new)) }
    ensures err { OnErr result (compiled.new ≡ compiled.old) }
{
    let Compiled::Made(program) = compiled else {
        return program_anew(alloc, partition, compiled);
    };
    let objects = partition.objects.as_slice();
    let fits = linked_again(alloc, &mut program.linked, &partition.main, objects)?;
    let (order, objects) = partition.into_parts();
    if fits {
        program.order = order;
        program.objects = objects;
        return Ok(program.linked.patched());
    }
    *compiled = Compiled::TooLarge(order);
    Ok(0)
}

/// The program of a partition, or only its order if the image would pass a limit.
pub(crate) fn link_partition(
    alloc: Global,
    partition: Partition,
    compiled: &mut Compiled,
) -> Result<usize, NoMemory>
    requires { AreClosedObjects partition.main (map object_model partition.objects.items) }
    ensures linked { OnOk result (IsLinkedAs partition.main (map object_model partition.objects.items) partition.order.items compiled.new) }
    ensures patched { IfOk result (IsPatched (linked_in compiled.old) (linked_in compiled.new)) }
    ensures err { OnErr result (compiled.new ≡ compiled.old) }
{
    if are_named(partition.objects.as_slice()) {
        return program_of(alloc, partition, compiled);
    }
    let order = partition.into_order();
    *compiled = Compiled::TooLarge(order);
    Ok(0)
}

/// Puts a unit's object in the place of another one, if there is one at that place.
fn put(objects: &mut Vec<Rc<UnitObject>>, at: usize, object: Rc<UnitObject>)
    ensures { objects.new.items ≡ slice_set objects.old.items at object }
{
    if at < objects.len() {
        objects[at] = object;
    }
}

/// These units with their objects, one of which is replaced. The others are shared.
fn objects_with(
    alloc: Global,
    before: &[Rc<UnitObject>],
    at: usize,
    object: Rc<UnitObject>,
) -> Result<Vec<Rc<UnitObject>>, NoMemory>
    ensures { IfOk result (λ objects. map object_model objects.items ≡ slice_set (map object_model before.now) at (object_model object)) }
{
    let mut objects = Vec::with_capacity(alloc, before.len())?;
    for one in before {
        objects.push(one.clone()?)?;
    }
    put(&mut objects, at, object);
    Ok(objects)
}

/// Links a unit's object in the place of the one before, if the main subprogram is the same and the objects differ only in their code. Gives whether
/// that was so; if not, nothing is done.
fn exchanged(linked: &mut Linked, main: &LinkSymbol, at: usize, unit: &Rc<UnitObject>) -> bool
    ensures exchanged { IsTrue result → IsExchanged main.now at (object_model unit.now) linked.old linked.new }
    ensures otherwise { result ≡ false → linked.new ≡ linked.old }
{
    match &unit.object {
        Object::Large => false,
        Object::Compiled(object) => linked.exchange(main, at, &unit.key, object),
    }
}

/// Links units in the place of others, and keeps their objects. Gives whether an image can have their names, and the image passes no limit.
fn renewed_again(
    alloc: Global,
    program: &mut Program,
    main: &LinkSymbol,
    objects: Vec<Rc<UnitObject>>,
) -> Result<bool, NoMemory>
    requires { AreClosedObjects main.now (map object_model objects.items) }
    ensures again { IfOk result (IsLinkedAgain main.now (map object_model objects.items) program.old.linked program.new.linked) }
    ensures order { program.new.order ≡ program.old.order }
    ensures objects { IfOk result (λ fits. IsTrue fits → program.new.objects ≡ objects) }
    ensures err { OnErr result (program.new ≡ program.old) }
{
    if !are_named(objects.as_slice()) {
        return Ok(false);
    }
    let fits = linked_again(alloc, &mut program.linked, main, objects.as_slice())?;
    if !fits {
        return Ok(false);
    }
    program.objects = objects;
    Ok(true)
}

/// The program of a partition in the place of the one before, from which it differs in one unit's object; or only its order if the image would pass a
/// limit. Nothing is done if compiling gave no program before.
pub(crate) fn link_renewed(
    alloc: Global,
    renewal: Renewal,
    compiled: &mut Compiled,
) -> Result<usize, NoMemory>
    requires { IsClosedRenewal compiled.old renewal }
    ensures linked { OnOk result (IsLinkedOver renewal compiled.old compiled.new) }
    ensures patched { IfOk result (IsPatched (linked_in compiled.old) (linked_in compiled.new)) }
    ensures err { OnErr result (compiled.new ≡ compiled.old) }
{
    let Compiled::Made(program) = compiled else {
        return Ok(0);
    };
    let (main, at, object) = renewal.into_parts();
    if exchanged(&mut program.linked, &main, at, &object) {
        put(&mut program.objects, at, object);
        return Ok(program.linked.patched());
    }
    let objects = objects_with(alloc, program.objects.as_slice(), at, object)?;
    let fits = renewed_again(alloc, program, &main, objects)?;
    if fits {
        return Ok(program.linked.patched());
    }
    let order = std::mem::replace(&mut program.order, Vec::new(alloc));
    *compiled = Compiled::TooLarge(order);
    Ok(0)
}
