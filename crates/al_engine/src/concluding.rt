// The end of a build: its result, and what is kept behind it.
ghost use Rattle.std.specs.Prelude.{ℕ, ◌≡◌, true, List, Option, None, IfOk, IfSome, OnErr, OnOk, map};
ghost use Rattle.al_base.specs.declared.unit_key.UnitKey.{UnitKey};
ghost use Rattle.al_unit_graph.specs.Headers.{Library};
ghost use Rattle.al_query_outcome.specs.Results.{Outcome};
ghost use Rattle.al_engine.specs.Batches.{IsBatch};
ghost use Rattle.al_engine.specs.Earlier.{IsBase, IsBehind, KeepsEarlier, base_at, earlier_or, over};
ghost use Rattle.al_engine.specs.Links.{IsLinkedAs, IsLinkedOver};
ghost use Rattle.al_engine.specs.ObjectsSeen.{object_model};
ghost use Rattle.al_engine.specs.Patches.{IsPatched, linked_in};
ghost use Rattle.al_engine.specs.Plans.{AreClosedObjects, IsClosedPlan, IsClosedRenewal, IsPlanned};
ghost use Rattle.al_engine.specs.declared.rebuilding.Rebuilt.{Rebuilt};

use crate::compiled::Compiled;
use crate::earlier::Base;
use crate::linking::{link_partition, link_renewed};
use crate::planned::{Partition, Planned, Renewal};
use crate::rebuilding::Rebuilt;
use al_base::NoMemory;
use std::alloc::Global;

/// Ends a build that gave no image. The result from which it went on is kept behind it.
fn fail(compiled: Compiled, base: Option<Base>, gave: &mut Rebuilt)
    ensures compiled { gave.new.compiled ≡ compiled }
    ensures earlier { (lib : Library) (f : UnitKey → Option Outcome) → IfSome base (IsBase lib f gave.old) → KeepsEarlier lib f gave.new.earlier }
{
    let last = std::mem::replace(&mut gave.compiled, compiled);
    let earlier = std::mem::replace(&mut gave.earlier, None);
    gave.earlier = match base {
        Some(base) => Some(base.into_earlier(last, earlier)),
        None => None,
    };
}

/// Ends a build that links a partition of its own.
fn link_own(alloc: Global, partition: Partition, gave: &mut Rebuilt) -> Result<usize, NoMemory>
    requires { AreClosedObjects partition.main (map object_model partition.objects.items) }
    ensures linked { OnOk result (IsLinkedAs partition.main (map object_model partition.objects.items) partition.order.items gave.new.compiled) }
    ensures patched { IfOk result (IsPatched (linked_in gave.old.compiled) (linked_in gave.new.compiled)) }
    ensures earlier { OnOk result (gave.new.earlier ≡ None) }
    ensures err { OnErr result (gave.new ≡ gave.old) }
{
    let patched = link_partition(alloc, partition, &mut gave.compiled)?;
    gave.earlier = None;
    Ok(patched)
}

/// Ends a build that goes on from the last one.
fn link_last(alloc: Global, renewal: Renewal, gave: &mut Rebuilt) -> Result<usize, NoMemory>
    requires { IsClosedRenewal gave.old.compiled renewal }
    ensures linked { OnOk result (IsLinkedOver renewal gave.old.compiled gave.new.compiled) }
    ensures patched { IfOk result (IsPatched (linked_in gave.old.compiled) (linked_in gave.new.compiled)) }
    ensures earlier { OnOk result (gave.new.earlier ≡ None) }
    ensures err { OnErr result (gave.new ≡ gave.old) }
{
    let patched = link_renewed(alloc, renewal, &mut gave.compiled)?;
    gave.earlier = None;
    Ok(patched)
}

/// Ends a build that goes on from the result that was kept behind builds without an image.
fn link_earlier(alloc: Global, renewal: Renewal, gave: &mut Rebuilt) -> Result<usize, NoMemory>
    requires closed { IsClosedRenewal (earlier_or gave.old.earlier gave.old.compiled) renewal }
    requires behind { linked_in gave.old.compiled ≡ None }
    ensures linked { OnOk result (IsLinkedOver renewal (earlier_or gave.old.earlier gave.old.compiled) gave.new.compiled) }
    ensures patched { IfOk result (IsPatched (linked_in gave.old.compiled) (linked_in gave.new.compiled)) }
    ensures earlier { OnOk result (gave.new.earlier ≡ None) }
    ensures err { OnErr result (gave.new ≡ gave.old) }
{
    let Some(earlier) = std::mem::replace(&mut gave.earlier, None) else {
        return Ok(0);
    };
    let mut earlier = earlier;
    match link_renewed(alloc, renewal, &mut earlier.compiled) {
        Ok(_) => {
            gave.compiled = earlier.into_compiled();
            Ok(0)
        }
        Err(NoMemory) => {
            gave.earlier = Some(earlier);
            Err(NoMemory)
        }
    }
}

/// Whether a build goes on from the earlier result.
fn is_over_earlier(base: &Option<Base>) -> bool
    ensures over { (gave : Rebuilt) → over gave base.now ≡ base_at gave result }
    ensures behind { (gave : Rebuilt) → IfSome base.now (IsBehind gave) → result ≡ true → linked_in gave.compiled ≡ None }
{
    match base {
        Some(base) => base.is_earlier,
        None => false,
    }
}

/// Ends a build that goes on from another one.
fn link_over(
    alloc: Global,
    renewal: Renewal,
    base: Option<Base>,
    gave: &mut Rebuilt,
) -> Result<usize, NoMemory>
    requires closed { IsClosedRenewal (over gave.old base) renewal }
    requires behind { IfSome base (IsBehind gave.old) }
    ensures linked { OnOk result (IsLinkedOver renewal (over gave.old base) gave.new.compiled) }
    ensures patched { IfOk result (IsPatched (linked_in gave.old.compiled) (linked_in gave.new.compiled)) }
    ensures earlier { OnOk result (gave.new.earlier ≡ None) }
    ensures err { OnErr result (gave.new ≡ gave.old) }
{
    if is_over_earlier(&base) {
        return link_earlier(alloc, renewal, gave);
    }
    link_last(alloc, renewal, gave)
}

/// Replaces the result of compiling by that of the plan. If there was an image and is one, it is linked again in its place: if the units are as
/// before in their lengths, counts, symbols and lines, only what differs is written. What a build without an image went on from is kept behind it,
/// and is linked again in its place by a build that goes on from that. Gives the number of units whose code was written: those that differ if all is
/// as before except for bytes, else all; 0 if there was no image or is none. What is to be linked defines the main subprogram's code and all that
/// its units use.
///
/// # Errors
///
/// `NoMemory` if the allocator refuses memory: everything is then as before.
pub(crate) fn conclude(
    alloc: Global,
    planned: Planned,
    base: Option<Base>,
    gave: &mut Rebuilt,
) -> Result<usize, NoMemory>
    requires closed { IsClosedPlan (over gave.old base) planned }
    requires behind { IfSome base (IsBehind gave.old) }
    ensures batch { OnOk result ((lib : Library) (f : UnitKey → Option Outcome) (main : List ℕ) → IsPlanned lib f main (over gave.old base) planned → IsBatch lib f main gave.new.compiled) }
    ensures earlier { OnOk result ((lib : Library) (f : UnitKey → Option Outcome) → IfSome base (IsBase lib f gave.old) → KeepsEarlier lib f gave.new.earlier) }
    ensures patched { IfOk result (IsPatched (linked_in gave.old.compiled) (linked_in gave.new.compiled)) }
    ensures err { OnErr result (gave.new ≡ gave.old) }
{
    match planned {
        Planned::Faulty(found) => {
            fail(Compiled::Faulty(found), base, gave);
            Ok(0)
        }
        Planned::Unbound(fault) => {
            fail(Compiled::Unbound(fault), base, gave);
            Ok(0)
        }
        Planned::Linkable(partition) => link_own(alloc, partition, gave),
        Planned::Renewed(renewal) => link_over(alloc, renewal, base, gave),
    }
}
