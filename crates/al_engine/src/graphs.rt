// What a build can take over of the last build's graph.
ghost use Rattle.std.specs.Prelude.{◌≡◌, ℕ, List, Some, IfOk, IfSome, IsTrue, MatchOption, map};
ghost use Rattle.std.specs.List.{Contains};
ghost use Rattle.al_base.specs.Batch.{Finding, key_of};
ghost use Rattle.al_unit_graph.specs.Traces.{AreReadAlike};
ghost use Rattle.al_unit_faults.specs.FilesSeen.{file_faults_model};
ghost use Rattle.al_bind.specs.Binding.{IsElaboration};
ghost use Rattle.al_engine.specs.GraphGraphs.{HaveSameGraph, HaveSameHeaders};
ghost use Rattle.al_engine.specs.Kept.{IsGraphOf};
ghost use Rattle.al_engine.specs.Graphs.{AreElaborations, IsOrderOf};
ghost use Rattle.al_engine.specs.Texts.{HaveTextsBut, IsKeptFault};

use crate::graph_laws::graphs_go_by_headers;
use crate::last_build::LastBuild;
use crate::orders::{KnownOrder, add_order, order_of, shared_orders};
use crate::read_files::ReadFiles;
use crate::{Edited, Planned, UnitGraph};
use al_base::{Name, NoMemory, UnitKey};
use al_unit_faults::FileFaults;
use std::alloc::Global;
use std::rc::Rc;

/// Whether the errors of a file as a unit among others are the same after these edits: there are none, or its source is unchanged.
fn is_kept(faults: &FileFaults, edited: &Edited) -> bool
    ensures { IsTrue result → IsKeptFault edited.now (file_faults_model faults.now) }
{
    faults.faults.is_empty() || !edited.has(faults.file.as_slice())
}

/// Whether none of the edited files breaks a rule of the graph.
fn are_kept(faults: &[FileFaults], edited: &Edited) -> bool
    ensures { IsTrue result → ((f : List ℕ × List Finding) → Contains (map file_faults_model faults.now) f → IsKeptFault edited.now f) }
{
    for file in faults {
        if !is_kept(file, edited) {
            return false;
        }
    }
    true
}

/// The last build and the edited files, if there was a build and it is known which files may have other sources. `None` if one of these files breaks
/// a rule of the graph: the place of that error may be another one.
fn with_last<'a, R: ReadFiles>(
    read: &R,
    last: &'a Option<LastBuild<R>>,
    edited: Edited,
) -> (Option<&'a LastBuild<R>>, Edited)
    requires reading { IfSome last.now (λ b. AreReadAlike (R.library (R.files b.read)) (R.library (R.files read.now))) }
    requires graph { IfSome last.now (λ b. IsGraphOf (R.library (R.files b.read)) b.graph.value) }
    requires edited { IfSome last.now (λ b. HaveSameHeaders (R.library (R.files b.read)) (R.library (R.files read.now)) × HaveTextsBut (R.library (R.files b.read)) (R.library (R.files read.now)) edited) }
    ensures found { IfSome result.0 (λ b. (last.now ≡ Some b.now) × HaveSameGraph (R.library (R.files b.now.read)) (R.library (R.files read.now))) }
    ensures edited { IfSome result.0 (λ b. HaveTextsBut (R.library (R.files b.now.read)) (R.library (R.files read.now)) result.1) }
{
    graphs_go_by_headers();
    let _read = read;
    match last {
        Some(last) => if are_kept(last.graph.faults.as_slice(), &edited) {
            (Some(last), edited)
        } else {
            (None, edited)
        },
        None => (None, edited),
    }
}

/// The last build, if its files are known to be those that were read now, each read as the same except for places, and no edited one breaks a rule of
/// the graph. The second result says which files may have other sources.
pub(crate) fn alike<'a, R: ReadFiles>(
    alloc: Global,
    read: &R,
    last: &'a Option<LastBuild<R>>,
    edited: Option<Edited>,
) -> (Option<&'a LastBuild<R>>, Edited)
    requires reading { IfSome last.now (λ b. AreReadAlike (R.library (R.files b.read)) (R.library (R.files read.now))) }
    requires graph { IfSome last.now (λ b. IsGraphOf (R.library (R.files b.read)) b.graph.value) }
    requires edited { IfSome edited (λ e. IfSome last.now (λ b. HaveSameHeaders (R.library (R.files b.read)) (R.library (R.files read.now)) × HaveTextsBut (R.library (R.files b.read)) (R.library (R.files read.now)) e)) }
    ensures found { IfSome result.0 (λ b. (last.now ≡ Some b.now) × HaveSameGraph (R.library (R.files b.now.read)) (R.library (R.files read.now))) }
    ensures edited { IfSome result.0 (λ b. HaveTextsBut (R.library (R.files b.now.read)) (R.library (R.files read.now)) result.1) }
{
    match edited {
        Some(edited) => with_last(read, last, edited),
        None => (None, Edited::nothing(alloc)),
    }
}

/// The graph of the files that were read. It is shared with a build whose files have the same graph, if there is one.
///
/// # Errors
///
/// `NoMemory` if the allocator refuses memory.
pub(crate) fn graph_now<R: ReadFiles>(
    alloc: Global,
    read: &R,
    alike: Option<&LastBuild<R>>,
) -> Result<Rc<UnitGraph>, NoMemory>
    requires { IfSome alike (λ b. IsGraphOf (R.library (R.files b.now.read)) b.now.graph.value × HaveSameGraph (R.library (R.files b.now.read)) (R.library (R.files read.now))) }
    ensures { IfOk result (λ graph. IsGraphOf (R.library (R.files read.now)) graph.value) }
{
    graphs_go_by_headers();
    match alike {
        Some(build) => Ok(build.graph.clone()?),
        None => {
            let graph = UnitGraph::of(alloc, read.sources())?;
            Ok(Rc::new(alloc, graph)?)
        }
    }
}

/// The order of elaboration for this main unit, if a build whose files have the same graph knows it.
pub(crate) fn order_now<'a, R: ReadFiles>(
    main: &[u8],
    read: &R,
    alike: Option<&'a LastBuild<R>>,
) -> Option<&'a [UnitKey]>
    requires { IfSome alike (λ b. AreElaborations (R.library (R.files b.now.read)) (map (λ o. o.value) b.now.orders.items) × HaveSameGraph (R.library (R.files b.now.read)) (R.library (R.files read.now))) }
    ensures { IfSome result (λ order. IsElaboration (R.library (R.files read.now)) main.now (map key_of order.now)) }
{
    graphs_go_by_headers();
    let _read = read;
    let Some(build) = alike else {
        return None;
    };
    order_of(build.orders.as_slice(), main)
}

/// The main unit of the last build, if its files have the same graph.
pub(crate) fn main_of<R>(alike: Option<&LastBuild<R>>) -> Option<&[u8]>
    ensures { IfSome result (λ main. MatchOption alike.entry ⊥ (λ b. b.now.main ≡ main.now)) }
{
    match alike {
        Some(build) => Some(build.main.as_slice()),
        None => None,
    }
}

/// The orders that a build whose files have the same graph knows; none if there is no such build.
fn known_orders<R: ReadFiles>(
    alloc: Global,
    read: &R,
    alike: Option<&LastBuild<R>>,
) -> Result<Vec<Rc<KnownOrder>>, NoMemory>
    requires { IfSome alike (λ b. AreElaborations (R.library (R.files b.now.read)) (map (λ o. o.value) b.now.orders.items) × HaveSameGraph (R.library (R.files b.now.read)) (R.library (R.files read.now))) }
    ensures { IfOk result (λ orders. AreElaborations (R.library (R.files read.now)) (map (λ o. o.value) orders.items)) }
{
    graphs_go_by_headers();
    let _read = read;
    let Some(build) = alike else {
        return Ok(Vec::new(alloc));
    };
    let orders = shared_orders(alloc, build.orders.as_slice())?;
    Ok(orders)
}

/// The orders that a build whose files have the same graph knows, with that of a partition that is to be linked.
///
/// # Errors
///
/// `NoMemory` if the allocator refuses memory.
pub(crate) fn orders_now<R: ReadFiles>(
    alloc: Global,
    main: &[u8],
    read: &R,
    alike: Option<&LastBuild<R>>,
    is_known: bool,
    planned: &Planned,
) -> Result<Vec<Rc<KnownOrder>>, NoMemory>
    requires known { IfSome alike (λ b. AreElaborations (R.library (R.files b.now.read)) (map (λ o. o.value) b.now.orders.items) × HaveSameGraph (R.library (R.files b.now.read)) (R.library (R.files read.now))) }
    requires planned { IsOrderOf (R.library (R.files read.now)) main.now planned.now }
    ensures { IfOk result (λ orders. AreElaborations (R.library (R.files read.now)) (map (λ o. o.value) orders.items)) }
{
    let mut orders = known_orders(alloc, read, alike)?;
    if is_known {
        return Ok(orders);
    }
    add_order(alloc, main, planned, &mut orders)?;
    Ok(orders)
}
