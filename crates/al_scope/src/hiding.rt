// What regions have of one name, and what of it is visible.
ghost use Rattle.std.specs.Prelude.{◌≡◌, List, [], ◌∷◌, IfOk, OnOk, filter, is_ok, not, true};
ghost use Rattle.std.specs.List.{list_all, list_any};
ghost use Rattle.al_view.specs.Homographs.{homographs, may_be_overloaded};
ghost use Rattle.al_scope.specs.declared.hiding.RegionEntry.{RegionEntry};
ghost use Rattle.al_scope.specs.Searches.{IsSearch};
ghost use Rattle.al_scope.specs.Visible.{clash, decides, shuts_out, use_visible};

use al_base::NoMemory;
use al_view::{View, Views};
use std::alloc::Global;

/// What a region has of a name.
#[derive(Drop)]
pub struct RegionEntry {
    /// Whether a declaration of the name was begun.
    pub begun: bool,
    /// The declarations of the name.
    pub views: Views,
}

/// Whether some of the views is a homograph.
pub fn has_homograph(view: &View, views: &[View]) -> bool
    ensures { result ≡ list_any (homographs view.now) views.now }
{
    views.iter().any(|other| view.is_homograph_of(other))
}

/// Whether the region shuts the view out.
fn shuts(view: &View, found: &RegionEntry) -> bool
    ensures { result ≡ shuts_out view.now found.now }
{
    found.begun || has_homograph(view, found.views.as_slice())
}

/// Whether some region shuts the view out.
fn shuts_any(view: &View, founds: &[RegionEntry]) -> bool
    ensures { result ≡ list_any (shuts_out view.now) founds.now }
{
    founds.iter().any(|found| shuts(view, found))
}

/// The views that no region shuts out. If there are none, it takes no memory.
fn left_by(alloc: Global, founds: &[RegionEntry], views: &Views) -> Result<Views, NoMemory>
    ensures is { IfOk result (λ left. left ≡ filter (λ v. not (list_any (shuts_out v) founds.now)) views.now) }
    ensures takes_none { filter (λ v. not (list_any (shuts_out v) founds.now)) views.now ≡ [] → is_ok result ≡ true }
{
    let mut left = Views::new(alloc);
    for view in views.as_slice() {
        if !shuts_any(view, founds) {
            left.push(view.share()?)?;
        }
    }
    Ok(left)
}

/// Whether all may be overloaded.
fn all_overload(views: &[View]) -> bool
    ensures { result ≡ list_all may_be_overloaded views.now }
{
    views.iter().all(|view| view.may_be_overloaded())
}

/// Whether what the region has of the name shuts out every other declaration of it: one that was begun, or one that may
/// not be overloaded.
fn is_decided(found: &RegionEntry) -> bool
    ensures { result ≡ decides found.now }
{
    found.begun || !all_overload(found.views.as_slice())
}

/// What regions have of one name, from the innermost outward, as far as they were looked into.
#[derive(Drop)]
pub struct Search {
    /// What is directly visible of the name, that of the innermost region first.
    pub direct: Views,
    /// What each region that was looked into has of the name, innermost first.
    pub founds: Vec<RegionEntry>,
    /// Whether one of them decides: it shuts out every other declaration of the name.
    pub is_decided: bool,
}

impl Search {
    /// A search that has looked into no region. It takes no memory.
    pub fn new(alloc: Global) -> Self
        ensures { IsSearch [] result }
    {
        Search {
            direct: Views::new(alloc),
            founds: Vec::new(alloc),
            is_decided: false,
        }
    }

    /// Looks into one region further out, which has this entry of the name.
    /// # Errors
    /// `NoMemory` if the allocator refuses memory.
    pub fn go_outward(&mut self, alloc: Global, found: RegionEntry) -> Result<(), NoMemory>
        ensures { OnOk result ((founds : List RegionEntry) → IsSearch founds self.old → IsSearch (found ∷ founds) self.new) }
    {
        let seen = left_by(alloc, self.founds.as_slice(), &found.views)?;
        self.direct.append(seen.as_slice())?;
        self.is_decided = self.is_decided || is_decided(&found);
        self.founds.push(found)?;
        Ok(())
    }
}

/// Whether there are several views that can't all be overloaded.
fn do_clash(views: &Views) -> bool
    ensures { result ≡ clash views.now }
{
    views.as_slice().len() > 1 && !all_overload(views.as_slice())
}

/// The use-visible views among those that are potentially use-visible. If there are none, it takes no memory.
/// # Errors
/// `NoMemory` if the allocator refuses memory; never if no view is use-visible.
pub fn use_visible_of(
    alloc: Global,
    founds: &[RegionEntry],
    views: &Views,
) -> Result<Views, NoMemory>
    ensures is { IfOk result (λ left. left ≡ use_visible founds.now views.now) }
    ensures takes_none { use_visible founds.now views.now ≡ [] → is_ok result ≡ true }
{
    if do_clash(views) {
        return Ok(Views::new(alloc));
    }
    left_by(alloc, founds, views)
}
