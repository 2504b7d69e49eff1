// The protected objects, whose words only the task inside them may touch.
ghost use Rattle.std.specs.Prelude.{[], ◌≡◌, ◌==◌, ◌+◌, ◌<◌, ◌≤◌, ◌^◌, ℕ, Some, length, slice_get, drop, true};
ghost use Rattle.std.specs.List.{list_any};
ghost use Rattle.al_link_image.specs.declared.parts.Region.{Region as Seen};
ghost use Rattle.al_machine.specs.Memory.{lies_apart, is_entered, is_open, follow_from};

use al_link_image::Region;
use std::marker::Model;

/// A protected object that a task is inside, by its number, and the task's priority before it entered.
#[derive(Clone, Copy)]
pub struct Entered {
    /// The number of the object.
    pub object: u32,
    /// The task's priority before it entered.
    pub before: u32,
}

/// The protected objects of an image by their numbers; and whether they follow each other in memory, as a linker lays them out, so that the
/// object of a word is found by a search.
pub struct Regions {
    regions: Vec<Region>,
    follow: bool,
}

impl Drop for Regions {
    fn drop(self) {
        let Regions {
            regions: _,
            follow: _,
        } = self;
    }
}

impl Model for Regions {
    ghost use Rattle.std.specs.Prelude.{◌≡◌, List, true};
    ghost use Rattle.al_link_image.specs.declared.parts.Region.{Region as Seen};

    ghost Value = { List Seen };

    ghost use Rattle.al_machine.specs.Memory.{follow_from};

    ghost view = { λ r. r.regions.items };

    ghost invariant = { λ r. r.follow ≡ true → follow_from 0 r.regions.items ≡ true };
}

impl Regions {
    /// The objects of an image.
    pub fn new(regions: Vec<Region>) -> Regions
        ensures { result ≡ regions.items }
    {
        let follow = do_follow(regions.as_slice());
        Regions { regions, follow }
    }

    /// The objects by their numbers.
    pub fn as_slice(&self) -> &[Region]
        ensures { result.now ≡ self.now }
    {
        self.regions.as_slice()
    }

    /// Whether a word lies apart from all objects: it is open to a task that is inside none. If the objects don't follow each
    /// other, the result is no.
    pub(crate) fn is_apart(&self, place: usize) -> bool
        requires { place + 1 < 2 ^ 63 }
        ensures { result ≡ true → is_open self.now [] 0 place 1 ≡ true }
    {
        self.follow && is_open(self, &[], place, 1)
    }
}

/// Whether each object begins at the end of the one before it or after that.
fn do_follow(regions: &[Region]) -> bool
    ensures { result ≡ follow_from 0 regions.now }
{
    let mut end = 0usize;
    for region in regions {
        if (region.address as usize) < end {
            return false;
        }
        end = region.address as usize + region.words as usize;
    }
    true
}

/// How many objects end at a place or before it, of those that follow each other.
fn ended(regions: &[Region], place: usize) -> usize
    requires { follow_from 0 regions.now ≡ true }
    ensures few { result ≤ length regions.now }
    ensures ended { (k : ℕ) (o : Seen) → k < result → slice_get regions.now k ≡ Some o → o.address + o.words ≤ place }
{
    let mut low = 0usize;
    let mut high = regions.len();
    while low < high {
        let middle = low + (high - low) / 2;
        let (_, end) = limits_of(known(regions, middle));
        if end <= place {
            low = middle + 1;
        } else {
            high = middle;
        }
    }
    low
}

/// The object of a number.
fn known(regions: &[Region], number: usize) -> &Region
    requires { number < length regions.now }
    ensures { slice_get regions.now number ≡ Some result.now }
{
    &regions[number]
}

/// The place at which an object's words begin, and the place after them.
fn limits_of(region: &Region) -> (usize, usize)
    ensures { result ≡ (region.now.address, region.now.address + region.now.words) }
{
    let address = region.address as usize;
    (address, address + region.words as usize)
}

/// Whether the words from a place on lie apart from the object's.
fn lies_apart(region: &Region, from: usize, words: usize) -> bool
    requires { from + words < 2 ^ 63 }
    ensures { result ≡ lies_apart region.now from words }
{
    words == 0
        || region.words == 0
        || from + words <= region.address as usize
        || region.address as usize + region.words as usize <= from
}

/// Whether the object of a number is among those entered.
pub fn is_entered(inside: &[Entered], number: usize) -> bool
    ensures { result ≡ is_entered inside.now number }
{
    inside
        .iter()
        .any(|entered| entered.object as usize == number)
}

/// Whether a task inside those objects may touch the words from a place on, of the objects from a number on. If these follow each
/// other, those after the words aren't looked at.
fn is_open_from(
    regions: &[Region],
    follow: bool,
    inside: &[Entered],
    number: usize,
    from: usize,
    words: usize,
) -> bool
    requires follow { follow ≡ true → follow_from 0 regions.now ≡ true }
    requires number { number ≤ length regions.now }
    requires words { from + words < 2 ^ 63 }
    ensures { result ≡ is_open (drop number regions.now) inside.now number from words }
{
    for at in number..regions.len() {
        let (begin, _) = limits_of(known(regions, at));
        if follow && from + words <= begin {
            return true;
        }
        let object = &regions[at];
        if !lies_apart(object, from, words) && !is_entered(inside, at) {
            return false;
        }
    }
    true
}

/// Whether a task inside those objects may touch the words from a place on. All objects follow each other: those that end before
/// the words are passed over.
fn is_open_by_search(regions: &[Region], inside: &[Entered], from: usize, words: usize) -> bool
    requires follow { follow_from 0 regions.now ≡ true }
    requires words { from + words < 2 ^ 63 }
    ensures { result ≡ is_open regions.now inside.now 0 from words }
{
    let first = ended(regions, from);
    is_open_from(regions, true, inside, first, from, words)
}

/// Whether a task inside those objects may touch the words from a place on.
#[inline(never)]
pub fn is_open(objects: &Regions, inside: &[Entered], from: usize, words: usize) -> bool
    requires { from + words < 2 ^ 63 }
    ensures { result ≡ is_open objects.now inside.now 0 from words }
{
    let regions = objects.regions.as_slice();
    if objects.follow {
        return is_open_by_search(regions, inside, from, words);
    }
    is_open_from(regions, false, inside, 0, from, words)
}
