// An image that can be linked again in its place.
ghost use Rattle.std.specs.Prelude.{◌≡◌, ◌≤◌, ◌↔◌, false, IsTrue, IsOk, length, map, vec_capacity, IfOk, IfErr, OnOk, OnErr};
ghost use Rattle.std.specs.List.{All};
ghost use Rattle.al_link_image.specs.Images.{IsUnitName, image_bytes};
ghost use Rattle.al_link_image.specs.Parts.{IsWhole, image_of as image_of_parts};
ghost use Rattle.al_link.specs.Closed.{AreClosedUnits};
ghost use Rattle.al_link.specs.Images.{image_of};
ghost use Rattle.al_link.specs.Kept.{IsPrepared, kept_model, prepared_size};
ghost use Rattle.al_link.specs.Partitions.{AreLinkable, IsFaultOf, compiled_units};
ghost use Rattle.al_link.specs.Relinking.{AreAsBefore, IsInPlace, differing, exchanged, shapes_kept, shapes_left};
ghost use Rattle.al_link.specs.Units.{AreWithin, totals, unit_model};

use crate::exchanging::{code_place, is_in_place, write_over};
use crate::kept::{KeptUnit, all_kept, are_same_units, copied_symbol, keep_all, keep_code};
use crate::linking::{CompiledUnit, compiled};
use crate::places::Places;
use crate::prepared::{Prepared, prepare};
use crate::refilling::refill;
use crate::sizes::image_size;
use crate::units::LinkUnit;
use crate::writing::write_all;
use al_base::UnitKey;
use al_code_object::{Compiled, is_same_symbol};
use al_link_image::{Image, ImageParts, LinkFault};
use al_view::LinkSymbol;
use std::alloc::Global;
use std::marker::Model;

/// An image with all that was linked, which can be linked again in its place.
#[derive(Drop)]
pub struct Linked {
    alloc: Global,
    main: LinkSymbol,
    kept: Vec<KeptUnit>,
    places: Places,
    start: Vec<u8>,
    image: Image,
    bytes: Vec<u8>,
    count: usize,
}

impl Model for Linked {
    ghost use Rattle.std.specs.Prelude.{◌≡◌, map};
    ghost use Rattle.al_link_image.specs.Images.{image_bytes};
    ghost use Rattle.al_link.specs.Kept.{IsLinked, kept_model};
    ghost use Rattle.al_link.specs.Relinking.{LinkedImage};

    ghost Value = { LinkedImage };

    ghost view = { λ l. record { main = l.main; units = map kept_model l.kept.items; patched = l.count } };

    ghost invariant = { λ l. IsLinked l.main (map kept_model l.kept.items) l.image l.places l.start.items × (l.bytes.items ≡ image_bytes l.image) };
}

// What a link gives: the image, its bytes, and what is kept of its units.
#[derive(Drop)]
struct Fresh {
    main: LinkSymbol,
    kept: Vec<KeptUnit>,
    prepared: Prepared,
}

// All that an image of these units is made of, except their code.
fn collect(alloc: Global, main: &LinkSymbol, units: &[CompiledUnit<'_>]) -> Result<Fresh, LinkFault>
    requires { All (λ u. IsUnitName u.key.now.name) units.now }
    ensures main { IfOk result (λ f. f.main ≡ main.now) }
    ensures kept { IfOk result (λ f. map kept_model f.kept.items ≡ compiled_units units.now) }
    ensures prepared { IfOk result (λ f. IsPrepared main.now (compiled_units units.now) f.prepared) }
    ensures within { OnOk result (AreLinkable units.now) }
    ensures fault { IfErr result (IsFaultOf units.now) }
{
    let found = compiled(alloc, units)?;
    let prepared = prepare(alloc, main, &found)?;
    let kept = all_kept(alloc, units)?;
    let main = copied_symbol(alloc, main)?;
    Ok(Fresh {
        main,
        kept,
        prepared,
    })
}

// The image of units whose code is written over `code`, which is as long as theirs. Its bytes replace `bytes` if there is room for them.
fn make(
    alloc: Global,
    fresh: Fresh,
    code: Vec<u8>,
    bytes: Vec<u8>,
    units: &[CompiledUnit<'_>],
    count: usize,
) -> Linked
    requires kept { map kept_model fresh.kept.items ≡ compiled_units units.now }
    requires prepared { IsPrepared fresh.main (compiled_units units.now) fresh.prepared }
    requires room { length code.items ≡ (totals (compiled_units units.now)).code }
    requires bytes_room { prepared_size fresh.prepared ≤ vec_capacity bytes }
    ensures { result ≡ record { main = fresh.main; units = compiled_units units.now; patched = count } }
{
    let Fresh {
        main,
        kept,
        prepared,
    } = fresh;
    let Prepared {
        totals,
        places,
        start,
        protected,
        objects,
        lines,
    } = prepared;
    let mut code = code;
    write_all(&mut code, &start, units, &places);
    let image = Image::new(ImageParts {
        tasks: totals.tasks,
        data_words: totals.words,
        protected,
        objects,
        code,
        lines: Some(lines),
    });
    let mut bytes = bytes;
    let _written = image.bytes_into(&mut bytes);
    Linked {
        alloc,
        main,
        kept,
        places,
        start,
        image,
        bytes,
        count,
    }
}

// The parts of an image, taken from it. It takes no memory.
fn taken(alloc: Global, image: &mut Image) -> ImageParts
    ensures value { image.old ≡ image_of_parts result }
    ensures whole { IsWhole result }
{
    let old = std::mem::replace(image, Image::empty(alloc));
    old.into_parts()
}

impl Linked {
    /// The image of a partition's units, as `link` makes it. The units define the main subprogram's code and all that they use.
    ///
    /// # Errors
    ///
    /// `TooLarge` if the code of a unit is longer than that of any image, or a limit of images is passed, and only then; else `NoMemory` if the
    /// allocator refuses memory.
    pub fn new(
        alloc: Global,
        main: &LinkSymbol,
        units: &[CompiledUnit<'_>],
    ) -> Result<Linked, LinkFault>
        requires named { All (λ u. IsUnitName u.key.now.name) units.now }
        requires closed { AreClosedUnits main.now units.now }
        ensures linked { IfOk result (λ linked. linked ≡ record { main = main.now; units = compiled_units units.now; patched = 0 }) }
        ensures within { OnOk result (AreLinkable units.now) }
        ensures fault { IfErr result (IsFaultOf units.now) }
    {
        let fresh = collect(alloc, main, units)?;
        let bytes = Vec::with_capacity(alloc, image_size(&fresh.prepared))?;
        let mut code = Vec::new(alloc);
        code.resize(fresh.prepared.totals.code as usize, 0)?;
        Ok(make(alloc, fresh, code, bytes, units, 0))
    }

    /// The image. It takes no memory.
    pub fn image(&self) -> &Image
        ensures { result.now ≡ image_of self.now.main self.now.units }
    {
        &self.image
    }

    /// The image's bytes. It takes no memory.
    pub fn bytes(&self) -> &[u8]
        ensures { result.now ≡ image_bytes (image_of self.now.main self.now.units) }
    {
        self.bytes.as_slice()
    }

    /// The image, without what is kept of its units.
    pub fn into_image(self) -> Image
        ensures { result ≡ image_of self.main self.units }
    {
        let Linked {
            alloc: _,
            main: _,
            kept: _,
            places: _,
            start: _,
            image,
            bytes: _,
            count: _,
        } = self;
        image
    }

    /// The number of units whose code was written by the last call of `relink`, or of `exchange` that gave true. If lengths, counts and symbols were
    /// as before, these are the units whose code differed, else all. 0 after `new`.
    pub fn patched(&self) -> usize
        ensures { result ≡ self.now.patched }
    {
        self.count
    }

    // Whether the main subprogram and the units are as before, except for the bytes of the units' code.
    fn is_as_before(&self, main: &LinkSymbol, units: &[CompiledUnit<'_>]) -> bool
        ensures { IsTrue result ↔ AreAsBefore self.now main.now units.now }
    {
        is_same_symbol(main, &self.main) && are_same_units(&self.kept, units)
    }

    // Writes other bytes of code for units that are as before except for that. It takes no memory.
    fn write_again(&mut self, units: &[CompiledUnit<'_>])
        requires { shapes_left units.now ≡ shapes_kept self.old.units }
        ensures linked { self.new ≡ record { main = self.old.main; units = compiled_units units.now; patched = differing self.old.units (compiled_units units.now) } }
        ensures within { AreLinkable units.now }
    {
        let mut parts = taken(self.alloc, &mut self.image);
        let _filled = refill(&mut parts.protected, units, parts.data_words);
        write_all(&mut parts.code, &self.start, units, &self.places);
        self.image = Image::new(parts);
        let _written = self.image.bytes_into(&mut self.bytes);
        self.count = keep_all(&mut self.kept, units);
    }

    // Writes another object of a unit in the place of the one before. It takes no memory.
    fn write_one(&mut self, at: usize, unit: &LinkUnit<'_>)
        requires { IsInPlace self.old.units at (unit_model unit.now) }
        ensures linked { self.new ≡ exchanged self.old at (unit_model unit.now) }
        ensures within { AreWithin self.new.units }
    {
        unit.object.keeps();
        let mut parts = taken(self.alloc, &mut self.image);
        let place = parts.objects[at].place as usize;
        let front = code_place(&parts, self.bytes.len());
        write_over(
            &mut parts.code,
            &mut self.bytes,
            front,
            place,
            unit.object,
            &self.places,
        );
        self.image = Image::new(parts);
        self.count = keep_code(&mut self.kept[at], unit.object);
    }

    // Links other units.
    fn write_anew(&mut self, main: &LinkSymbol, units: &[CompiledUnit<'_>]) -> Result<(), LinkFault>
        requires { All (λ u. IsUnitName u.key.now.name) units.now }
        ensures linked { OnOk result (self.new ≡ record { main = main.now; units = compiled_units units.now; patched = length units.now }) }
        ensures within { OnOk result (AreLinkable units.now) }
        ensures unchanged { OnErr result (self.new ≡ self.old) }
        ensures fault { IfErr result (IsFaultOf units.now) }
    {
        let fresh = collect(self.alloc, main, units)?;
        self.bytes.reserve(image_size(&fresh.prepared))?;
        let mut parts = taken(self.alloc, &mut self.image);
        if let Err(error) = parts.code.resize(fresh.prepared.totals.code as usize, 0) {
            self.image = Image::new(parts);
            return Err(LinkFault::from(error));
        }
        let bytes = std::mem::replace(&mut self.bytes, Vec::new(self.alloc));
        *self = make(
            self.alloc,
            fresh,
            parts.into_code(),
            bytes,
            units,
            units.len(),
        );
        Ok(())
    }

    /// Links a partition's units, which are closed as for `new`, in the place of those before. If the main subprogram and all lengths, counts and
    /// symbols are as before, it takes no memory.
    ///
    /// # Errors
    ///
    /// As for `new`; the image is then as before.
    pub fn relink(&mut self, main: &LinkSymbol, units: &[CompiledUnit<'_>]) -> Result<(), LinkFault>
        requires named { All (λ u. IsUnitName u.key.now.name) units.now }
        requires closed { AreClosedUnits main.now units.now }
        ensures main { OnOk result (self.new.main ≡ main.now) }
        ensures units { OnOk result (self.new.units ≡ compiled_units units.now) }
        ensures within { OnOk result (AreLinkable units.now) }
        ensures unchanged { OnErr result (self.new ≡ self.old) }
        ensures fault { IfErr result (IsFaultOf units.now) }
        ensures as_before { AreAsBefore self.old main.now units.now → IsOk result }
        ensures patched { AreAsBefore self.old main.now units.now → self.new.patched ≡ differing self.old.units (compiled_units units.now) }
        ensures otherwise { OnOk result ((AreAsBefore self.old main.now units.now → ⊥) → self.new.patched ≡ length units.now) }
    {
        if self.is_as_before(main, units) {
            self.write_again(units);
            return Ok(());
        }
        self.write_anew(main, units)
    }

    /// Links the object of one unit in the place of the one before, if that is possible: the main subprogram is the same, the unit at that place has
    /// this key, and its object is as before in its lengths, counts, symbols, lines and protected objects. Then only its code is written, in the
    /// image and in its bytes, and no other unit is looked at. Gives whether it was possible; if not, nothing is done. It takes no memory.
    pub fn exchange(
        &mut self,
        main: &LinkSymbol,
        at: usize,
        key: &UnitKey,
        object: &Compiled,
    ) -> bool
        ensures whether { IsTrue result ↔ (main.now ≡ self.old.main) × IsInPlace self.old.units at (record { key = key.now; object = object.now }) }
        ensures exchanged { IsTrue result → self.new ≡ exchanged self.old at (record { key = key.now; object = object.now }) }
        ensures within { IsTrue result → AreWithin self.new.units }
        ensures unchanged { result ≡ false → self.new ≡ self.old }
    {
        let unit = LinkUnit { key, object };
        if !is_same_symbol(main, &self.main) || at >= self.kept.len() {
            return false;
        }
        if !is_in_place(&self.kept[at], &unit) {
            return false;
        }
        self.write_one(at, &unit);
        true
    }
}

/// The image of a partition's units, in this order: the items in the order of their elaboration, a body's subunits after it. `main` is the symbol of
/// the main subprogram's code. The units define it, and all that they use.
///
/// # Errors
///
/// `TooLarge` if the code of a unit is longer than that of any image, or a limit of images is passed, and only then; else `NoMemory` if the
/// allocator refuses memory.
pub fn link(
    alloc: Global,
    main: &LinkSymbol,
    units: &[CompiledUnit<'_>],
) -> Result<Image, LinkFault>
    requires named { All (λ u. IsUnitName u.key.now.name) units.now }
    requires closed { AreClosedUnits main.now units.now }
    ensures image { IfOk result (λ image. image ≡ image_of main.now (compiled_units units.now)) }
    ensures within { OnOk result (AreLinkable units.now) }
    ensures fault { IfErr result (IsFaultOf units.now) }
{
    let linked = Linked::new(alloc, main, units)?;
    Ok(linked.into_image())
}
