// The words of protected objects, written in the place of others.
ghost use Rattle.std.specs.Prelude.{◌≡◌, ◌+◌, ◌≤◌, ◌++◌, length, map, IsOk, OnOk, vec_capacity};
ghost use Rattle.std.specs.List.{All};
ghost use Rattle.al_link_image.specs.Images.{IsRegion};
ghost use Rattle.al_link.specs.Images.{region_at};
ghost use Rattle.al_link.specs.Partitions.{compiled_units};
ghost use Rattle.al_link.specs.Relinking.{regions_count, regions_from, words_size};

use crate::image::region_at;
use crate::linking::CompiledUnit;
use al_base::NoMemory;
use al_code_object::{Compiled, Object};
use al_link_image::Region;

// Appends the words of an object's protected objects, which are among `total` words.
fn push_regions_at(
    regions: &mut Vec<Region>,
    words: u32,
    object: &Compiled,
    total: u32,
) -> Result<(), NoMemory>
    requires words { words + object.now.data_words ≤ total }
    requires fit { All (IsRegion total) regions.old.items }
    ensures value { OnOk result (regions.new.items ≡ regions.old.items ++ map (region_at words) object.now.protected) }
    ensures fit { OnOk result (All (IsRegion total) regions.new.items) }
    ensures capacity { vec_capacity regions.old ≤ vec_capacity regions.new }
    ensures succeeds { length regions.old.items + length object.now.protected ≤ vec_capacity regions.old → IsOk result }
{
    object.keeps();
    for one in object.protected() {
        let region = region_at(words, *one, total);
        regions.push(region)?;
    }
    Ok(())
}

/// Writes the words of the units' protected objects in the place of others. It takes no memory if there are as many as before.
pub(crate) fn refill(
    regions: &mut Vec<Region>,
    units: &[CompiledUnit<'_>],
    total: u32,
) -> Result<(), NoMemory>
    requires { words_size (compiled_units units.now) ≡ total }
    ensures value { OnOk result (regions.new.items ≡ regions_from 0 (compiled_units units.now)) }
    ensures fit { OnOk result (All (IsRegion total) regions.new.items) }
    ensures succeeds { regions_count (compiled_units units.now) ≤ vec_capacity regions.old → IsOk result }
{
    regions.clear();
    let mut words = 0;
    for unit in units {
        if let Object::Compiled(object) = unit.object {
            push_regions_at(regions, words, object, total)?;
            words += object.data_words();
        }
    }
    Ok(())
}
