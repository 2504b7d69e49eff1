// The number of bytes of an image.
ghost use Rattle.std.specs.Prelude.{◌≡◌, ◌+◌, ◌≤◌, length};
ghost use Rattle.std.specs.List.{All, flat_map};
ghost use Rattle.al_link_image.specs.Images.{IsObject, object_bytes};
ghost use Rattle.al_link.specs.Kept.{prepared_size};

use crate::prepared::Prepared;
use al_link_image::ImageObject;

// The bytes of the list of objects: a kind, a length, a name and a place for each.
fn objects_size(objects: &[ImageObject]) -> usize
    requires count { length objects.now ≤ 65535 }
    requires names { All IsObject objects.now }
    ensures size { result ≡ length (flat_map object_bytes objects.now) }
    ensures small { result ≤ 17104635 }
{
    let mut size = 0;
    for object in objects {
        size += 6 + object.name.as_slice().len();
    }
    size
}

/// The number of bytes of an image of which all except the units' code is prepared.
pub(crate) fn image_size(prepared: &Prepared) -> usize
    requires regions { length prepared.now.protected.items ≤ 65535 }
    requires count { length prepared.now.objects.items ≤ 65535 }
    requires names { All IsObject prepared.now.objects.items }
    requires lines { length prepared.now.lines.items ≤ 16777216 }
    ensures { result ≡ prepared_size prepared.now }
{
    let tables = 12 * prepared.protected.len() + 8 * prepared.lines.len();
    30 + tables + objects_size(prepared.objects.as_slice()) + prepared.totals.code as usize
}
