// How the object of a unit replaces another one.
ghost use Rattle.std.specs.Prelude.{◌≡◌, ◌↔◌, ◌+◌, ◌≤◌, IsTrue, length, option_map};
ghost use Rattle.al_link_image.specs.Images.{image_bytes};
ghost use Rattle.al_link_image.specs.Parts.{IsWhole, image_of};
ghost use Rattle.al_link_image.specs.Sizes.{lines_size};
ghost use Rattle.al_link.specs.Kept.{kept_model};
ghost use Rattle.al_link.specs.Linking.{patched};
ghost use Rattle.al_link.specs.Relinking.{shape_of, with_bytes};
ghost use Rattle.al_link.specs.Units.{unit_model};

use crate::kept::{KeptUnit, is_same_object};
use crate::patch::patch;
use crate::places::Places;
use crate::units::LinkUnit;
use al_code_object::Compiled;
use al_link_image::ImageParts;
use al_view::{Same, are_same};

/// Whether a unit is as before, except for the bytes of its code.
pub(crate) fn is_in_place(kept: &KeptUnit, unit: &LinkUnit<'_>) -> bool
    ensures { IsTrue result ↔ (shape_of (unit_model unit.now) ≡ shape_of (kept_model kept.now)) × (unit.now.object.now.protected ≡ kept.now.protected.items) }
{
    unit.key.is_same(&kept.key)
        && is_same_object(kept, unit.object)
        && are_same(kept.protected.as_slice(), unit.object.protected())
}

/// The place at which the code of an image begins among its `size` bytes.
pub(crate) fn code_place(parts: &ImageParts, size: usize) -> usize
    requires whole { IsWhole parts.now }
    requires size { size ≡ length (image_bytes (image_of parts.now)) }
    ensures { result + length parts.now.code.items + lines_size (option_map (λ v. v.items) parts.now.lines) ≡ size }
{
    let before = size - parts.code.len();
    match &parts.lines {
        None => before,
        Some(lines) => before - 4 - 8 * lines.len(),
    }
}

// Writes an object's code over other code, and fills in its operands.
fn write_piece(code: &mut [u8], object: &Compiled, places: &Places)
    requires { length code.old ≡ length object.now.code }
    ensures { code.new ≡ patched places.now object.now.code 0 object.now.code object.now.uses }
{
    code.copy_from_slice(object.code());
    patch(code, 0, object.code(), object.uses(), places);
}

/// Writes an object's code over what is at a place in the code, and in bytes in which the code begins at another place.
pub(crate) fn write_over(
    code: &mut [u8],
    bytes: &mut [u8],
    front: usize,
    place: usize,
    object: &Compiled,
    places: &Places,
)
    requires fits { place + length object.now.code ≤ length code.old }
    requires within { front + length code.old ≤ length bytes.old }
    ensures code { code.new ≡ with_bytes code.old place (patched places.now object.now.code 0 object.now.code object.now.uses) }
    ensures bytes { bytes.new ≡ with_bytes bytes.old (front + place) (patched places.now object.now.code 0 object.now.code object.now.uses) }
{
    let end = place + object.code().len();
    write_piece(&mut code[place..end], object, places);
    bytes[front + place..front + end].copy_from_slice(&code[place..end]);
}
