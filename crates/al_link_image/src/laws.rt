// A law of images, as the contract of a function without code.
ghost use Rattle.std.specs.Prelude.{◌≡◌};
ghost use Rattle.al_link_image.specs.Images.{Image, IsImage, image_bytes};

/// No two images have the same bytes.
pub fn image_bytes_tell()
    ensures { (one two : Image) → IsImage one → IsImage two → image_bytes one ≡ image_bytes two → one ≡ two }
{}
