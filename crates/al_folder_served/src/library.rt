// What a build of folders needs of a library.
ghost use Rattle.std.specs.Prelude.{◌≡◌, IfOk, map};
ghost use Rattle.std.specs.Option.{option_map};
ghost use Rattle.al_base.specs.Batch.{key_of};
ghost use Rattle.al_link_image.specs.Images.{image_bytes};
ghost use Rattle.al_folder_served.specs.Sources.{gave_last, image_in};

use crate::reasons::Reasons;
use al_base::{Files, NoMemory, UnitKey};
use al_link_image::Image;
use al_session_served::UnitLibrary;
use std::alloc::Global;

/// A library of compilation units that has more than the replies of a session need.
pub trait FolderLibrary: UnitLibrary {
    ghost use Rattle.std.specs.Prelude.{ℕ, List, Option};
    ghost use Rattle.al_base.specs.Batch.{Key};
    ghost use Rattle.al_base.specs.Files.{Texts};
    ghost use Rattle.al_base.specs.declared.unit_key.UnitKey.{UnitKey};
    ghost use Rattle.al_folder_served.specs.declared.reasons.Reasons.{Reasons};

    /// These are the reasons why items of these sources come after others, item by item.
    ghost are_reasons: { Texts → List Key → List Reasons → Type 0 };

    /// The last build checked these units.
    ghost are_checked: { Self → List UnitKey → Type 0 };

    /// These words say why the last build checked that unit, or why not; none if there is no such unit.
    ghost is_why: { Self → UnitKey → Option (List ℕ) → Type 0 };

    /// The units that the last build checked, by name and kind.
    fn last_checked(&self) -> &[UnitKey]
        ensures { are_checked self.now result.now };

    /// Why the last build checked this unit, or why not; none if there is no such unit.
    ///
    /// # Errors
    ///
    /// `NoMemory` if the allocator refuses memory.
    fn why(&self, alloc: Global, unit: &UnitKey) -> Result<Option<Vec<u8>>, NoMemory>
        ensures { IfOk result (λ told. is_why self.now unit.now (option_map (λ words. words.items) told)) };

    /// The number of units whose code the last build wrote into the image of the build before.
    fn patched(&self) -> usize;

    /// The image of the last build, if it gave one.
    fn image(&self) -> Option<&Image>
        ensures { option_map (λ image. image_bytes image.now) result ≡ image_in (gave_last (Self.state self.now)) };

    /// Why each of these items of the sources comes after others in an order of elaboration.
    ///
    /// # Errors
    ///
    /// `NoMemory` if the allocator refuses memory.
    fn reasons(
        &self,
        alloc: Global,
        texts: &Files,
        items: &[UnitKey],
    ) -> Result<Vec<Reasons>, NoMemory>
        ensures { IfOk result (λ reasons. are_reasons texts.now (map key_of items.now) reasons.items) };
}
