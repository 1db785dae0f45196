//! What holds of loads onto an erased chip.
#![tactic(auto)]

ghost use Rattle.std.specs.Prelude.{◌≡◌, ◌⊎◌, ◌*◌, ◌++◌, All, List, MatchResult, Ok, Option, Result, Some, length, ℕ};
ghost use Rattle.std.specs.Io.KnownBytes.{Consumes};
ghost use Rattle.flash_pages.specs.Chip.{Page};
ghost use Rattle.flash_pages.specs.declared.chip.Geometry.{Geometry};
ghost use Rattle.chip_image.specs.declared.fault.ImageFault.{ImageFault};
ghost use Rattle.chip_image.specs.declared.fault.ImageFault.TheVariants.{ChipFault, ReadFault};
ghost use Rattle.chip_image.specs.declared.version.Version.{Version};
ghost use Rattle.chip_image.specs.Image.{image_of};
ghost use Rattle.chip_image.specs.Laws.{Fits};
ghost use Rattle.chip_image.specs.Load.{Loads};
ghost use Rattle.image_laws.specs.Pages.{AreErased, IsWholePage};

/// An image that was loaded onto an erased chip is that of the chip that is left.
pub fn taken_is_the_chip()
    ensures { (geometry : Geometry) (old new : List Page) (left left_now : Option (List ℕ)) → AreErased old
        → length old ≡ geometry.blocks * geometry.pages → Loads geometry old new left left_now (Ok tt)
        → (version : Version) × Consumes left left_now (image_of version geometry new) }
{}

/// A source that begins with an image of this shape is taken up to the image's end, and the chip is the one that the
/// image tells. Otherwise a read of the source or a call of the chip has failed.
pub fn image_is_taken()
    ensures { (version : Version) (geometry : Geometry) (pages old new : List Page) (rest : List ℕ)
        (left_now : Option (List ℕ)) (result : Result (Unit {0}) ImageFault)
        → length pages ≡ geometry.blocks * geometry.pages → All (Fits version) pages
        → length old ≡ length pages → AreErased old → All IsWholePage new
        → Loads geometry old new (Some (image_of version geometry pages ++ rest)) left_now result
        → MatchResult result (λ _. (new ≡ pages) × (left_now ≡ Some rest))
        (λ fault. (fault ≡ ReadFault) ⊎ (fault ≡ ChipFault)) }
{}
