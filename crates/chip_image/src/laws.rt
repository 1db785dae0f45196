//! Laws of images. These functions do nothing: their contracts are the laws.
ghost use Rattle.std.specs.Prelude.{◌≡◌, ◌++◌, All, List, length, ℕ};
ghost use Rattle.flash_pages.specs.Chip.{Page};
ghost use Rattle.flash_pages.specs.declared.chip.Geometry.{Geometry};
ghost use Rattle.chip_image.specs.declared.version.Version.{Version};
ghost use Rattle.chip_image.specs.Image.{image_of};
ghost use Rattle.chip_image.specs.Laws.{Fits};

/// Bytes that begin with an image begin with that of one chip only, and end behind it in one way.
pub fn one_chip()
    ensures { (version : Version) (geometry : Geometry) (a b : List Page) (rest after : List ℕ) → length a ≡ length b
        → All (Fits version) a → All (Fits version) b
        → image_of version geometry a ++ rest ≡ image_of version geometry b ++ after → (a ≡ b) × (rest ≡ after) }
{}
