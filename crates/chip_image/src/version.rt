//! The versions of the format, and the bytes before the pages.
ghost use Rattle.std.specs.Prelude.{◌≡◌, ◌+◌};
ghost use Rattle.chip_image.specs.Image.{magic, shape_bytes};
ghost use Rattle.chip_image.specs.Load.{page_room};

use byteorder::{BigEndian, ByteOrder};
use flash_pages::Geometry;

/// The versions of the format. The first has no logical unit in a spare area.
#[derive(Clone, Copy, Debug, PartialEq, Eq)]
pub enum Version {
    One,
    Two,
}

impl Version {
    /// The first eight bytes of an image.
    pub(crate) fn magic(self) -> [u8; 8]
        ensures { result ≡ magic self }
    {
        match self {
            Version::One => *b"UFSHPBI1",
            Version::Two => *b"UFSHPBI2",
        }
    }

    /// How many bytes the spare area of a page has.
    pub(crate) fn spare_bytes(self) -> usize
        ensures { result + 4096 ≡ page_room self }
    {
        match self {
            Version::One => 12,
            Version::Two => 13,
        }
    }
}

/// The numbers of erase blocks and of pages of each, as bytes.
pub(crate) fn shape_bytes(geometry: Geometry) -> [u8; 8]
    ensures { result ≡ shape_bytes geometry }
{
    let mut bytes = [0; 8];
    BigEndian::write_u32(&mut bytes[..4], geometry.blocks);
    BigEndian::write_u32(&mut bytes[4..], geometry.pages);
    bytes
}
