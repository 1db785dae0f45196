//! A small chip, by its pages.
use super::*;
use crate::BLOCK_BYTES;
use std::test::Fail;

const SHAPE: Geometry = Geometry {
    blocks: 4,
    pages: 2,
};

const SPARE: Spare = Spare {
    lun: 1,
    lba: 7,
    seq: 3,
};

#[test]
fn a_page_is_programmed_shown_and_erased(rt: HostRuntime) -> Result<(), Fail> {
    assert!(rt; SHAPE.is_within_limits());
    // page 2 is programmed, and no other, whether behind it or before
    for (page, is_written) in [(0, false), (2, true), (3, false), (7, false)] {
        assert!(rt; page < 8);
        let fail_at = vec![in rt.alloc(); 2u64]?;
        let mut flash = MemFlash::new(rt.alloc(), SHAPE, fail_at)?;
        assert!(rt; flash.shown.is_none());
        assert!(rt; flash.program(2, &[0x5A; BLOCK_BYTES], SPARE).is_ok());
        assert!(rt; flash.read(page).is_err());
        assert!(rt; flash.read(page).is_ok());
        match flash.shown() {
            PageView::Erased => assert!(rt; !is_written, "page {page}"),
            PageView::Written { bytes, spare } => {
                assert!(rt; is_written, "page {page}");
                assert!(rt; bytes == [0x5A; BLOCK_BYTES].as_slice() && spare == SPARE);
            }
        }
        assert!(rt; flash.erase(1).is_ok());
        assert!(rt; flash.read(page).is_ok());
        assert!(rt; matches!(flash.shown(), PageView::Erased), "page {page}");
        assert_eq!(rt; flash.geometry(), SHAPE);
    }
    Ok(())
}
