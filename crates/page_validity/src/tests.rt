//! A small chip, by its valid pages.
use super::*;
use std::test::Fail;

/// A chip of 32 pages.
const CHIP: Geometry = Geometry {
    blocks: 8,
    pages: 4,
};

#[test]
fn a_page_is_valid_from_its_mark_to_its_unmark(rt: HostRuntime) -> Result<(), Fail> {
    assert!(rt; CHIP.is_within_limits());
    let mut validity = Validity::new(rt.alloc(), CHIP)?;
    assert_eq!(rt; validity.next_in(1, 0), None);
    validity.mark(5);
    validity.mark(5);
    validity.mark(6);
    validity.mark(7);
    validity.unmark(6);
    validity.unmark(6);
    let valid = [
        validity.is_valid(4),
        validity.is_valid(5),
        validity.is_valid(6),
        validity.is_valid(7),
    ];
    assert_eq!(rt; valid, [false, true, false, true]);
    assert_eq!(rt; [validity.count_of(0), validity.count_of(1)], [0, 2]);
    let next = [
        validity.next_in(1, 0),
        validity.next_in(1, 2),
        validity.next_in(1, 4),
        validity.next_in(0, 0),
    ];
    assert_eq!(rt; next, [Some(5), Some(7), None, None]);
    validity.clear();
    assert!(rt; !validity.is_valid(5) && validity.count_of(1) == 0);
    validity.mark(31);
    assert_eq!(rt;
        (validity.count_of(7), validity.next_in(7, 1)),
        (1, Some(31))
    );
    Ok(())
}
