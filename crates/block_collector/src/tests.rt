//! A small chip, by the written and the valid pages of its erase blocks.
use super::*;
use std::test::Fail;

/// A chip of 8 pages.
const CHIP: Geometry = Geometry {
    blocks: 4,
    pages: 2,
};

#[test]
fn pages_are_written_block_by_block(rt: HostRuntime) -> Result<(), Fail> {
    let mut collector = Collector::new(rt.alloc(), CHIP)?;
    assert_eq!(rt; (collector.erased(), collector.frontier()), (8, Some(0)));
    collector.programmed();
    collector.programmed();
    collector.programmed();
    assert_eq!(rt; (collector.erased(), collector.frontier()), (5, Some(3)));
    assert!(rt; collector.may_host_program());
    collector.erased_block(0);
    assert_eq!(rt; (collector.erased(), collector.frontier()), (7, Some(3)));
    collector.programmed();
    assert_eq!(rt; (collector.erased(), collector.frontier()), (6, Some(0)));
    collector.clear();
    assert_eq!(rt; (collector.erased(), collector.frontier()), (8, Some(0)));
    Ok(())
}

#[test]
fn the_first_full_block_with_the_fewest_valid_pages_is_chosen(rt: HostRuntime) -> Result<(), Fail> {
    let mut collector = Collector::new(rt.alloc(), CHIP)?;
    let mut valid = Validity::new(rt.alloc(), CHIP)?;
    collector.found(0, 2);
    collector.found(1, 2);
    collector.found(2, 2);
    collector.found(3, 1);
    valid.mark(0);
    valid.mark(1);
    valid.mark(3);
    valid.mark(4);
    assert_eq!(rt;
        (collector.victim(), collector.next_copy(&valid)),
        (None, None)
    );
    assert_eq!(rt; collector.choose(&valid), Some(1));
    assert_eq!(rt;
        (collector.victim(), collector.next_copy(&valid)),
        (Some(1), Some(3))
    );
    valid.unmark(3);
    assert_eq!(rt; collector.next_copy(&valid), None);
    valid.mark(2);
    valid.mark(3);
    valid.mark(5);
    assert_eq!(rt; collector.choose(&valid), None);
    assert_eq!(rt;
        (collector.victim(), collector.next_copy(&valid)),
        (None, None)
    );
    assert!(rt; !collector.may_host_program());
    Ok(())
}

#[test]
fn a_chip_that_was_found_has_one_open_block_and_room(rt: HostRuntime) -> Result<(), Fail> {
    let mut collector = Collector::new(rt.alloc(), CHIP)?;
    let mut valid = Validity::new(rt.alloc(), CHIP)?;
    collector.found(0, 2);
    collector.found(1, 2);
    collector.found(3, 1);
    valid.mark(0);
    valid.mark(2);
    // three pages are erased, and then one, which each full block has valid pages to fill
    assert!(rt; collector.has_one_partly() && collector.has_room(&valid));
    collector.found(2, 2);
    valid.mark(5);
    assert!(rt; collector.has_one_partly() && !collector.has_room(&valid));
    valid.unmark(5);
    assert!(rt; collector.has_room(&valid));
    collector.clear();
    collector.found(0, 1);
    collector.found(2, 1);
    assert!(rt; !collector.has_one_partly() && collector.has_room(&valid));
    Ok(())
}
