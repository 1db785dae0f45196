//! A small map, by its calls.
use super::*;
use std::test::Fail;

#[test]
fn a_block_has_the_page_that_was_set_last(rt: HostRuntime) -> Result<(), Fail> {
    let mut map = PageMap::new(rt.alloc(), 4, 8)?;
    assert_eq!(rt; map.lookup(3), None);
    assert_eq!(rt; map.set(3, 7), None);
    assert_eq!(rt; map.set(0, 5), None);
    assert_eq!(rt; map.set(3, 0), Some(7));
    assert_eq!(rt; map.lookups(), 4);
    let pages = [map.lookup(0), map.lookup(1), map.lookup(2), map.lookup(3)];
    assert_eq!(rt; pages, [Some(5), None, None, Some(0)]);
    assert_eq!(rt; map.lookups(), 8);
    map.clear();
    assert_eq!(rt; map.lookups(), 8);
    assert_eq!(rt; map.lookup(3), None);
    assert_eq!(rt; map.set(3, 1), None);
    Ok(())
}
