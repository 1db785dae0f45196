//! The lists of two units, by their calls.
ghost use Rattle.std.specs.Prelude.{◌≤◌, length};

use super::*;
use std::process::Abort;
use std::test::Fail;

/// The entry in the CDB of each read.
const GIVEN: u64 = 7;

/// Two entries, and half of a third one.
const BYTES: [u8; 20] = [
    0x01, 0x02, 0x03, 0x04, 0x05, 0x06, 0x07, 0x08, 0, 0, 0, 0, 0, 0, 0x12, 0x34, 9, 9, 9, 9,
];

/// The first entry of these.
const FIRST: u64 = 0x0102_0304_0506_0708;

/// The second one.
const SECOND: u64 = 0x1234;

/// A block of a read, and its entry: the unit, the read id, the LBA of the read, the block's number in it.
type Row = (u8, u8, u32, u32, Option<u64>);

/// The entries are these.
fn check_entries(rt: &impl Abort, lists: &EntryLists, rows: &[Row])
    requires { 254 ≤ length lists.now }
{
    for (lun, id, lba, k, entry) in rows {
        let (lun, id, lba, k) = (*lun, *id, *lba, *k);
        assert!(rt; lun < 2 && id <= 127);
        assert_eq!(rt;
            lists.entry(lun, id, lba, GIVEN, k),
            *entry,
            "{lun} {id} {lba} {k}"
        );
    }
}

/// With the list of unit 0 and id 1 alone, for LBA 100.
const ONE_LIST: [Row; 12] = [
    (0, 1, 100, 0, Some(FIRST)),
    (0, 1, 100, 1, Some(SECOND)),
    // an entry that is cut off, and none
    (0, 1, 100, 2, None),
    (0, 1, 100, 3, None),
    (0, 1, 100, u32::MAX, None),
    // another LBA
    (0, 1, 101, 0, Some(GIVEN)),
    (0, 1, 101, 1, None),
    // other ids and another unit
    (0, 2, 100, 0, Some(GIVEN)),
    (0, 127, 100, 1, None),
    (1, 1, 100, 0, Some(GIVEN)),
    (0, 0, 100, 0, Some(GIVEN)),
    (0, 0, 100, 1, None),
];

/// With another list in its place, for LBA 200, and the longest list of unit 1 and id 127, for LBA 5.
const TWO_LISTS: [Row; 8] = [
    (0, 1, 100, 0, Some(GIVEN)),
    (0, 1, 200, 0, Some(SECOND)),
    (0, 1, 200, 1, None),
    (0, 127, 5, 0, Some(GIVEN)),
    (1, 0, 5, 1, None),
    (1, 127, 5, 0, Some(0x0303_0303_0303_0303)),
    (1, 127, 5, 254, Some(0x0303_0303_0303_0303)),
    (1, 127, 5, 255, None),
];

/// With the list of unit 1 alone.
const OTHER_LIST: [Row; 3] = [
    (0, 1, 200, 0, Some(GIVEN)),
    (0, 1, 200, 1, None),
    (1, 127, 5, 1, Some(0x0303_0303_0303_0303)),
];

/// With no list.
const NO_LIST: [Row; 3] = [
    (0, 1, 100, 0, Some(GIVEN)),
    (1, 127, 5, 0, Some(GIVEN)),
    (1, 127, 5, 1, None),
];

#[test]
fn reads_have_the_entries_of_their_lists(rt: HostRuntime) -> Result<(), Fail> {
    let mut lists = EntryLists::new(rt.alloc(), 2)?;
    check_entries(&rt, &lists, &NO_LIST);
    lists.keep(0, 1, 100, &BYTES);
    check_entries(&rt, &lists, &ONE_LIST);
    lists.keep(0, 1, 200, &BYTES[8..16]);
    lists.keep(1, 127, 5, &[3; 2040]);
    lists.remove(0, 0);
    check_entries(&rt, &lists, &TWO_LISTS);
    lists.remove(0, 1);
    lists.remove(0, 2);
    check_entries(&rt, &lists, &OTHER_LIST);
    lists.clear();
    check_entries(&rt, &lists, &NO_LIST);
    Ok(())
}
