//! Whole transcripts of a device, byte for byte: tables of lines, each with what is printed for it.
use crate::Status;
use crate::tests::{ASKED, GIVEN, Outside, READ_BACK, REPLAY, Script, run_words};
use std::alloc::Global;
use std::process::Abort;
use std::test::Fail;

/// A block that was never written is read.
const UNWRITTEN: [(&str, &str); 2] = [
    ("U 01400001 z z 00001000 28000000 00050000 01000000 z", ""),
    (
        "D",
        "< 22000001 z 00001000 z 00001000 z z z zeros / < 21000001 z z z z z z z",
    ),
];

/// The chip fails while its last page is scanned: the write is gone, and that page is read under the next task.
const UNSCANNED: [(&str, &str); 7] = [
    ("S 31", ""),
    ("U 01200002 z z 00001000 2a000000 z 01000000 z", ""),
    (
        "S 1",
        "! read / < 21200002 00000102 00000014 00001000 z z z z 00127000 04000000 000a0000 00004400 z",
    ),
    ("U 01400003 z z 00001000 28000000 z 01000000 z", ""),
    ("S 1", ""),
    ("S 1", "< 22000003 z 00001000 z 00001000 z z z zeros"),
    ("D", "< 21000003 z z z z z z z"),
];

/// The chip fails while its first page is scanned, without a task.
const UNSCANNED_ALONE: [(&str, &str); 1] = [("S 1", "! read")];

/// The data of a write, and the chip fails.
const UNPROGRAMMED: [(&str, &str); 2] = [
    ("U 02000002 z 00001000 z 00001000 z z z block", ""),
    (
        "D",
        "! program / < 21000002 00000102 00000014 z z z z z 00127000 03000000 000a0000 00000c00 z",
    ),
];

/// A block whose write failed is read.
const STILL_UNWRITTEN: [(&str, &str); 2] = [
    ("U 01400003 z z 00001000 28000000 z 01000000 z", ""),
    (
        "D",
        "< 22000003 z 00001000 z 00001000 z z z zeros / < 21000003 z z z z z z z",
    ),
];

/// A block that was written is read, and the chip fails.
const UNREAD: [(&str, &str); 2] = [
    ("U 01400003 z z 00001000 28000000 z 01000000 z", ""),
    (
        "D",
        "! read / < 21200003 00000102 00000014 00001000 z z z z 00127000 03000000 000a0000 00001100 z",
    ),
];

/// What is answered at once and changes nothing: REJECT by its reason, with LUN and tag of the host's bytes, and NOP
/// OUT.
const ANSWERED: [(&str, &str); 12] = [
    (
        "U z z z z z z z 000000",
        "< 3f000000 00000100 z 01000000 z z z z",
    ),
    (
        "U 41000000 z 01000000 z z z z z",
        "< 3f000000 00000100 z 02000000 z z z z",
    ),
    (
        "U 01000000 z 01000000 z z z z z",
        "< 3f000000 00000100 z 03000000 z z z z",
    ),
    (
        "U z z 00000001 z z z z z",
        "< 3f000000 00000100 z 04000000 z z z z",
    ),
    (
        "U 3e000000 z z z z z z z",
        "< 3f000000 00000100 z 05000000 z z z z",
    ),
    (
        "U 01000000 01000000 z z z z z z",
        "< 3f000000 00000100 z 06000000 z z z z",
    ),
    (
        "U 3e000207 z z z z z z z",
        "< 3f000207 00000100 z 05000000 z z z z",
    ),
    (
        "U 20000000 z z z z z z z",
        "< 3f000000 00000100 z 07000000 z z z z",
    ),
    (
        "U 02000000 z z z z z z z",
        "< 3f000000 00000100 z 09000000 z z z z",
    ),
    (
        "U 20000207 z z z z z z z",
        "< 3f000207 00000100 z 07000000 z z z z",
    ),
    (
        "U 02000308 z 00001000 z 00001000 z z z block",
        "< 3f000308 00000100 z 09000000 z z z z",
    ),
    ("U 00000008 z z z z z z z", "< 20000008 z z z z z z z"),
];

/// A COMMAND that is refused.
const CHECKED: [(&str, &str); 4] = [
    // A block past the end, to be read and to be written.
    (
        "U 01400001 z z 00001000 28000000 00140000 01000000 z",
        "< 21200001 00000102 00000014 00001000 z z z z 00127000 05000000 000a0000 00002100 z",
    ),
    (
        "U 01200002 z z 00001000 2a000000 00140000 01000000 z",
        "< 21200002 00000102 00000014 00001000 z z z z 00127000 05000000 000a0000 00002100 z",
    ),
    // Too few bytes are expected.
    (
        "U 01400003 z z 00000fff 28000000 00050000 01000000 z",
        "< 21200003 00000102 00000014 00000fff z z z z 00127000 05000000 000a0000 00002400 z",
    ),
    // Another unit.
    (
        "U 01400104 z z 00001000 28000000 00050000 01000000 z",
        "< 21200104 00000102 00000014 00001000 z z z z 00127000 05000000 000a0000 00002500 z",
    ),
];

/// Two blocks are read, then one with more bytes expected than are moved, then none.
const READ_MANY: [(&str, &str); 6] = [
    ("U 01400004 z z 00002000 28000000 z 02000000 z", ""),
    (
        "D",
        "< 22000004 z 00001000 z 00001000 z z z block / \
         < 22000004 z 00001000 00001000 00001000 z z z zeros / < 21000004 z z z z z z z",
    ),
    ("U 01400005 z z 00002000 28000000 z 01000000 z", ""),
    (
        "D",
        "< 22000005 z 00001000 z 00001000 z z z block / < 21200005 z z 00001000 z z z z",
    ),
    ("U 01400006 z z z 28000000 z 00000000 z", ""),
    ("D", "< 21000006 z z z z z z z"),
];

/// Data that a write doesn't wait for, by tag and unit: it waits on. Then its data come.
const STRAY: [(&str, &str); 2] = [
    (
        "U 02000003 z 00001000 z 00001000 z z z block",
        "< 3f000003 00000100 z 09000000 z z z z",
    ),
    (
        "U 02000102 z 00001000 z 00001000 z z z block",
        "< 3f000102 00000100 z 09000000 z z z z",
    ),
];

/// Data of another offset and of another count, of which each ends the write.
const WRONG_PLACE: [(&str, &str); 1] = [(
    "U 02000002 z 00001000 00000001 00001000 z z z block",
    "< 21200002 00000102 00000014 00001000 z z z z 00127000 0b000000 000a0000 00004b00 z",
)];

const WRONG_COUNT: [(&str, &str); 1] = [(
    "U 02000002 z 00001000 z 00000fff z z z block",
    "< 21200002 00000102 00000014 00001000 z z z z 00127000 0b000000 000a0000 00004b00 z",
)];

/// A block is written by steps, once 32 of them have scanned the chip. Where the write waits for its data a step does
/// nothing.
const WRITTEN_BY_STEPS: [(&str, &str); 8] = [
    ("S 31", ""),
    ("U 01200002 z z 00001000 2a000000 z 01000000 z", ""),
    ("S 1", ""),
    ("S 1", "< 31000002 z z z 00001000 z z z"),
    ("S 4", ""),
    ("U 02000002 z 00001000 z 00001000 z z z block", ""),
    ("S 1", ""),
    ("S 999999", "< 21000002 z z z z z z z"),
];

/// Two blocks are read by steps, with lines between them that do nothing.
const STEPPED: [(&str, &str); 9] = [
    ("U 01400004 z z 00002000 28000000 z 02000000 z", ""),
    ("S 0", ""),
    ("S 1", "< 22000004 z 00001000 z 00001000 z z z block"),
    ("", ""),
    (
        "S 000001",
        "< 22000004 z 00001000 00001000 00001000 z z z zeros",
    ),
    ("# comment", ""),
    ("S 1", "< 21000004 z z z z z z z"),
    ("S 5", ""),
    ("D", ""),
];

/// A write of nine blocks. Its data come in three pieces, and it is answered once all of them are programmed.
const NINE_BLOCKS: [(&str, &str); 8] = [
    ("U 01200002 z z 00009000 2a000000 z 09000000 z", ""),
    ("D", "< 31000002 z z z 00008000 z z z"),
    (
        "U 02000002 z 00004000 z 00004000 z z z block zeros block block",
        "",
    ),
    ("D", ""),
    (
        "U 02000002 z 00004000 00004000 00004000 z z z block block zeros block",
        "",
    ),
    ("D", "< 31000002 z z 00008000 00001000 z z z"),
    ("U 02000002 z 00001000 00008000 00001000 z z z block", ""),
    ("D", "< 21000002 z z z z z z z"),
];

/// The last block of a unit of 20, a block past it, and no block at the end and past it.
const AT_THE_END: [(&str, &str); 6] = [
    ("U 01400001 z z 00001000 28000000 00130000 01000000 z", ""),
    (
        "D",
        "< 22000001 z 00001000 z 00001000 z z z zeros / < 21000001 z z z z z z z",
    ),
    (
        "U 01400005 z z 00002000 28000000 00130000 02000000 z",
        "< 21200005 00000102 00000014 00002000 z z z z 00127000 05000000 000a0000 00002100 z",
    ),
    ("U 01400001 z z z 28000000 00140000 z z", ""),
    ("D", "< 21000001 z z z z z z z"),
    (
        "U 01400001 z z z 28000000 00150000 z z",
        "< 21000001 00000102 00000014 z z z z z 00127000 05000000 000a0000 00002100 z",
    ),
];

/// Data at the wrong offset end their write. A read is answered with what is left of its expected length.
const WRONG_OFFSET: [(&str, &str); 5] = [
    ("U 01200002 z z 00001000 2a000000 z 01000000 z", ""),
    ("D", "< 31000002 z z z 00001000 z z z"),
    (
        "U 02000002 z 00001000 00001000 00001000 z z z block",
        "< 21200002 00000102 00000014 00001000 z z z z 00127000 0b000000 000a0000 00004b00 z",
    ),
    ("U 01400003 z z 00002000 28000000 00050000 01000000 z", ""),
    (
        "D",
        "< 22000003 z 00001000 z 00001000 z z z zeros / < 21200003 z z 00001000 z z z z",
    ),
];

/// Three blocks are written, and are read twice. The second read of the chip fails.
const SECOND_READ: [(&str, &str); 8] = [
    ("U 01200002 z z 00003000 2a000000 z 03000000 z", ""),
    ("D", "< 31000002 z z z 00003000 z z z"),
    (
        "U 02000002 z 00003000 z 00003000 z z z block zeros block",
        "",
    ),
    ("D", "< 21000002 z z z z z z z"),
    ("U 01400006 z z 00003000 28000000 z 03000000 z", ""),
    (
        "D",
        "< 22000006 z 00001000 z 00001000 z z z block / \
         ! read / \
         < 21200006 00000102 00000014 00002000 z z z z 00127000 03000000 000a0000 00001100 z",
    ),
    ("U 01400006 z z 00003000 28000000 z 03000000 z", ""),
    (
        "D",
        "< 22000006 z 00001000 z 00001000 z z z block / \
         < 22000006 z 00001000 00001000 00001000 z z z zeros / \
         < 22000006 z 00001000 00002000 00001000 z z z block / \
         < 21000006 z z z z z z z",
    ),
];

/// Tasks are ended in the order in which they came.
const IN_ORDER: [(&str, &str); 7] = [
    ("U 01400001 z z 00000008 25000000 z z z", ""),
    ("U 01400002 z z z z z z z", ""),
    ("U 01400003 z z z 35000000 z z z", ""),
    ("S 32", ""),
    (
        "S 1",
        "< 22000001 z 00000008 z 00000008 z z z 00000013 00001000",
    ),
    ("S 1", "< 21000001 z z z z z z z"),
    ("D", "< 21000002 z z z z z z z / < 21000003 z z z z z z z"),
];

/// All blocks of the unit are written.
const FILLED: [(&str, &str); 8] = [
    ("U 01200002 z z 00014000 2a000000 z 14000000 z", ""),
    ("D", "< 31000002 z z z 00008000 z z z"),
    (
        "U 02000002 z 00008000 z 00008000 z z z block block block block block block block block",
        "",
    ),
    ("D", "< 31000002 z z 00008000 00008000 z z z"),
    (
        "U 02000002 z 00008000 00008000 00008000 z z z block block block block block block block block",
        "",
    ),
    ("D", "< 31000002 z z 00010000 00004000 z z z"),
    (
        "U 02000002 z 00004000 00010000 00004000 z z z block block block block",
        "",
    ),
    ("D", "< 21000002 z z z z z z z"),
];

/// Writes of other blocks are asked for their data.
const ASKED_4: [(&str, &str); 2] = [
    ("U 01200002 z z 00001000 2a000000 00040000 01000000 z", ""),
    ("D", "< 31000002 z z z 00001000 z z z"),
];

const ASKED_8: [(&str, &str); 2] = [
    ("U 01200002 z z 00001000 2a000000 00080000 01000000 z", ""),
    ("D", "< 31000002 z z z 00001000 z z z"),
];

const ASKED_12: [(&str, &str); 2] = [
    ("U 01200002 z z 00001000 2a000000 000c0000 01000000 z", ""),
    ("D", "< 31000002 z z z 00001000 z z z"),
];

const ASKED_16: [(&str, &str); 2] = [
    ("U 01200002 z z 00001000 2a000000 00100000 01000000 z", ""),
    ("D", "< 31000002 z z z 00001000 z z z"),
];

/// The data of a write, for which the collector moves a block.
const MOVED: [(&str, &str); 2] = [
    ("U 02000002 z 00001000 z 00001000 z z z block", ""),
    ("D", "M 12 / < 21000002 z z z z z z z"),
];

/// A block at LBA 2 on page 0, and one at LBA 3 on page 1. LBA 3 is read with the entries 1, 0, 2^64 - 1 and 32.
const BY_ENTRIES: [(&str, &str); 16] = [
    ("U 01200002 z z 00001000 2a000000 00020000 01000000 z", ""),
    ("D", "< 31000002 z z z 00001000 z z z"),
    ("U 02000002 z 00001000 z 00001000 z z z 11s", ""),
    ("D", "< 21000002 z z z z z z z"),
    ("U 01200002 z z 00001000 2a000000 00030000 01000000 z", ""),
    ("D", "< 31000002 z z z 00001000 z z z"),
    ("U 02000002 z 00001000 z 00001000 z z z 22s", ""),
    ("D", "< 21000002 z z z z z z z"),
    ("U 01400009 z z 00001000 f8000000 00030000 z 00010100", ""),
    (
        "D",
        "< 22000009 z 00001000 z 00001000 z z z 22s / < 21000009 z z z z z z z",
    ),
    ("U 01400009 z z 00001000 f8000000 00030000 z 00000100", ""),
    (
        "D",
        "< 22000009 z 00001000 z 00001000 z z z 22s / < 21000009 z z z z z z z",
    ),
    (
        "U 01400009 z z 00001000 f8000000 0003ffff ffffffff ffff0100",
        "",
    ),
    (
        "D",
        "< 22000009 z 00001000 z 00001000 z z z 22s / < 21000009 z z z z z z z",
    ),
    ("U 01400009 z z 00001000 f8000000 00030000 z 00200100", ""),
    (
        "D",
        "< 22000009 z 00001000 z 00001000 z z z 22s / < 21000009 z z z z z z z",
    ),
];

/// LBA 3 is written on page 0 and then on page 1, and is read with the entry 0.
const BY_A_STALE_ENTRY: [(&str, &str); 10] = [
    ("U 01200002 z z 00001000 2a000000 00030000 01000000 z", ""),
    ("D", "< 31000002 z z z 00001000 z z z"),
    ("U 02000002 z 00001000 z 00001000 z z z 11s", ""),
    ("D", "< 21000002 z z z z z z z"),
    ("U 01200002 z z 00001000 2a000000 00030000 01000000 z", ""),
    ("D", "< 31000002 z z z 00001000 z z z"),
    ("U 02000002 z 00001000 z 00001000 z z z 22s", ""),
    ("D", "< 21000002 z z z z z z z"),
    ("U 01400009 z z 00001000 f8000000 00030000 z 00000100", ""),
    (
        "D",
        "< 22000009 z 00001000 z 00001000 z z z 22s / < 21000009 z z z z z z z",
    ),
];

/// A block is written while the collector has its older page in the buffer. The move that follows is another block's,
/// and after a reset, which its host is told of, the block is the newer one.
const OVERWRITTEN_IN_THE_BUFFER: [(&str, &str); 17] = [
    ("U 01200002 z z 00004000 2a000000 z 04000000 z", ""),
    ("D", "< 31000002 z z z 00004000 z z z"),
    ("U 02000002 z 00004000 z 00004000 z z z 11s 11s 11s 11s", ""),
    ("D", "< 21000002 z z z z z z z"),
    ("U 01200002 z z 00001000 2a000000 z 01000000 z", ""),
    ("D", "< 31000002 z z z 00001000 z z z"),
    ("U 02000002 z 00001000 z 00001000 z z z block", ""),
    ("D", "< 21000002 z z z z z z z"),
    ("C 1", ""),
    ("U 01200002 z z 00001000 2a000000 00010000 01000000 z", ""),
    ("D", "< 31000002 z z z 00001000 z z z"),
    ("U 02000002 z 00001000 z 00001000 z z z 22s", ""),
    ("D", "< 21000002 z z z z z z z"),
    ("C 2", "M 2"),
    ("R", "R"),
    ("U 01400001 z z 00001000 28000000 00010000 01000000 z", ""),
    (
        "D",
        "< 22000001 z 00001000 z 00001000 z z z 22s / \
         < 21000001 z 00000014 z z z z z 00128010 02000000 z z z",
    ),
];

/// A write is cut by a reset when two of its three blocks are programmed. They are the new ones after this reset and
/// the next. The host is told of both resets.
const CUT_BY_A_RESET: [(&str, &str); 14] = [
    ("U 01200002 z z 00003000 2a000000 z 03000000 z", ""),
    ("D", "< 31000002 z z z 00003000 z z z"),
    ("U 02000002 z 00003000 z 00003000 z z z 11s 11s 11s", ""),
    ("D", "< 21000002 z z z z z z z"),
    ("U 01200002 z z 00003000 2a000000 z 03000000 z", ""),
    ("D", "< 31000002 z z z 00003000 z z z"),
    ("U 02000002 z 00003000 z 00003000 z z z 22s 22s 22s", ""),
    ("S 2", ""),
    ("R", "R"),
    ("U 01400001 z z 00003000 28000000 z 03000000 z", ""),
    ("D", CUT_BLOCKS),
    ("R", "R"),
    ("U 01400001 z z 00003000 28000000 z 03000000 z", ""),
    ("D", CUT_BLOCKS),
];

/// The blocks of the cut write.
const CUT_BLOCKS: &str = "< 22000001 z 00001000 z 00001000 z z z 22s / \
     < 22000001 z 00001000 00001000 00001000 z z z 22s / \
     < 22000001 z 00001000 00002000 00001000 z z z 11s / \
     < 21000001 z 00000014 z z z z z 00128010 02000000 z z z";

/// A block of subregion 2 of region 0 is read, and the read after which that subregion is told to be loaded.
const READ_4: [(&str, &str); 2] = [
    ("U 01400001 z z 00001000 28000000 00040000 01000000 z", ""),
    (
        "D",
        "< 22000001 z 00001000 z 00001000 z z z zeros / < 21000001 z z z z z z z",
    ),
];

const READ_4_TOLD: [(&str, &str); 2] = [
    ("U 01400001 z z 00001000 28000000 00040000 01000000 z", ""),
    (
        "D",
        "< 22000001 z 00001000 z 00001000 z z z zeros / \
         < 21000001 z 00000014 z z z z z 00128010 01000100 00000002 z z",
    ),
];

/// The entries of this subregion are listed.
const LOADED: [(&str, &str); 2] = [
    ("U 01400007 z z 00000010 f9010000 00020000 10000000 z", ""),
    (
        "D",
        "< 22000007 z 00000010 z 00000010 z z z ffffffff ffffffff ffffffff ffffffff / \
         < 21000007 z z z z z z z",
    ),
];

/// The data of the write after which it is told to be loaded anew.
const GIVEN_TOLD: [(&str, &str); 2] = [
    ("U 02000002 z 00001000 z 00001000 z z z block", ""),
    (
        "D",
        "< 21000002 z 00000014 z z z z z 00128010 01000100 00000002 z z",
    ),
];

/// A subregion of region 1 is loaded, for which region 0 is given up.
const LOADED_OTHER: [(&str, &str); 2] = [
    ("U 01400007 z z 00000010 f9010001 z 10000000 z", ""),
    (
        "D",
        "< 22000007 z 00000010 z 00000010 z z z ffffffff ffffffff ffffffff ffffffff / \
         < 21000007 z 00000014 z z z z z 00128010 01000001 z z z",
    ),
];

/// The host gives up region 1, and all regions.
const INACTIVATED: [(&str, &str); 4] = [
    ("U 01000001 z z z fa010001 z z z", ""),
    ("D", "< 21000001 z z z z z z z"),
    ("U 01000001 z z z fa030000 z z z", ""),
    ("D", "< 21000001 z z z z z z z"),
];

/// WRITE BUFFER that is refused: of a region past the unit, and in modes that don't exist.
const NOT_INACTIVATED: [(&str, &str); 3] = [
    (
        "U 01000001 z z z fa010003 z z z",
        "< 21000001 00000102 00000014 z z z z z 00127000 05000000 000a0000 00002400 z",
    ),
    (
        "U 01000001 z z z fa000000 z z z",
        "< 21000001 00000102 00000014 z z z z z 00127000 05000000 000a0000 00002400 z",
    ),
    (
        "U 01000001 z z z fa040000 z z z",
        "< 21000001 00000102 00000014 z z z z z 00127000 05000000 000a0000 00002400 z",
    ),
];

/// Three blocks are written, on the pages 0 to 2 of an erased chip.
const THREE_BLOCKS: [(&str, &str); 4] = [
    ("U 01200002 z z 00003000 2a000000 z 03000000 z", ""),
    ("D", "< 31000002 z z z 00003000 z z z"),
    (
        "U 02000002 z 00003000 z 00003000 z z z block zeros block",
        "",
    ),
    ("D", "< 21000002 z z z z z z z"),
];

/// Entries of two blocks are prefetched under read id 127. The first read uses them up, and the second one tries that
/// of its CDB in vain. Read id 128 doesn't exist.
const PREFETCHED: [(&str, &str); 9] = [
    ("U 0120000c z z 00000010 fa020000 00007f00 10000000 z", ""),
    ("D", "< 3100000c z z z 00000010 z z z"),
    ("U 0200000c z 00000010 z 00000010 z z z z z z 00000001", ""),
    ("D", "< 2100000c z z z z z z z"),
    (
        "U 0140000d z z 00002000 f8000000 0000ffff ffffffff ffff027f",
        "",
    ),
    (
        "D",
        "< 2200000d z 00001000 z 00001000 z z z block / \
         < 2200000d z 00001000 00001000 00001000 z z z zeros / < 2100000d z z z z z z z",
    ),
    (
        "U 0140000d z z 00002000 f8000000 0000ffff ffffffff ffff027f",
        "",
    ),
    (
        "D",
        "< 2200000d z 00001000 z 00001000 z z z block / \
         < 2200000d z 00001000 00001000 00001000 z z z zeros / < 2100000d z z z z z z z",
    ),
    (
        "U 0140000d z z 00002000 f8000000 0000ffff ffffffff ffff0280",
        "< 2120000d 00000102 00000014 00002000 z z z z 00127000 05000000 000a0000 00002400 z",
    ),
];

/// A list with a stale entry in its middle is used, and then none is kept.
const STALE_IN_THE_MIDDLE: [(&str, &str); 8] = [
    ("U 0120000c z z 00000018 fa020000 00000100 18000000 z", ""),
    ("D", "< 3100000c z z z 00000018 z z z"),
    (
        "U 0200000c z 00000018 z 00000018 z z z z z z 00000007 z 00000002",
        "",
    ),
    ("D", "< 2100000c z z z z z z z"),
    (
        "U 0140000d z z 00003000 f8000000 0000ffff ffffffff ffff0301",
        "",
    ),
    (
        "D",
        "< 2200000d z 00001000 z 00001000 z z z block / \
         < 2200000d z 00001000 00001000 00001000 z z z zeros / \
         < 2200000d z 00001000 00002000 00001000 z z z block / < 2100000d z z z z z z z",
    ),
    ("U 0140000d z z 00003000 f8000000 z z 00000301", ""),
    (
        "D",
        "< 2200000d z 00001000 z 00001000 z z z block / \
         < 2200000d z 00001000 00001000 00001000 z z z zeros / \
         < 2200000d z 00001000 00002000 00001000 z z z block / < 2100000d z z z z z z z",
    ),
];

/// A list of another LBA gives no entry, and is used up all the same: a read of its own LBA finds none.
const OF_ANOTHER_LBA: [(&str, &str); 8] = [
    ("U 0120000c z z 00000010 fa020000 00010100 10000000 z", ""),
    ("D", "< 3100000c z z z 00000010 z z z"),
    (
        "U 0200000c z 00000010 z 00000010 z z z z 00000001 z 00000002",
        "",
    ),
    ("D", "< 2100000c z z z z z z z"),
    (
        "U 0140000d z z 00001000 f8000000 0000ffff ffffffff ffff0101",
        "",
    ),
    (
        "D",
        "< 2200000d z 00001000 z 00001000 z z z block / < 2100000d z z z z z z z",
    ),
    (
        "U 0140000d z z 00001000 f8000000 0001ffff ffffffff ffff0101",
        "",
    ),
    (
        "D",
        "< 2200000d z 00001000 z 00001000 z z z zeros / < 2100000d z z z z z z z",
    ),
];

/// A list is replaced by an empty one, so that a read has no entry at all, not even that of its CDB.
const EMPTIED: [(&str, &str); 8] = [
    ("U 0120000c z z 00000008 fa020000 00000100 08000000 z", ""),
    ("D", "< 3100000c z z z 00000008 z z z"),
    ("U 0200000c z 00000008 z 00000008 z z z z z", ""),
    ("D", "< 2100000c z z z z z z z"),
    ("U 0120000c z z z fa020000 00000100 z z", ""),
    ("D", "< 2100000c z z z z z z z"),
    ("U 0140000d z z 00001000 f8000000 z z 00000101", ""),
    (
        "D",
        "< 2200000d z 00001000 z 00001000 z z z block / < 2100000d z z z z z z z",
    ),
];

/// A prefetch that is refused: of read id 0 and 128, of a length that is no multiple of 8 or above 2040, and of blocks
/// past the unit. One whose data aren't as asked for keeps no list.
const NOT_PREFETCHED: [(&str, &str); 10] = [
    (
        "U 0120000c z z 00000008 fa020000 00000000 08000000 z",
        "< 2120000c 00000102 00000014 00000008 z z z z 00127000 05000000 000a0000 00002400 z",
    ),
    (
        "U 0120000c z z 00000008 fa020000 00008000 08000000 z",
        "< 2120000c 00000102 00000014 00000008 z z z z 00127000 05000000 000a0000 00002400 z",
    ),
    (
        "U 0120000c z z 00000009 fa020000 00000100 09000000 z",
        "< 2120000c 00000102 00000014 00000009 z z z z 00127000 05000000 000a0000 00002400 z",
    ),
    (
        "U 0120000c z z 00000800 fa020000 00000108 00000000 z",
        "< 2120000c 00000102 00000014 00000800 z z z z 00127000 05000000 000a0000 00002400 z",
    ),
    (
        "U 0120000c z z 00000010 fa020000 00130100 10000000 z",
        "< 2120000c 00000102 00000014 00000010 z z z z 00127000 05000000 000a0000 00002100 z",
    ),
    ("U 0120000c z z 00000008 fa020000 00000100 08000000 z", ""),
    ("D", "< 3100000c z z z 00000008 z z z"),
    (
        "U 0200000c z 00000008 00000008 00000008 z z z z z",
        "< 2120000c 00000102 00000014 00000008 z z z z 00127000 0b000000 000a0000 00004b00 z",
    ),
    (
        "U 0140000d z z 00001000 f8000000 0000ffff ffffffff ffff0101",
        "",
    ),
    (
        "D",
        "< 2200000d z 00001000 z 00001000 z z z block / < 2100000d z z z z z z z",
    ),
];

/// A reset is told by the next answer that is GOOD.
const RESET: [(&str, &str); 3] = [
    ("R", "R"),
    ("U 01000001 z z z z z z z", ""),
    (
        "D",
        "< 21000001 z 00000014 z z z z z 00128010 02000000 z z z",
    ),
];

/// Words that name regions of 8 blocks and subregions of 2; the same where the host may hold one region, and where it
/// decides which ones it holds.
const SMALL: &str = "replay --blocks 8 --pages 4 --region 6 --sub 4";

const SMALL_HELD: &str = "replay --blocks 8 --pages 4 --region 6 --sub 4 --held 1";

const SMALL_HOST: &str = "replay --blocks 8 --pages 4 --region 6 --sub 4 --mode host";

/// No call of the chip has this number.
const NONE: u64 = 1000;

/// A row: its name, its words, how often a block is written first, its tables, the number of the call of the chip that
/// fails, and what is counted.
type Row = (
    &'static str,
    &'static str,
    usize,
    &'static [&'static [(&'static str, &'static str)]],
    u64,
    &'static str,
);

const ROWS: [Row; 31] = [
    ("nothing", REPLAY, 0, &[], NONE, "T=0,0,0,0,0"),
    (
        "never written",
        REPLAY,
        0,
        &[&UNWRITTEN],
        NONE,
        "T=34,1,0,0,0",
    ),
    ("one block", REPLAY, 1, &[&READ_BACK], NONE, "T=37,1,0,0,0"),
    (
        "nine blocks",
        REPLAY,
        0,
        &[&NINE_BLOCKS],
        NONE,
        "T=44,0,0,0,0",
    ),
    (
        "at the end",
        REPLAY,
        0,
        &[&AT_THE_END],
        NONE,
        "T=35,1,0,0,0",
    ),
    (
        "by entries",
        REPLAY,
        0,
        &[&BY_ENTRIES],
        NONE,
        "T=49,3,1,0,0",
    ),
    (
        "by a stale entry",
        REPLAY,
        0,
        &[&BY_A_STALE_ENTRY],
        NONE,
        "T=41,1,0,0,0",
    ),
    (
        "by a list",
        REPLAY,
        0,
        &[&THREE_BLOCKS, &PREFETCHED],
        NONE,
        "T=46,2,2,0,0",
    ),
    (
        "by lists that are stale, of another LBA, and empty",
        REPLAY,
        0,
        &[
            &THREE_BLOCKS,
            &STALE_IN_THE_MIDDLE,
            &OF_ANOTHER_LBA,
            &EMPTIED,
        ],
        NONE,
        "T=61,6,3,0,0",
    ),
    (
        "lists that are refused",
        REPLAY,
        0,
        &[&THREE_BLOCKS, &NOT_PREFETCHED],
        NONE,
        "T=41,1,0,0,0",
    ),
    (
        "overwritten in the buffer",
        REPLAY,
        0,
        &[&OVERWRITTEN_IN_THE_BUFFER],
        NONE,
        "T=78,1,0,1,0",
    ),
    (
        "cut by a reset",
        REPLAY,
        0,
        &[&CUT_BY_A_RESET],
        NONE,
        "T=112,6,0,0,0",
    ),
    (
        "written anew again and again",
        REPLAY,
        0,
        &[
            &FILLED, &FILLED, &FILLED, &FILLED, &FILLED, &FILLED, &FILLED, &FILLED, &FILLED,
            &FILLED, &FILLED,
        ],
        NONE,
        "T=344,0,0,0,48",
    ),
    (
        "moved block",
        REPLAY,
        0,
        &[
            &FILLED, &ASKED, &GIVEN, &ASKED_4, &GIVEN, &ASKED_8, &GIVEN, &ASKED_12, &GIVEN,
            &ASKED_16, &GIVEN, &ASKED, &GIVEN, &ASKED_4, &GIVEN, &ASKED_8, &GIVEN, &ASKED_12,
            &MOVED,
        ],
        NONE,
        "T=86,0,0,1,1",
    ),
    (
        "second read",
        REPLAY,
        0,
        &[&SECOND_READ],
        37,
        "T=43,5,0,0,0",
    ),
    (
        "more writes than pages",
        REPLAY,
        33,
        &[&READ_BACK],
        NONE,
        "T=135,1,0,0,2",
    ),
    (
        "failed scan",
        REPLAY,
        0,
        &[&UNSCANNED, &ASKED, &GIVEN, &READ_BACK],
        32,
        "T=40,2,0,0,0",
    ),
    (
        "failed scan without a task",
        REPLAY,
        0,
        &[&UNSCANNED_ALONE, &WRITTEN_BY_STEPS, &STEPPED],
        1,
        "T=39,2,0,0,0",
    ),
    (
        "failed program",
        REPLAY,
        0,
        &[
            &ASKED,
            &UNPROGRAMMED,
            &STILL_UNWRITTEN,
            &ASKED,
            &GIVEN,
            &READ_BACK,
        ],
        33,
        "T=41,2,0,0,0",
    ),
    (
        "failed read",
        REPLAY,
        1,
        &[&UNREAD, &READ_BACK],
        34,
        "T=38,2,0,0,0",
    ),
    (
        "at rest",
        REPLAY,
        0,
        &[&ANSWERED, &CHECKED],
        NONE,
        "T=0,0,0,0,0",
    ),
    (
        "while a write waits",
        REPLAY,
        0,
        &[&ASKED, &ANSWERED, &GIVEN, &READ_BACK],
        NONE,
        "T=37,1,0,0,0",
    ),
    ("one by one", REPLAY, 1, &[&READ_MANY], NONE, "T=41,3,0,0,0"),
    (
        "other data",
        REPLAY,
        0,
        &[
            &ASKED,
            &STRAY,
            &GIVEN,
            &ASKED,
            &WRONG_PLACE,
            &ASKED,
            &WRONG_COUNT,
            &READ_MANY,
        ],
        NONE,
        "T=43,3,0,0,0",
    ),
    (
        "by steps",
        REPLAY,
        0,
        &[&WRITTEN_BY_STEPS, &STEPPED],
        NONE,
        "T=38,2,0,0,0",
    ),
    (
        "wrong offset",
        REPLAY,
        0,
        &[&WRONG_OFFSET],
        NONE,
        "T=35,1,0,0,0",
    ),
    ("in order", REPLAY, 0, &[&IN_ORDER], NONE, "T=36,0,0,0,0"),
    (
        "a hot subregion",
        SMALL,
        0,
        &[&READ_4, &READ_4, &READ_4, &READ_4_TOLD],
        NONE,
        "T=40,4,0,0,0",
    ),
    (
        "a hot subregion where the host decides",
        SMALL_HOST,
        0,
        &[&READ_4, &READ_4, &READ_4, &READ_4],
        NONE,
        "T=40,4,0,0,0",
    ),
    (
        "a subregion that is loaded, changed and given up",
        SMALL_HELD,
        0,
        &[
            &READ_4,
            &READ_4,
            &READ_4,
            &READ_4_TOLD,
            &READ_4,
            &LOADED,
            &ASKED_4,
            &GIVEN,
            &ASKED_4,
            &GIVEN,
            &ASKED_4,
            &GIVEN,
            &ASKED_4,
            &GIVEN,
            &ASKED_4,
            &GIVEN,
            &ASKED_4,
            &GIVEN,
            &ASKED_4,
            &GIVEN,
            &ASKED_4,
            &GIVEN_TOLD,
            &LOADED_OTHER,
            &INACTIVATED,
            &NOT_INACTIVATED,
        ],
        NONE,
        "T=72,5,0,0,0",
    ),
    (
        "a reset is told",
        REPLAY,
        0,
        &[&RESET],
        NONE,
        "T=33,0,0,0,0",
    ),
];

/// Whether a row is printed whole.
fn is_row(alloc: Global, row: Row) -> Result<bool, Fail> {
    let (_, words, writes, tables, call, counts) = row;
    let mut script = Script::new(alloc);
    for _write in 0..writes {
        script.add(&ASKED)?;
        script.add(&GIVEN)?;
    }
    for lines in tables.iter().copied() {
        script.add(lines)?;
    }
    script.end(counts)?;
    let mut outside = Outside::faultless(alloc);
    outside.calls.push(call)?;
    let ran = run_words(alloc, words, &script.trace, outside)?;
    Ok(ran.is_end(Status::Done, &script.printed))
}

#[test]
fn rows_are_printed_byte_for_byte(rt: HostRuntime) -> Result<(), Fail> {
    for row in ROWS {
        let (name, ..) = row;
        assert!(rt; is_row(rt.alloc(), row)?, "{name}");
    }
    Ok(())
}
