//! Lines of calls, with what each tells and sends. A line that begins with `=` says what those below it are.

/// Each of these is for a device of one unit of 20 blocks, over an erased chip that was scanned.
pub const SCRIPTS: &str = "\
= A write of nine blocks. Its data come in three pieces, and it is answered once all of them are programmed.
U 01200002 z z 00009000 2a000000 z 09000000 z
? > step
S > 31000002 z z z 00008000 z z z
? > host
S > idle
U 02000002 z 00004000 z 00004000 z z z 11s 11s 11s 11s
D
U 02000002 z 00004000 00004000 00004000 z z z 11s 11s 11s 11s
D > 31000002 z z 00008000 00001000 z z z
U 02000002 z 00001000 00008000 00001000 z z z 22s
D > 21000002 z z z z z z z
? > nothing
# 44 0 0 0 0

= The last block of a unit of 20, a block past it, and no block at the end and past it.
U 01400001 z z 00001000 28000000 00130000 01000000 z
D > 22000001 z 00001000 z 00001000 z z z 00s / 21000001 z z z z z z z
U 01400005 z z 00002000 28000000 00130000 02000000 z > 21200005 00000102 00000014 00002000 z z z z 00127000 \
05000000 000a0000 00002100 z
U 01400001 z z z 28000000 00140000 z z
D > 21000001 z z z z z z z
U 01400001 z z z 28000000 00150000 z z > 21000001 00000102 00000014 z z z z z 00127000 05000000 000a0000 00002100 z
# 35 1 0 0 0

= A task that waits for data: a tag that it has, data of another unit, of another tag, and in the wrong place.
U 01200002 z z 00001000 2a000000 z 01000000 z
U 02000002 z 00001000 z 00001000 z z z 11s > 3f000002 00000100 z 09000000 z z z z
D > 31000002 z z z 00001000 z z z
U 01400102 z z z z z z z > 3f000102 00000100 z 08000000 z z z z
U 02000102 z 00001000 z 00001000 z z z 11s > 3f000102 00000100 z 09000000 z z z z
U 02000003 z 00001000 z 00001000 z z z 11s > 3f000003 00000100 z 09000000 z z z z
U 02000002 z 00001000 00001000 00001000 z z z 11s > 21200002 00000102 00000014 00001000 z z z z 00127000 0b000000 \
000a0000 00004b00 z
U 01400002 z z 00002000 28000000 00050000 01000000 z
D > 22000002 z 00001000 z 00001000 z z z 00s / 21200002 z z 00001000 z z z z
# 35 1 0 0 0

= Data whose count isn't that of their bytes, is 0, or is more than was asked for. Each ends its task.
U 01200002 z z 00001000 2a000000 z 01000000 z
D > 31000002 z z z 00001000 z z z
U 02000002 z 00001000 z 00000fff z z z 11s > 21200002 00000102 00000014 00001000 z z z z 00127000 0b000000 \
000a0000 00004b00 z
D
U 01200002 z z 00001000 2a000000 z 01000000 z
D > 31000002 z z z 00001000 z z z
U 02000002 z z z z z z z > 21200002 00000102 00000014 00001000 z z z z 00127000 0b000000 000a0000 00004b00 z
D
U 01200002 z z 00001000 2a000000 z 01000000 z
D > 31000002 z z z 00001000 z z z
U 02000002 z 00002000 z 00002000 z z z 11s 11s > 21200002 00000102 00000014 00001000 z z z z 00127000 0b000000 \
000a0000 00004b00 z
D
# 35 0 0 0 0

= Commands without data, and the capacity of a unit of 20 blocks. What is expected past them is left as residual.
U 01400001 z z 00000100 z z z z
U 01400002 z z z 35000000 z 14000000 z
U 01400003 z z 0000000a 25000000 z z z
S > 21200001 z z 00000100 z z z z
S > 21000002 z z z z z z z
S > 22000003 z 00000008 z 00000008 z z z 00000013 00001000
D > 21200003 z z 00000002 z z z z
# 36 0 0 0 0

= Each tag below 32, one of them again, and one more.
N
U 01400004 z z z z z z z > 3f000004 00000100 z 08000000 z z z z
U 01400028 z z 00000010 z z z z > 21200028 00000128 z 00000010 z z z z
S > 21000000 z z z z z z z
U 01400028 z z z z z z z
S > 21000001 z z z z z z z
? > step
R
? > nothing
P > 00000020
# 66 0 0 0 0

= Blocks at LBA 2 and LBA 3, on pages 0 and 1, and reads of LBA 3 with the entries 1, 0, 2^64 - 1 and 32.
W 2 1 11s > 31000002 z z z 00001000 z z z / 21000002 z z z z z z z
W 3 1 22s > 31000002 z z z 00001000 z z z / 21000002 z z z z z z z
U 01400009 z z 00001000 f8000000 00030000 z 00010100
D > 22000009 z 00001000 z 00001000 z z z 22s / 21000009 z z z z z z z
U 01400009 z z 00001000 f8000000 00030000 z 00000100
D > 22000009 z 00001000 z 00001000 z z z 22s / 21000009 z z z z z z z
U 01400009 z z 00001000 f8000000 0003ffff ffffffff ffff0100
D > 22000009 z 00001000 z 00001000 z z z 22s / 21000009 z z z z z z z
U 01400009 z z 00001000 f8000000 00030000 z 00200100
D > 22000009 z 00001000 z 00001000 z z z 22s / 21000009 z z z z z z z
# 49 3 1 0 0

= LBA 3 is written twice, on pages 0 and 1, and is read with the entry 0.
W 3 1 11s > 31000002 z z z 00001000 z z z / 21000002 z z z z z z z
W 3 1 22s > 31000002 z z z 00001000 z z z / 21000002 z z z z z z z
U 01400009 z z 00001000 f8000000 00030000 z 00000100
D > 22000009 z 00001000 z 00001000 z z z 22s / 21000009 z z z z z z z
# 41 1 0 0 0

= A block is overwritten while the collector has it in its buffer. A reset takes nothing away.
W 0 4 11s > 31000002 z z z 00004000 z z z / 21000002 z z z z z z z
W 0 1 a5s > 31000002 z z z 00001000 z z z / 21000002 z z z z z z z
C
W 1 1 22s > 31000002 z z z 00001000 z z z / 21000002 z z z z z z z
C
C > M 0 2
R
U 01400001 z z 00001000 28000000 00010000 01000000 z
D > 22000001 z 00001000 z 00001000 z z z 22s / \
21000001 z 00000014 z z z z z 00128010 02000000 z z z
# 78 1 0 1 0

= Two of three blocks are overwritten when the device is reset. They are the new ones after this reset and the next.
W 0 3 11s > 31000002 z z z 00003000 z z z / 21000002 z z z z z z z
U 01200002 z z 00003000 2a000000 z 03000000 z
D > 31000002 z z z 00003000 z z z
U 02000002 z 00003000 z 00003000 z z z 22s 22s 22s
S
S
R
U 01400001 z z 00003000 28000000 z 03000000 z
D > 22000001 z 00001000 z 00001000 z z z 22s / 22000001 z 00001000 00001000 00001000 z z z 22s / \
22000001 z 00001000 00002000 00001000 z z z 11s / \
21000001 z 00000014 z z z z z 00128010 02000000 z z z
R
U 01400001 z z 00003000 28000000 z 03000000 z
D > 22000001 z 00001000 z 00001000 z z z 22s / 22000001 z 00001000 00001000 00001000 z z z 22s / \
22000001 z 00001000 00002000 00001000 z z z 11s / \
21000001 z 00000014 z z z z z 00128010 02000000 z z z
# 112 6 0 0 0

= All blocks of the unit are written eleven times. No page of a full erase block is then current, and none is moved.
W 0 20 11s > 31000002 z z z 00008000 z z z / 31000002 z z 00008000 00008000 z z z / \
31000002 z z 00010000 00004000 z z z / 21000002 z z z z z z z
W 0 20 22s > 31000002 z z z 00008000 z z z / 31000002 z z 00008000 00008000 z z z / \
31000002 z z 00010000 00004000 z z z / 21000002 z z z z z z z
W 0 20 11s > 31000002 z z z 00008000 z z z / 31000002 z z 00008000 00008000 z z z / \
31000002 z z 00010000 00004000 z z z / 21000002 z z z z z z z
W 0 20 22s > 31000002 z z z 00008000 z z z / 31000002 z z 00008000 00008000 z z z / \
31000002 z z 00010000 00004000 z z z / 21000002 z z z z z z z
W 0 20 11s > 31000002 z z z 00008000 z z z / 31000002 z z 00008000 00008000 z z z / \
31000002 z z 00010000 00004000 z z z / 21000002 z z z z z z z
W 0 20 22s > 31000002 z z z 00008000 z z z / 31000002 z z 00008000 00008000 z z z / \
31000002 z z 00010000 00004000 z z z / 21000002 z z z z z z z
W 0 20 11s > 31000002 z z z 00008000 z z z / 31000002 z z 00008000 00008000 z z z / \
31000002 z z 00010000 00004000 z z z / 21000002 z z z z z z z
W 0 20 22s > 31000002 z z z 00008000 z z z / 31000002 z z 00008000 00008000 z z z / \
31000002 z z 00010000 00004000 z z z / 21000002 z z z z z z z
W 0 20 11s > 31000002 z z z 00008000 z z z / 31000002 z z 00008000 00008000 z z z / \
31000002 z z 00010000 00004000 z z z / 21000002 z z z z z z z
W 0 20 22s > 31000002 z z z 00008000 z z z / 31000002 z z 00008000 00008000 z z z / \
31000002 z z 00010000 00004000 z z z / 21000002 z z z z z z z
W 0 20 11s > 31000002 z z z 00008000 z z z / 31000002 z z 00008000 00008000 z z z / \
31000002 z z 00010000 00004000 z z z / 21000002 z z z z z z z
# 344 0 0 0 48

= A page is moved after its entry was listed: its block is looked up. Entries that are listed anew are served.
W 0 1 11s > 31000002 z z z 00001000 z z z / 21000002 z z z z z z z
W 1 1 00s > 31000002 z z z 00001000 z z z / 21000002 z z z z z z z
W 1 1 00s > 31000002 z z z 00001000 z z z / 21000002 z z z z z z z
W 1 1 00s > 31000002 z z z 00001000 z z z / 21000002 z z z z z z z
W 1 1 22s > 31000002 z z z 00001000 z z z / 21000002 z z z z z z z
U 01400007 z z 00000010 f9010000 z 10000000 z
D > 22000007 z 00000010 z 00000010 z z z z z z 00000004 / 21000007 z z z z z z z
C
C > M 0 0
U 01400009 z z 00001000 f8000000 z z 00000100
D > 22000009 z 00001000 z 00001000 z z z 11s / 21000009 z z z z z z z
U 01400007 z z 00000010 f9010000 z 10000000 z
D > 22000007 z 00000010 z 00000010 z z z z 00000005 z 00000004 / 21000007 z z z z z z z
U 01400009 z z 00001000 f8000000 z z 00050100
D > 22000009 z 00001000 z 00001000 z z z 11s / 21000009 z z z z z z z
U 01400009 z z 00001000 f8000000 00010000 z 00040100
D > 22000009 z 00001000 z 00001000 z z z 22s / 21000009 z z z z z z z
# 58 1 2 1 0

= Pages are moved and erase blocks erased between the steps of a read: by an entry that is current, without an entry,
= and by an entry that isn't current any more when it is tried.
W 0 1 11s > 31000002 z z z 00001000 z z z / 21000002 z z z z z z z
W 1 1 00s > 31000002 z z z 00001000 z z z / 21000002 z z z z z z z
W 1 1 00s > 31000002 z z z 00001000 z z z / 21000002 z z z z z z z
W 1 1 00s > 31000002 z z z 00001000 z z z / 21000002 z z z z z z z
W 1 1 22s > 31000002 z z z 00001000 z z z / 21000002 z z z z z z z
U 01400009 z z 00002000 f8000000 z z 00000200
S > 22000009 z 00001000 z 00001000 z z z 11s
C
C > M 0 0
C
D > 22000009 z 00001000 00001000 00001000 z z z 22s / 21000009 z z z z z z z
W 2 1 00s > 31000002 z z z 00001000 z z z / 21000002 z z z z z z z
W 2 1 00s > 31000002 z z z 00001000 z z z / 21000002 z z z z z z z
W 2 1 00s > 31000002 z z z 00001000 z z z / 21000002 z z z z z z z
U 01400009 z z 00002000 28000000 z 02000000 z
S > 22000009 z 00001000 z 00001000 z z z 11s
C
C > M 0 1
D > 22000009 z 00001000 00001000 00001000 z z z 22s / 21000009 z z z z z z z
U 01400009 z z 00002000 f8000000 z z 00050200
C
C > M 0 0
S
C
S > 22000009 z 00001000 z 00001000 z z z 11s
D > 22000009 z 00001000 00001000 00001000 z z z 22s / 21000009 z z z z z z z
C > idle
S > idle
# 66 5 1 3 2";

/// What is answered alike while the chip is scanned, on a ready chip and on a foreign one, and leaves no task.
pub const REFUSALS: &str = "\
= Bytes that are no UPIU, kinds that aren't served, and data for no task.
U z z z z z z z 00 00 00 > 3f000000 00000100 z 01000000 z z z z
U 41000000 z 01000000 z z z z z > 3f000000 00000100 z 02000000 z z z z
U 01000000 z 01000000 z z z z z > 3f000000 00000100 z 03000000 z z z z
U z z 00000001 z z z z z > 3f000000 00000100 z 04000000 z z z z
U 3e000000 z z z z z z z > 3f000000 00000100 z 05000000 z z z z
U 01000000 01000000 z z z z z z > 3f000000 00000100 z 06000000 z z z z
U 20000000 z z z z z z z > 3f000000 00000100 z 07000000 z z z z
U 02000000 z z z z z z z > 3f000000 00000100 z 09000000 z z z z
U 00 00 00 > 3f000000 00000100 z 01000000 z z z z
U z z z z z z z z > 20000000 z z z z z z z
= Commands that are refused, one for each test: the unit, the opcode, the fields, the range, and the length that is
= expected.
U 01400103 z z z z z z z > 21000103 00000102 00000014 z z z z z 00127000 05000000 000a0000 00002500 z
U 01400003 z z 00001000 12000000 z z z > 21200003 00000102 00000014 00001000 z z z z 00127000 05000000 000a0000 \
00002000 z
U 01400003 z z 00000010 fa020000 00008000 10000000 z > 21200003 00000102 00000014 00000010 z z z z 00127000 \
05000000 000a0000 00002400 z
U 01400003 z z 00001000 f8000000 00030000 z 00010180 > 21200003 00000102 00000014 00001000 z z z z 00127000 \
05000000 000a0000 00002400 z
U 01400003 z z z 35000000 00130000 02000000 z > 21000003 00000102 00000014 z z z z z 00127000 05000000 000a0000 \
00002100 z
U 01400003 z z 00000fff 28000000 z 01000000 z > 21200003 00000102 00000014 00000fff z z z z 00127000 05000000 \
000a0000 00002400 z
U 01400003 z z 00000007 25000000 z z z > 21200003 00000102 00000014 00000007 z z z z 00127000 05000000 000a0000 \
00002400 z";

/// Three blocks are written, and are read twice. The fifth call of the chip after the scan fails.
pub const FIFTH_CALL: &str = "\
U 01200002 z z 00003000 2a000000 z 03000000 z
D > 31000002 z z z 00003000 z z z
U 02000002 z 00003000 z 00003000 z z z 11s 22s a5s
D > 21000002 z z z z z z z
U 01400006 z z 00003000 28000000 z 03000000 z
D > 22000006 z 00001000 z 00001000 z z z 11s / !read / \
21200006 00000102 00000014 00002000 z z z z 00127000 03000000 000a0000 00001100 z
U 01400006 z z 00003000 28000000 z 03000000 z
D > 22000006 z 00001000 z 00001000 z z z 11s / 22000006 z 00001000 00001000 00001000 z z z 22s / \
22000006 z 00001000 00002000 00001000 z z z a5s / 21000006 z z z z z z z
# 43 5 0 0 0";

/// A block of unit 1, which unit 0 doesn't show, is moved. Each unit has a list of entries of its own under read id 1.
pub const TWO_UNITS: &str = "\
U 01200102 z z 00001000 2a000000 00030000 01000000 z
D > 31000102 z z z 00001000 z z z
U 02000102 z 00001000 z 00001000 z z z a5s
D > 21000102 z z z z z z z
U 01400001 z z 00001000 28000000 00030000 01000000 z
U 01400102 z z 00001000 28000000 00030000 01000000 z
D > 22000001 z 00001000 z 00001000 z z z 00s / 21000001 z z z z z z z / \
22000102 z 00001000 z 00001000 z z z a5s / 21000102 z z z z z z z
U 01200103 z z 00000008 fa020000 00030100 08000000 z
D > 31000103 z z z 00000008 z z z
U 02000103 z 00000008 z 00000008 z z z z z
D > 21000103 z z z z z z z
U 01200003 z z 00000008 fa020000 00030100 08000000 z
D > 31000003 z z z 00000008 z z z
U 02000003 z 00000008 z 00000008 z z z z 00000005
D > 21000003 z z z z z z z
U 01400104 z z 00001000 f8000000 0003ffff ffffffff ffff0101
U 01400005 z z 00001000 f8000000 0003ffff ffffffff ffff0101
D > 22000104 z 00001000 z 00001000 z z z a5s / 21000104 z z z z z z z / \
22000005 z 00001000 z 00001000 z z z 00s / 21000005 z z z z z z z
D
W 5 1 00s > 31000002 z z z 00001000 z z z / 21000002 z z z z z z z
W 5 1 00s > 31000002 z z z 00001000 z z z / 21000002 z z z z z z z
W 5 1 00s > 31000002 z z z 00001000 z z z / 21000002 z z z z z z z
W 5 1 00s > 31000002 z z z 00001000 z z z / 21000002 z z z z z z z
C
C > M 1 3
C
U 01400102 z z 00001000 28000000 00030000 01000000 z
D > 22000102 z 00001000 z 00001000 z z z a5s / 21000102 z z z z z z z
# 62 4 1 1 1";

/// The entries of a subregion that the end of the unit cuts, and a subregion past it.
pub const LISTED: &str = "\
U 01400007 z z 00000010 f9010002 00010000 10000000 z
D > 22000007 z 00000008 z 00000008 z z z ffffffff ffffffff / 21200007 z z 00000008 z z z z
U 01400007 z z 00000010 f9010002 00020000 10000000 z > 21200007 00000102 00000014 00000010 z z z z 00127000 \
05000000 000a0000 00002400 z
# 34 0 0 0 0";

/// Entries of a unit of 600 blocks: none of them, one and a half, and more than a DATA IN carries.
pub const LISTED_IN_PIECES: &str = "\
U 01400001 z z z f9010000 z z z
D > 21000001 z z z z z z z
U 01400002 z z 0000000c f9010000 z 0c000000 z
D > 22000002 z 0000000c z 0000000c z z z ffffffff ffffffff ffffffff / 21000002 z z z z z z z
U 01400003 z z 00001008 f9010000 00000010 08000000 z
D > 22000003 z 00001000 z 00001000 z z z ffs / 22000003 z 00000008 00001000 00000008 z z z ffffffff ffffffff / \
21000003 z z z z z z z
# 1030 0 0 0 0";

/// A scan that is reset begins anew.
pub const RESET_IN_THE_SCAN: &str = "\
S
U 01400001 z z z z z z z
S
R
D
? > nothing
P > 00000020
# 34 0 0 0 0";

/// The scan of a chip of which calls 1, 2 and 4 fail: without a task, with a read, and with a write. The bytes of the
/// host are answered as on a ready chip.
pub const UNREAD: &str = "\
S > !read
U 01400001 z z 00001000 28000000 z 01000000 z
U 01400001 z z z z z z z > 3f000001 00000100 z 08000000 z z z z
S > !read / 21200001 00000102 00000014 00001000 z z z z 00127000 04000000 000a0000 00004400 z
S
U 01200002 z z 00001000 2a000000 z 01000000 z
U 02000002 z 00001000 z 00001000 z z z 11s > 3f000002 00000100 z 09000000 z z z z
C > idle
S > !read / 21200002 00000102 00000014 00001000 z z z z 00127000 04000000 000a0000 00004400 z
U 00000008 z z z z z z z > 20000008 z z z z z z z
S
P > 0000001e
# 35 0 0 0 0";

/// The first command of a device over a small foreign chip, whose scan comes first.
pub const FIRST_ON_A_FOREIGN: &str = "\
U 01400001 z z z z z z z
D > 21000001 00000102 00000014 z z z z z 00127000 04000000 000a0000 00004400 z
# 9 0 0 0 0";

/// A chip that has one page, with the last sequence number but one: one write, one for which there is no number, the
/// collector, and a read.
pub const LAST_NUMBER: &str = "\
W 0 1 a5s > 31000002 z z z 00001000 z z z / 21000002 z z z z z z z
W 0 1 22s > 31000002 z z z 00001000 z z z / 21000002 00000102 00000014 z z z z z 00127000 07000000 000a0000 00002700 z
C > idle
U 01400001 z z 00001000 28000000 z 01000000 z
D > 22000001 z 00001000 z 00001000 z z z a5s / 21000001 z z z z z z z
# 15 1 0 0 0";

/// A chip that has one page, with the last sequence number.
pub const NO_NUMBER_LEFT: &str = "\
W 0 1 22s > 31000002 z z z 00001000 z z z / 21000002 00000102 00000014 z z z z z 00127000 07000000 000a0000 00002700 z
C > idle
U 01400001 z z 00001000 28000000 z 01000000 z
D > 22000001 z 00001000 z 00001000 z z z 00s / 21000001 z z z z z z z
# 12 1 0 0 0";

/// Calls of a device over a foreign chip. None of them calls the chip. After a reset the scan begins anew, and the
/// first call of the chip fails.
pub const UNSERVED: &str = "\
S > idle
C > idle
U 01400001 z z z z z z z
U 01400005 z z 00002000 28000000 z 02000000 z
U 01200002 z z 00001000 2a000000 z 01000000 z
U 01400007 z z 00000008 f9010000 z 08000000 z
S > 21000001 00000102 00000014 z z z z z 00127000 04000000 000a0000 00004400 z
S > 21200005 00000102 00000014 00002000 z z z z 00127000 04000000 000a0000 00004400 z
C > idle
S > 21200002 00000102 00000014 00001000 z z z z 00127000 04000000 000a0000 00004400 z
D > 21200007 00000102 00000014 00000008 z z z z 00127000 04000000 000a0000 00004400 z
S > idle
U 00000008 z z z z z z z > 20000008 z z z z z z z
# 36 0 0 0 0
R
S > !read
U 01400001 z z z z z z z
D > 21000001 00000102 00000014 z z z z z 00127000 04000000 000a0000 00004400 z
# 70 0 0 0 0";

/// A read on a chip of which a page that is to be scanned can't be read.
pub const UNREAD_PAGE: &str = "\
U 01400001 z z 00001000 28000000 z 01000000 z
D > !read / 21200001 00000102 00000014 00001000 z z z z 00127000 04000000 000a0000 00004400 z";

/// The blocks of the chip whose pages tell their numbers. The first read goes on with the scan, at the page that could
/// not be read.
pub const PAGES: &str = "\
B > 00010203 04050607 08090a0b 0c0d0e0f 10111213
# 73 20 0 0 0";

/// Of each erase block one block is overwritten, and of the first three another one.
pub const WRITTEN: &str = "\
W 0 20 11s > 31000002 z z z 00008000 z z z / 31000002 z z 00008000 00008000 z z z / \
31000002 z z 00010000 00004000 z z z / 21000002 z z z z z z z
W 0 1 22s > 31000002 z z z 00001000 z z z / 21000002 z z z z z z z
W 4 1 22s > 31000002 z z z 00001000 z z z / 21000002 z z z z z z z
W 8 1 22s > 31000002 z z z 00001000 z z z / 21000002 z z z z z z z
W 12 1 22s > 31000002 z z z 00001000 z z z / 21000002 z z z z z z z
W 16 1 22s > 31000002 z z z 00001000 z z z / 21000002 z z z z z z z
W 0 1 a5s > 31000002 z z z 00001000 z z z / 21000002 z z z z z z z
W 4 1 a5s > 31000002 z z z 00001000 z z z / 21000002 z z z z z z z
W 8 1 a5s > 31000002 z z z 00001000 z z z / 21000002 z z z z z z z";

/// The next write, for which the collector makes room.
pub const MOVED: &str = "\
W 12 1 a5s > 31000002 z z z 00001000 z z z / M 0 c / 21000002 z z z z z z z
# 86 0 0 1 1";

/// That write where its first, second, third and fourth call of the chip fails, and the same again.
pub const FAILED_FOR_A_WRITE: &str = "\
= A read of the collector fails.
W 12 1 a5s > 31000002 z z z 00001000 z z z / !read / \
21000002 00000102 00000014 z z z z z 00127000 03000000 000a0000 00000c00 z
B > a5111111 a5111111 a5111111 22111111 22111111
W 12 1 a5s > 31000002 z z z 00001000 z z z / M 0 c / 21000002 z z z z z z z
B > a5111111 a5111111 a5111111 a5111111 22111111
# 168 40 0 1 1

= A program of the collector fails.
W 12 1 a5s > 31000002 z z z 00001000 z z z / !program / \
21000002 00000102 00000014 z z z z z 00127000 03000000 000a0000 00000c00 z
B > a5111111 a5111111 a5111111 22111111 22111111
W 12 1 a5s > 31000002 z z z 00001000 z z z / M 0 c / 21000002 z z z z z z z
B > a5111111 a5111111 a5111111 a5111111 22111111
# 168 40 0 1 1

= An erase fails.
W 12 1 a5s > 31000002 z z z 00001000 z z z / M 0 c / !erase / \
21000002 00000102 00000014 z z z z z 00127000 03000000 000a0000 00000c00 z
B > a5111111 a5111111 a5111111 22111111 22111111
W 12 1 a5s > 31000002 z z z 00001000 z z z / 21000002 z z z z z z z
B > a5111111 a5111111 a5111111 a5111111 22111111
# 168 40 0 1 1

= The program of the block fails.
W 12 1 a5s > 31000002 z z z 00001000 z z z / M 0 c / !program / \
21000002 00000102 00000014 z z z z z 00127000 03000000 000a0000 00000c00 z
B > a5111111 a5111111 a5111111 22111111 22111111
W 12 1 a5s > 31000002 z z z 00001000 z z z / 21000002 z z z z z z z
B > a5111111 a5111111 a5111111 a5111111 22111111
# 168 40 0 1 1";

/// Four blocks of which one is overwritten, and a task.
pub const FOUR_BLOCKS: &str = "\
W 0 4 11s > 31000002 z z z 00004000 z z z / 21000002 z z z z z z z
W 0 1 a5s > 31000002 z z z 00001000 z z z / 21000002 z z z z z z z
U 01400001 z z z z z z z";

/// The steps of the collector where each of its calls of the chip fails in turn. The task is still there, and so are
/// the blocks.
pub const FAILED_FOR_THE_COLLECTOR: &str = "\
X > . !read . . M 0 1 . . M 0 2 . . M 0 3 . . idle
D > 21000001 z z z z z z z
B > a5111111 z z z z
# 82 20 0 3 1

X > . . !program . M 0 1 . . M 0 2 . . M 0 3 . . idle
D > 21000001 z z z z z z z
B > a5111111 z z z z
# 82 20 0 3 1

X > . . M 0 1 . !read . . M 0 2 . . M 0 3 . . idle
D > 21000001 z z z z z z z
B > a5111111 z z z z
# 82 20 0 3 1

X > . . M 0 1 . . !program . M 0 2 . . M 0 3 . . idle
D > 21000001 z z z z z z z
B > a5111111 z z z z
# 82 20 0 3 1

X > . . M 0 1 . . M 0 2 . !read . . M 0 3 . . idle
D > 21000001 z z z z z z z
B > a5111111 z z z z
# 82 20 0 3 1

X > . . M 0 1 . . M 0 2 . . !program . M 0 3 . . idle
D > 21000001 z z z z z z z
B > a5111111 z z z z
# 82 20 0 3 1

X > . . M 0 1 . . M 0 2 . . M 0 3 . !erase . . idle
D > 21000001 z z z z z z z
B > a5111111 z z z z
# 82 20 0 3 1";

/// What the host is told of regions of eight blocks and subregions of two, of which it may hold one region.
pub const HINTED: &str = "\
= The fourth read of a subregion makes it worth loading. It is told once.
U 01400001 z z 00001000 28000000 00040000 01000000 z
D > 22000001 z 00001000 z 00001000 z z z 00s / 21000001 z z z z z z z
U 01400001 z z 00001000 28000000 00040000 01000000 z
D > 22000001 z 00001000 z 00001000 z z z 00s / 21000001 z z z z z z z
U 01400001 z z 00001000 28000000 00040000 01000000 z
D > 22000001 z 00001000 z 00001000 z z z 00s / 21000001 z z z z z z z
U 01400001 z z 00001000 28000000 00040000 01000000 z
D > 22000001 z 00001000 z 00001000 z z z 00s / 21000001 z 00000014 z z z z z 00128010 01000100 00000002 z z
U 01400001 z z z z z z z
D > 21000001 z z z z z z z
= It is loaded. Where a subregion of another region is, the first region is to be given up.
U 01400007 z z 00000010 f9010000 00020000 10000000 z
D > 22000007 z 00000010 z 00000010 z z z ffffffff ffffffff ffffffff ffffffff / 21000007 z z z z z z z
U 01400007 z z 00000010 f9010001 00000000 10000000 z
D > 22000007 z 00000010 z 00000010 z z z ffffffff ffffffff ffffffff ffffffff / \
21000007 z 00000014 z z z z z 00128010 01000001 z z z
= The host gives up a region, and all. No unit has a fourth region, and no WRITE BUFFER another mode.
U 01000008 z z z fa010001 z z z
D > 21000008 z z z z z z z
U 01000008 z z z fa030000 z z z
D > 21000008 z z z z z z z
U 01000008 z z z fa010003 z z z > 21000008 00000102 00000014 z z z z z 00127000 05000000 000a0000 00002400 z
U 01000008 z z z fa040000 z z z > 21000008 00000102 00000014 z z z z z 00127000 05000000 000a0000 00002400 z";
