ghost use Rattle.std.specs.Prelude.{◌≡◌, ◌+◌, ◌^◌, ◌<◌, ◌↔◌, IsTrue, false};
ghost use Rattle.hpb_device.specs.Task.{WaitsForData, to_try};
ghost use Rattle.hpb_device.specs.Work.{work_of};

use flash_pages::BLOCK_BYTES;
use hpb_cdb::Cdb;

/// The bytes of a block.
pub const BLOCK: u32 = BLOCK_BYTES as u32;

/// The most bytes that are asked for at once.
pub const BURST_BYTES: usize = 32_768;

/// The tasks that are kept at most.
pub const TASKS: usize = 32;

/// The bytes that READ CAPACITY(10) sends (SBC).
pub const CAPACITY_BYTES: usize = 8;

/// The bytes of an entry.
pub const ENTRY_BYTES: usize = 8;

/// What the steps of a command do.
#[derive(Clone, Copy, Debug, PartialEq, Eq)]
pub enum Work {
    /// Blocks are read.
    ReadBlocks { lba: u32, n: u16 },
    /// Blocks are written.
    WriteBlocks { lba: u32, n: u16 },
    /// A list of entries is taken.
    TakeList { bytes: u16 },
    /// The entries of a subregion are listed.
    ListEntries { region: u16, sub: u16, len: u32 },
    /// The capacity of the unit is told.
    TellCapacity,
    /// The command is answered at once.
    AnswerOnly,
}

/// The work of a command. HPB READ reads as READ(10) does.
pub fn work_of(command: Cdb) -> Work
    ensures { result ≡ work_of command }
{
    match command {
        Cdb::Read { lba, n } => Work::ReadBlocks { lba, n },
        Cdb::HpbRead { lba, n, .. } => Work::ReadBlocks {
            lba,
            n: u16::from(n),
        },
        Cdb::Write { lba, n } => Work::WriteBlocks { lba, n },
        Cdb::Prefetch { len, .. } => Work::TakeList { bytes: len },
        Cdb::ReadBuffer { region, sub, len } => Work::ListEntries { region, sub, len },
        Cdb::Capacity => Work::TellCapacity,
        _ => Work::AnswerOnly,
    }
}

/// A command that is kept, and how far it has come. Offsets and lengths are bytes of its data.
#[derive(Clone, Copy, Debug, PartialEq, Eq)]
pub struct Task {
    pub lun: u8,
    pub tag: u8,
    pub command: Cdb,
    /// The bytes that the host expects to move.
    pub expected: u32,
    /// The bytes that it sends by DATA IN in all.
    pub given: u32,
    /// The bytes that were asked for by READY TO TRANSFER.
    pub asked: u32,
    /// The bytes that have come by DATA OUT.
    pub come: u32,
    /// The bytes that were sent by DATA IN.
    pub sent: u32,
    /// The blocks that were programmed.
    pub programmed: u32,
    /// Whether the entry of the next block was tried in vain.
    pub tried: bool,
}

impl Default for Task {
    /// TEST UNIT READY of unit 0, of which nothing is done yet.
    fn default() -> Task {
        Task::new(0, 0, Cdb::TestReady, 0, 0)
    }
}

impl Task {
    /// A command of which nothing is done yet.
    pub fn new(lun: u8, tag: u8, command: Cdb, expected: u32, given: u32) -> Task
        ensures { result ≡ record {
          lun = lun;
          tag = tag;
          command = command;
          expected = expected;
          given = given;
          asked = 0;
          come = 0;
          sent = 0;
          programmed = 0;
          tried = false;
        } }
    {
        Task {
            lun,
            tag,
            command,
            expected,
            given,
            asked: 0,
            come: 0,
            sent: 0,
            programmed: 0,
            tried: false,
        }
    }

    /// Whether the host is to send data before the command can go on.
    pub fn waits_for_data(&self) -> bool
        ensures { IsTrue result ↔ WaitsForData self.now }
    {
        self.come < self.asked
    }

    /// The entry of the next block, where it is to be tried: a block is left, and it wasn't tried yet.
    pub fn to_try(&self, entry: Option<u64>) -> Option<u64>
        ensures { result ≡ to_try entry self.now }
    {
        if self.sent < self.given && !self.tried {
            entry
        } else {
            None
        }
    }

    /// The task with one more block that was sent.
    pub fn with_block(self) -> Task
        requires { self.sent + 4096 < 2 ^ 32 }
        ensures { result ≡ record self { sent = self.sent + 4096; tried = false } }
    {
        Task {
            sent: self.sent + 4096,
            tried: false,
            ..self
        }
    }

    /// The task with so many more bytes of data that have come.
    pub fn with_data(self, count: u32) -> Task
        requires { self.come + count < 2 ^ 32 }
        ensures { result ≡ record self { come = self.come + count } }
    {
        Task {
            come: self.come + count,
            ..self
        }
    }
}
