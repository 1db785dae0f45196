//! A command that is open, from its opening to its RESPONSE.
ghost use Rattle.std.specs.Prelude.{◌≡◌, ◌+◌, ◌*◌, ◌<◌, ◌≤◌, ◌^◌, ℕ, List, [], length, true, false, vec_capacity};
ghost use Rattle.hpb_cdb.specs.Cdb.{HasRoom};
ghost use Rattle.hpb_cdb.specs.declared.limits.Limits.{Limits};
ghost use Rattle.upiu_wire.specs.Upiu.{upiu_at, upiu_out};
ghost use Rattle.flat_unit.specs.Command.{bytes_given, bytes_taken};
ghost use Rattle.driver_laws.specs.Commands.{begin_upiu, flags_of, owes_data, piece_upiu, with_begin, with_piece};
ghost use Rattle.driver_laws.specs.Deliver.{check_or_status, done_of, fixed_in, has_moved_all, is_in_phase};
ghost use Rattle.driver_laws.specs.Deliver.{is_next_data, is_next_range, with_asked, with_got};
ghost use Rattle.driver_caches.specs.Machine.{is_load};
ghost use Rattle.driver_commands.specs.Open.{IsOwnLoad, gets, gives, sizes_in};

use driver_laws::{Answer, Done};
use flat_unit::Bytes;
use hpb_cdb::{Cdb, Limits};
use hpb_sense::{FixedSense, Sense, read_sense};
use std::marker::Model;
use upiu_wire::{Kind, UpiuBuf, UpiuView};

/// The most bytes of a DATA OUT.
const PIECE_BYTES: u32 = 4096;

/// A command that is open.
#[derive(Drop)]
pub struct OpenCommand {
    tag: u8,
    lun: u8,
    command: Cdb,
    /// The bytes that it gives the device.
    bytes: Bytes,
    /// How many of them the device has asked for.
    asked: u32,
    /// How many were sent.
    given: u32,
    /// The bytes that came, in memory for all of them.
    got: Vec<u8>,
    /// Whether its COMMAND has gone out.
    out: bool,
    /// Whether a caller asked for it.
    caller: bool,
}

impl Model for OpenCommand {
    ghost use Rattle.std.specs.Prelude.{vec_capacity};
    ghost use Rattle.driver_laws.specs.Commands.{OpenCommand};
    ghost use Rattle.driver_commands.specs.Open.{IsOpen};

    ghost Value = { OpenCommand };

    ghost view = { λ o. record {
      tag = o.tag;
      lun = o.lun;
      command = o.command;
      bytes = o.bytes;
      asked = o.asked;
      given = o.given;
      got = o.got.items;
      out = o.out;
      caller = o.caller;
    } };

    ghost invariant = { λ o. IsOpen o.command o.bytes o.asked o.given o.got.items o.caller (vec_capacity o.got) };
}

/// The bytes that a command gives the device.
fn bytes_taken(command: Cdb) -> u32
    ensures value { (lim : Limits) → result ≡ bytes_taken (sizes_in lim) command }
    ensures gives { result ≡ gives command }
{
    match command {
        Cdb::Write { n, .. } => PIECE_BYTES * u32::from(n),
        Cdb::Prefetch { len, .. } => u32::from(len),
        _ => 0,
    }
}

/// The bytes that a command gets.
fn bytes_given(command: Cdb, limits: Limits) -> u32
    ensures value { result ≡ bytes_given (sizes_in limits) command }
    ensures gets { result ≤ gets command }
{
    match command {
        Cdb::Write { .. } | Cdb::Prefetch { .. } => 0,
        _ => hpb_cdb::needed(&command, limits),
    }
}

/// The flags of a COMMAND (JESD220): whether data come from the device, go to it, or neither.
fn flags_of(command: Cdb) -> u8
    ensures { result ≡ flags_of command }
{
    match command {
        Cdb::Read { .. } | Cdb::HpbRead { .. } | Cdb::ReadBuffer { .. } => 0x40,
        Cdb::Write { .. } | Cdb::Prefetch { .. } => 0x20,
        _ => 0,
    }
}

impl OpenCommand {
    ghost use Rattle.driver_laws.specs.Commands.{open_as};

    /// A command that waits to go out, with the bytes that it gives and with memory for all that it gets. It moves its
    /// arguments, and allocates nothing.
    pub fn new(
        tag: u8,
        lun: u8,
        command: Cdb,
        bytes: Bytes,
        got: Vec<u8>,
        caller: bool,
    ) -> OpenCommand
        requires room { gets command ≤ vec_capacity got }
        requires empty { got.items ≡ [] }
        requires gives { length bytes ≡ gives command }
        requires fits { HasRoom command }
        requires load { IsOwnLoad command caller (vec_capacity got) }
        ensures { result ≡ open_as (record { lun = lun; command = command; bytes = bytes; caller = caller }) tag }
    {
        OpenCommand {
            tag,
            lun,
            command,
            bytes,
            asked: 0,
            given: 0,
            got,
            out: false,
            caller,
        }
    }

    /// Its tag.
    pub fn tag(&self) -> u8
        ensures { result ≡ self.now.tag }
    {
        self.tag
    }

    /// The logical unit that it is for.
    pub fn lun(&self) -> u8
        ensures { result ≡ self.now.lun }
    {
        self.lun
    }

    /// What it asks of the device.
    pub fn command(&self) -> Cdb
        ensures { result ≡ self.now.command }
    {
        self.command
    }

    /// The bytes that came so far.
    pub fn got(&self) -> &[u8]
        ensures { result.now ≡ self.now.got }
    {
        &self.got
    }

    /// Whether it lists the entries of a subregion (READ BUFFER).
    pub fn is_load(&self) -> bool
        ensures { result ≡ is_load self.now.command }
    {
        match self.command {
            Cdb::ReadBuffer { .. } => true,
            _ => false,
        }
    }

    /// The memory of a list of entries, once the command is over.
    pub fn into_list(self) -> Vec<u8>
        requires { is_load self.command ≡ true }
        ensures own { self.caller ≡ false }
        ensures room { 523904 ≤ vec_capacity result }
    {
        self.got
    }

    /// Whether its COMMAND has gone out.
    pub fn is_out(&self) -> bool
        ensures { result ≡ self.now.out }
    {
        self.out
    }

    /// Whether a caller asked for it.
    pub fn is_caller(&self) -> bool
        ensures { result ≡ self.now.caller }
    {
        self.caller
    }

    /// Whether the device has asked for more of its data than was sent.
    pub fn owes_data(&self) -> bool
        ensures { result ≡ owes_data self.now }
    {
        self.given < self.asked
    }

    /// Writes the DATA OUT of the next piece of its data (JESD220), of a block at most, and counts it as sent. It
    /// copies the piece.
    pub fn put_piece(&mut self, out: &mut UpiuBuf)
        ensures new { (lim : Limits) → self.new ≡ with_piece (sizes_in lim) self.old }
        ensures sent { (lim : Limits) → out.new ≡ upiu_out (piece_upiu (sizes_in lim) self.old) }
    {
        let end = (self.given + PIECE_BYTES).min(self.asked);
        let piece = &self.bytes.as_slice()[self.given as usize..end as usize];
        out.put_data_out(self.lun, self.tag, self.given, piece);
        self.given = end;
    }

    /// Writes its COMMAND (JESD220) with its CDB (SBC), and counts it as out. It always costs the same.
    pub fn put_begin(&mut self, limits: Limits, out: &mut UpiuBuf)
        ensures new { self.new ≡ with_begin self.old }
        ensures sent { out.new ≡ upiu_out (begin_upiu (sizes_in limits) self.old) }
    {
        let mut cdb = [0; 16];
        hpb_cdb::put(&self.command, &mut cdb);
        let expected = hpb_cdb::needed(&self.command, limits);
        out.put_command(self.lun, self.tag, flags_of(self.command), expected, &cdb);
        self.out = true;
    }

    /// Whether a DATA IN is the next piece of what it gets: it begins where what came ends.
    fn is_next_data(&self, limits: Limits, view: &UpiuView<'_>) -> bool
        ensures { result ≡ is_next_data (sizes_in limits) self.now (upiu_at view.now) }
    {
        let count = view.count();
        view.offset() as usize == self.got.len()
            && count as usize == view.segment().len()
            && count != 0
            && self.got.len() + count as usize <= bytes_given(self.command, limits) as usize
    }

    /// Whether a READY TO TRANSFER asks for the next range of what it gives: it begins where the last one ends.
    fn is_next_range(&self, view: &UpiuView<'_>) -> bool
        ensures { (lim : Limits) → result ≡ is_next_range (sizes_in lim) self.now (upiu_at view.now) }
    {
        let count = view.count();
        view.offset() == self.asked
            && count != 0
            && u64::from(self.asked) + u64::from(count) <= u64::from(bytes_taken(self.command))
    }

    /// Whether all its data have moved.
    fn has_moved_all(&self, limits: Limits) -> bool
        ensures { result ≡ has_moved_all (sizes_in limits) self.now }
    {
        self.got.len() == bytes_given(self.command, limits) as usize
            && self.given == bytes_taken(self.command)
    }

    /// Whether the UPIU may come for it now (JESD220): its next DATA IN, a READY TO TRANSFER for its next range, or a
    /// RESPONSE, but GOOD only once all its data have moved. It always costs the same.
    pub fn is_in_phase(&self, limits: Limits, view: &UpiuView<'_>) -> bool
        ensures { result ≡ is_in_phase (sizes_in limits) self.now (upiu_at view.now) }
    {
        self.lun == view.lun()
            && match view.kind() {
                Kind::DataIn => self.is_next_data(limits, view),
                Kind::ReadyToTransfer => self.is_next_range(view),
                Kind::Response => view.status() != 0 || self.has_moved_all(limits),
                _ => false,
            }
    }

    /// Takes the next piece of what it gets. It copies it, and allocates nothing.
    pub fn take(&mut self, segment: &[u8])
        requires { length self.old.got + length segment.now ≤ gets self.old.command }
        ensures { self.new ≡ with_got segment.now self.old }
    {
        self.got.extend_from_slice(segment).unwrap();
    }

    /// The device asks for so many more bytes of its data.
    pub fn ask(&mut self, count: u32)
        requires { self.old.asked + count ≤ gives self.old.command }
        ensures { self.new ≡ with_asked (self.old.asked + count) self.old }
    {
        // the sum fits, since the number of all its bytes does
        let _most = bytes_taken(self.command);
        self.asked += count;
    }

    /// Ends it by its RESPONSE, and answers how, where a caller asked for it (SAM). GOOD has the bytes that came, CHECK
    /// CONDITION the fixed sense of the segment (SPC). It moves the bytes, and allocates nothing.
    pub fn end(self, view: &UpiuView<'_>) -> Option<Done>
        ensures { result ≡ done_of self (upiu_at view.now) }
    {
        let OpenCommand {
            tag,
            got,
            caller,
            ..
        } = self;
        let status = view.status();
        let answer = if status == 0x00 {
            Answer::Good(Bytes::new(got))
        } else if status == 0x02 {
            check_or_status(status, view.segment())
        } else {
            Answer::Status(status)
        };
        if caller {
            Some(Done { tag, answer })
        } else {
            None
        }
    }
}

/// The fixed sense of a segment (SPC), if it has one.
fn fixed_in(segment: &[u8]) -> Option<FixedSense>
    ensures { result ≡ fixed_in segment.now }
{
    match read_sense(segment) {
        Some(Sense::Fixed(sense)) => Some(sense),
        _ => None,
    }
}

/// The answer of a CHECK CONDITION: its fixed sense, or else the status alone.
fn check_or_status(status: u8, segment: &[u8]) -> Answer
    ensures { result ≡ check_or_status status (fixed_in segment.now) }
{
    match fixed_in(segment) {
        Some(sense) => Answer::Check(sense),
        None => Answer::Status(status),
    }
}
