ghost use Rattle.std.specs.Prelude.{◌≡◌, ◌+◌, ◌*◌, ◌≤◌, ◌++◌, ◌↔◌, [], length, IfOk, IsTrue, is_some};
ghost use Rattle.hpb_outside.specs.Faults.{HasCause};
ghost use Rattle.hex.specs.Hex.{IsBytes};
ghost use Rattle.flat_unit.specs.Print.{line_of};
ghost use Rattle.trace_text.specs.Written.{block_line, ending_line, upiu_line};
ghost use Rattle.trace_text.specs.Shown.{shown_line};
ghost use Rattle.run_output.specs.Texts.{counts_text, shown_text};
ghost use Rattle.hpb_outside.specs.Writes.{Writes};

use flat_unit::Event;
use hpb_device::Counts;
use hpb_outside::{Failed, NoMemory, Sink, write_whole};
use std::alloc::Global;
use std::marker::Model;
use trace_text::{Ending, put_block, put_counts, put_ending, put_event, put_shown, put_upiu};

/// The bytes that are gathered at most.
pub const OUTPUT_BYTES: usize = 262_144;

/// The room that the lines of one call need at most: a UPIU of the host of 65,568 bytes and its answer, as hex.
pub const LINE_ROOM: usize = 139_520;

/// Text that is gathered until it is written in one piece.
#[derive(Drop)]
pub struct Output {
    text: Vec<u8>,
    len: usize,
}

impl Model for Output {
    ghost use Rattle.std.specs.Prelude.{◌≡◌, ◌≤◌, ℕ, List, length, take};

    ghost Value = { List ℕ };

    ghost view = { λ o. take o.len o.text.items };

    ghost invariant = { λ o. (o.len ≤ 262144) × (length o.text.items ≡ 262144) };
}

impl Output {
    /// Nothing yet. It takes all its memory here.
    pub fn new(alloc: Global) -> Result<Output, NoMemory>
        ensures { IfOk result (λ output. output ≡ []) }
    {
        let text = vec![in alloc; 0; OUTPUT_BYTES]?;
        Ok(Output { text, len: 0 })
    }

    /// Adds the line of a UPIU behind a mark.
    pub fn push_upiu(&mut self, mark: u8, bytes: &[u8])
        requires { length self.old + (2 * length bytes.now + 3) ≤ 262144 }
        ensures text { self.new ≡ self.old ++ upiu_line mark bytes.now }
        ensures bytes { IsBytes bytes.now }
    {
        let len = put_upiu(mark, bytes, &mut self.text[self.len..]);
        self.len += len;
    }

    /// Adds the line of an event.
    pub fn push_event(&mut self, event: &Event)
        requires { length self.old + length (line_of event.now) ≤ 262144 }
        ensures { self.new ≡ self.old ++ line_of event.now }
    {
        let len = put_event(event, &mut self.text[self.len..]);
        self.len += len;
    }

    /// Adds the line of the counts.
    pub fn push_counts(&mut self, counts: Counts)
        requires { length self.old + 142 ≤ 262144 }
        ensures { self.new ≡ self.old ++ counts_text counts }
    {
        let numbers = [
            counts.steps,
            counts.lookups,
            counts.entries,
            counts.moved,
            counts.erased,
        ];
        let len = put_counts(&numbers, &mut self.text[self.len..]);
        self.len += len;
    }

    /// Adds the line of an answer.
    pub fn push_ending(&mut self, number: u32, ending: Ending)
        requires { length self.old + 40 ≤ 262144 }
        ensures text { self.new ≡ self.old ++ ending_line number ending }
        ensures few { length self.new ≤ length self.old + 40 }
    {
        let len = put_ending(number, ending, &mut self.text[self.len..]);
        self.len += len;
    }

    /// Adds the line of a block that a read got.
    pub fn push_block(&mut self, lba: u64, bytes: &[u8])
        requires { length self.old + (2 * length bytes.now + 24) ≤ 262144 }
        ensures text { self.new ≡ self.old ++ block_line lba bytes.now }
    {
        let len = put_block(lba, bytes, &mut self.text[self.len..]);
        self.len += len;
    }

    /// Adds a text.
    pub fn push_text(&mut self, text: &[u8])
        requires { length self.old + length text.now ≤ 262144 }
        ensures { self.new ≡ self.old ++ text.now }
    {
        let end = self.len + text.len();
        self.text[self.len..end].copy_from_slice(text);
        self.len = end;
    }

    /// Adds what is shown of a line, whose UPIU is written to the room; or nothing, where its UPIU isn't hex.
    pub fn push_shown(&mut self, line: &[u8], room: &mut [u8]) -> bool
        requires line { length line.now ≤ 131200 }
        requires room { 65600 ≤ length room.old }
        requires out { length self.old + 139520 ≤ 262144 }
        ensures known { result ≡ is_some (shown_line line.now) }
        ensures shown { self.new ≡ self.old ++ shown_text line.now }
    {
        match put_shown(line, room, &mut self.text[self.len..]) {
            Some(len) => {
                self.len += len;
                true
            }
            None => false,
        }
    }

    /// Whether there is room for the lines of one call.
    pub fn has_room(&self) -> bool
        ensures { IsTrue result ↔ (length self.now + 139520 ≤ 262144) }
    {
        self.len <= OUTPUT_BYTES - LINE_ROOM
    }

    /// Writes what was gathered, in as few pieces as the sink takes, and forgets it.
    pub fn flush<K: Sink>(&mut self, sink: &mut K) -> Result<(), Failed>
        ensures writes { Writes (K.written sink.old) (K.written sink.new) result self.old }
        ensures empty { self.new ≡ [] }
        ensures cause { HasCause (K.faults sink.old) (K.faults sink.new) result }
    {
        let len = self.len;
        self.len = 0;
        write_whole(sink, &self.text[..len])
    }
}
