ghost use Rattle.std.specs.Prelude.{◌≡◌, ◌+◌, ◌*◌, ◌≤◌, ◌++◌, length, drop, codes, decimal};
ghost use Rattle.trace_text.specs.Written.{Puts, block_line, ending_line, ending_text};

use crate::show::{Text, push, push_byte, push_digit};
use crate::writer::{encode, put, put_number};
use hpb_sense::FixedSense;

/// How a request of a drive ended.
#[derive(Clone, Copy, Debug, PartialEq, Eq)]
pub enum Ending {
    /// GOOD.
    Good,
    /// CHECK CONDITION with this fixed sense (SPC).
    Check(FixedSense),
    /// Another status (SAM), or CHECK CONDITION without fixed sense.
    Status(u8),
    /// A reset of both ends dropped it.
    Cut,
    /// Its blocks aren't there, so it wasn't sent.
    Range,
}

/// Writes the line of an answer to the front of `out`, and answers how many bytes it has.
pub fn put_ending(number: u32, ending: Ending, out: &mut [u8]) -> usize
    requires { 40 ≤ length out.old }
    ensures length { result ≡ length (ending_line number ending) }
    ensures written { out.new ≡ ending_line number ending ++ drop result out.old }
    ensures few { result ≤ 40 }
{
    let mut text = Text::new();
    push_ending(ending, &mut text);
    let front = put_marked(b"A ", number as u64, out);
    let end = put(text.as_slice(), front, out);
    put(b"\n", end, out)
}

/// Writes the line of a block that a read got to the front of `out`, and answers how many bytes it has. The number of
/// the block is wider than an LBA, so that the blocks behind any first one can be counted.
pub fn put_block(lba: u64, bytes: &[u8], out: &mut [u8]) -> usize
    requires { 2 * length bytes.now + 24 ≤ length out.old }
    ensures length { result ≡ length (block_line lba bytes.now) }
    ensures written { out.new ≡ block_line lba bytes.now ++ drop result out.old }
    ensures few { result ≤ 2 * length bytes.now + 24 }
{
    let front = put_marked(b"B ", lba, out);
    let end = front + 2 * bytes.len();
    encode(bytes, &mut out[front..end]);
    put(b"\n", end, out)
}

/// Writes a mark, a number and a blank to the front of `out`, and answers the place behind them.
fn put_marked(mark: &[u8], number: u64, out: &mut [u8]) -> usize
    requires two { length mark.now ≡ 2 }
    requires room { 23 ≤ length out.old }
    ensures written { Puts out.old out.new 0 result (mark.now ++ decimal number ++ codes " ") }
    ensures few { result ≤ 23 }
{
    let front = put(mark, 0, out);
    let end = put_number(number, front, out);
    put(b" ", end, out)
}

/// Adds how a request ended.
fn push_ending(ending: Ending, text: &mut Text)
    requires { length text.old.items + 13 ≤ 512 }
    ensures text { text.new.items ≡ text.old.items ++ ending_text ending }
    ensures bound { length text.new.items ≤ length text.old.items + 13 }
{
    match ending {
        Ending::Good => push(b"good", text),
        Ending::Check(sense) => push_check(sense, text),
        Ending::Status(status) => push_status(status, text),
        Ending::Cut => push(b"cut", text),
        Ending::Range => push(b"range", text),
    }
}

/// Adds CHECK CONDITION and its sense.
fn push_check(sense: FixedSense, text: &mut Text)
    requires { length text.old.items + 13 ≤ 512 }
    ensures text { text.new.items ≡ text.old.items ++ ending_text (Ending.Check sense) }
    ensures bound { length text.new.items ≤ length text.old.items + 13 }
{
    push(b"check ", text);
    push_digit(sense.key, text);
    push(b" ", text);
    push_byte(sense.asc, text);
    push(b" ", text);
    push_byte(sense.ascq, text);
}

/// Adds another status.
fn push_status(status: u8, text: &mut Text)
    requires { length text.old.items + 13 ≤ 512 }
    ensures text { text.new.items ≡ text.old.items ++ ending_text (Ending.Status status) }
    ensures bound { length text.new.items ≤ length text.old.items + 13 }
{
    push(b"status ", text);
    push_byte(status, text);
}
