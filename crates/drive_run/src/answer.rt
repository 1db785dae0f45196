//! How requests end, as text.
ghost use Rattle.std.specs.Prelude.{◌≡◌, ◌⊎◌, ◌≤◌, ◌+◌, ◌*◌, ◌/◌, ◌++◌, length, OnOk, [], ℕ, List};
ghost use Rattle.hpb_outside.specs.Faults.{HasCause};
ghost use Rattle.driver_laws.specs.Flat.{Came, Cut};
ghost use Rattle.drive_rules.specs.Text.{answer_text, blocks_text, ending_of};
ghost use Rattle.trace_text.specs.Written.{ending_line};
ghost use Rattle.run_output.specs.Writes.{Grows};
ghost use Rattle.drive_run.specs.Moments.{Adds, ended_text};

use driver_laws::Answer;
use hpb_link::Ended;
use hpb_outside::{Failed, Sink};
use run_output::{Output, make_room};
use trace_text::Ending;

/// The bytes of a block.
const BLOCK_BYTES: usize = 4096;

/// How an answer is printed.
fn ending_of(answer: &Answer) -> Ending
    ensures { result ≡ ending_of (Came answer.now) }
{
    match answer {
        Answer::Good(_) => Ending::Good,
        Answer::Check(sense) => Ending::Check(*sense),
        Answer::Status(status) => Ending::Status(*status),
    }
}

/// Adds how a request ended, if one did.
pub(crate) fn push_end<K: Sink>(
    ended: &Option<Ended>,
    output: &mut Output,
    sink: &mut K,
) -> Result<(), Failed>
    ensures text { Adds (ended_text ended.now) (K.written sink.old) (K.written sink.new) output.old output.new result }
    ensures grows { Grows (K.written sink.old) (K.written sink.new) }
    ensures cause { HasCause (K.faults sink.old) (K.faults sink.new) result }
{
    match ended {
        Some(ended) => push_ended(ended, output, sink),
        None => Ok(()),
    }
}

/// Adds how a request ended, and the blocks that came with it.
fn push_ended<K: Sink>(ended: &Ended, output: &mut Output, sink: &mut K) -> Result<(), Failed>
    ensures text { Adds (answer_text ended.now.ticket.number ended.now.ticket.lba (Came ended.now.answer))
        (K.written sink.old) (K.written sink.new) output.old output.new result }
    ensures grows { Grows (K.written sink.old) (K.written sink.new) }
    ensures cause { HasCause (K.faults sink.old) (K.faults sink.new) result }
{
    push_ending(ended.ticket.number, ending_of(&ended.answer), output, sink)?;
    if let Answer::Good(bytes) = &ended.answer {
        return push_blocks(ended.ticket.lba, bytes.as_slice(), output, sink);
    }
    Ok(())
}

/// Adds the line of an answer.
pub(crate) fn push_ending<K: Sink>(
    number: u32,
    ending: Ending,
    output: &mut Output,
    sink: &mut K,
) -> Result<(), Failed>
    ensures text { Adds (ending_line number ending) (K.written sink.old) (K.written sink.new) output.old output.new
        result }
    ensures grows { Grows (K.written sink.old) (K.written sink.new) }
    ensures cause { HasCause (K.faults sink.old) (K.faults sink.new) result }
{
    make_room(output, sink)?;
    output.push_ending(number, ending);
    Ok(())
}

/// Adds the lines of the blocks of a read, the first of which has this number.
fn push_blocks<K: Sink>(
    lba: u32,
    bytes: &[u8],
    output: &mut Output,
    sink: &mut K,
) -> Result<(), Failed>
    ensures text { Adds (blocks_text lba bytes.now (length bytes.now / 4096)) (K.written sink.old) (K.written sink.new)
        output.old output.new result }
    ensures grows { Grows (K.written sink.old) (K.written sink.new) }
    ensures cause { HasCause (K.faults sink.old) (K.faults sink.new) result }
{
    for block in 0..bytes.len() / BLOCK_BYTES {
        make_room(output, sink)?;
        let first = block * BLOCK_BYTES;
        output.push_block(
            lba as u64 + block as u64,
            &bytes[first..first + BLOCK_BYTES],
        );
    }
    Ok(())
}
