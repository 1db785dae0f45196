ghost use Rattle.std.specs.Prelude.{IsTrue, ◌≡◌, ◌<◌, ◌≤◌, ◌⊎◌, ◌^◌, ◌+◌, ◌++◌, ℕ, length, flat_map, [], Some, OnOk};
ghost use Rattle.hex.specs.Hex.{IsBytes};
ghost use Rattle.hpb_outside.specs.Faults.{HasCause};
ghost use Rattle.flat_unit.specs.Print.{line_of};
ghost use Rattle.flat_unit.specs.Replays.{events_of, failed_events, moved_events};
ghost use Rattle.trace_text.specs.Lines.{HoldsLine};
ghost use Rattle.hpb_device.specs.Standing.{group_of, place_moved};
ghost use Rattle.run_output.specs.Writes.{KeepsText};

use crate::output::Output;
use flash_pages::ChipOp;
use flat_unit::Event;
use hpb_device::Stepped;
use hpb_outside::{Failed, Sink};
use trace_text::LineReader;
use upiu_wire::UpiuBuf;

/// Writes what was gathered, where there is no room for the lines of one more call.
pub fn make_room<K: Sink>(output: &mut Output, sink: &mut K) -> Result<(), Failed>
    ensures room { OnOk result (length output.new + 139520 ≤ 262144) }
    ensures kept { (output.new ≡ output.old) ⊎ (output.new ≡ []) }
    ensures text { KeepsText (K.written sink.old) (K.written sink.new) output.old output.new result }
    ensures cause { HasCause (K.faults sink.old) (K.faults sink.new) result }
{
    if output.has_room() {
        return Ok(());
    }
    output.flush(sink)
}

/// Adds the line of a call of the chip that failed, if one did.
pub fn push_failed(failed: Option<ChipOp>, output: &mut Output)
    requires room { length output.old + 139520 ≤ 262144 }
    ensures text { output.new ≡ output.old ++ flat_map line_of (failed_events failed) }
    ensures few { length output.new ≤ length output.old + 10 }
{
    if let Some(op) = failed {
        output.push_event(&Event::Failed(op));
    }
}

/// Adds the line of a block that the collector moved, if it moved one.
pub fn push_moved(moved: Option<(u8, u32)>, output: &mut Output)
    requires room { length output.old + 139510 ≤ 262144 }
    ensures text { output.new ≡ output.old ++ flat_map line_of (moved_events (place_moved moved)) }
    ensures few { length output.new ≤ length output.old + 17 }
    ensures small { (place : ℕ × ℕ) → moved ≡ Some place → (place.0 < 2 ^ 8) × (place.1 < 2 ^ 32) }
{
    if let Some((lun, lba)) = moved {
        output.push_event(&Event::Moved(lun, lba));
    }
}

/// Adds the lines of a step.
pub fn push_step(stepped: Stepped, upiu: &UpiuBuf, output: &mut Output)
    requires room { length output.old + 139520 ≤ 262144 }
    ensures text { output.new ≡ output.old ++ flat_map line_of (events_of (group_of stepped upiu.now)) }
    ensures bytes { IsTrue stepped.sent → IsBytes upiu.now × (length upiu.now ≤ 4128) }
    ensures small { (place : ℕ × ℕ) → stepped.moved ≡ Some place → (place.0 < 2 ^ 8) × (place.1 < 2 ^ 32) }
{
    push_failed(stepped.failed, output);
    push_moved(stepped.moved, output);
    if stepped.sent {
        output.push_upiu(b'<', upiu.bytes());
    }
}

/// Writes what was gathered, where the next line asks the source for more.
pub fn write_before_read<K: Sink>(
    reader: &LineReader,
    output: &mut Output,
    sink: &mut K,
) -> Result<(), Failed>
    ensures text { KeepsText (K.written sink.old) (K.written sink.new) output.old output.new result }
    ensures all { OnOk result (HoldsLine reader.now.held ⊎ (output.new ≡ [])) }
    ensures cause { HasCause (K.faults sink.old) (K.faults sink.new) result }
{
    if reader.holds_line() {
        return Ok(());
    }
    output.flush(sink)
}
