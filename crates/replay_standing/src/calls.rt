ghost use Rattle.std.specs.Prelude.{IsTrue, false, ◌≡◌, ◌<◌, ◌≤◌, ◌*◌, ◌^◌, ◌↔◌, ℕ, length, [], Some, None};
ghost use Rattle.std.specs.Bool.{OnFalse};
ghost use Rattle.hex.specs.Hex.{IsBytes};
ghost use Rattle.flat_unit.specs.Replays.{Progress, events_of, reset as reset_at};
ghost use Rattle.hpb_device.specs.Calls.{LeavesFewer, Receives, at_rest, reset_of, uncollected_in};
ghost use Rattle.hpb_device.specs.Left.{KeepsNoWrite, steps_left, unscanned};
ghost use Rattle.hpb_device.specs.Standing.{answer_events, group_of};
ghost use Rattle.hpb_device.specs.State.{DeviceState, IsIdle};
ghost use Rattle.replay_standing.specs.Calls.{HasCalled, HasReceived, HasStepped};
ghost use Rattle.replay_standing.specs.Standing.{Standing};

use flash_pages::Flash;
use hpb_device::{Device, Sent, Stepped};
use upiu_wire::UpiuBuf;

/// What is read is bytes.
fn see_bytes(bytes: &[u8])
    ensures { IsBytes bytes.now }
{
    let _count = bytes.len();
}

/// A UPIU is bytes, and has not too many.
fn see_upiu(out: &UpiuBuf)
    ensures { IsBytes out.now × (length out.now ≤ 4128) }
{
    see_bytes(out.bytes());
}

/// The place of a block that was moved is small.
fn see_place(moved: Option<(u8, u32)>)
    ensures { (place : ℕ × ℕ) → moved ≡ Some place → (place.0 < 2 ^ 8) × (place.1 < 2 ^ 32) }
{
    if let Some((_lun, _lba)) = moved {}
}

/// Makes a step of a device.
pub fn step<F: Flash>(device: &mut Device<F>, out: &mut UpiuBuf) -> Stepped
    ensures leads { (start : DeviceState) (p : Progress) → Standing start device.old p
        → HasStepped start device.new p (group_of result out.new) }
    ensures idle { IsTrue result.idle ↔ IsIdle device.old }
    ensures nothing { IsTrue result.idle → result ≡ at_rest }
    ensures unchanged { IsTrue result.idle → device.new ≡ device.old }
    ensures looked { IsTrue result.idle → unscanned device.old ≡ 0 }
    ensures fewer { OnFalse result.idle (LeavesFewer device.old device.new result) }
    ensures room { IsTrue result.sent → IsBytes out.new × (length out.new ≤ 4128) }
    ensures small { (place : ℕ × ℕ) → result.moved ≡ Some place → (place.0 < 2 ^ 8) × (place.1 < 2 ^ 32) }
    ensures shape { device.new.shape ≡ device.old.shape }
{
    let stepped = device.step(out);
    see_upiu(out);
    see_place(stepped.moved);
    stepped
}

/// Hands a device bytes of the host. What answers them at once is in `out`.
pub fn receive<F: Flash>(device: &mut Device<F>, bytes: &[u8], out: &mut UpiuBuf) -> Sent
    requires { length bytes.now ≤ 65568 }
    ensures leads { (start : DeviceState) (p : Progress) → Standing start device.old p
        → HasReceived start device.new p bytes.now (answer_events result out.new) }
    ensures receives { Receives device.old device.new bytes.now result out.new }
    ensures room { result ≡ Sent.Upiu → IsBytes out.new × (length out.new ≤ 4128) }
    ensures store { device.new.store ≡ device.old.store }
    ensures shape { device.new.shape ≡ device.old.shape }
    ensures counts { device.new.counts ≡ device.old.counts }
{
    let sent = device.receive(bytes, out);
    see_upiu(out);
    sent
}

/// Makes one call of the collector of a device.
pub fn collect<F: Flash>(device: &mut Device<F>) -> Stepped
    ensures leads { (start : DeviceState) (p : Progress) → Standing start device.old p
        → HasCalled start device.new p (events_of (group_of result [])) }
    ensures silent { result.sent ≡ false }
    ensures nothing { IsTrue result.idle → result ≡ at_rest }
    ensures unchanged { IsTrue result.idle → device.new ≡ device.old }
    ensures fewer { OnFalse result.idle (result.failed ≡ None → uncollected_in device.new < uncollected_in device.old) }
    ensures left { KeepsNoWrite device.old.tasks → steps_left device.new ≡ steps_left device.old }
    ensures small { (place : ℕ × ℕ) → result.moved ≡ Some place → (place.0 < 2 ^ 8) × (place.1 < 2 ^ 32) }
    ensures shape { device.new.shape ≡ device.old.shape }
{
    let stepped = device.collect();
    see_place(stepped.moved);
    stepped
}

/// Resets a device.
pub fn reset<F: Flash>(device: &mut Device<F>)
    ensures leads { (start : DeviceState) (p : Progress) → Standing start device.old p
        → Standing start device.new (reset_at p) }
    ensures reset { device.new ≡ reset_of device.old }
    ensures left { steps_left device.new ≡ device.old.store.geometry.blocks * device.old.store.geometry.pages }
{
    device.reset();
}
