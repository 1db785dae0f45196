//! A drive over a chip.
ghost use Rattle.std.specs.Prelude.{◌≡◌, ◌≤◌, ◌⊎◌, ⊤, ℕ, Bool, IfErr, IfOk, List, OnOk, Err, true};
ghost use Rattle.chip_image.specs.Load.{Loads};
ghost use Rattle.chip_image.specs.Transfer.{RoseOnlyAt};
ghost use Rattle.flash_pages.specs.Chip.{Page};
ghost use Rattle.flash_pages.specs.declared.chip.Geometry as declared;
ghost use Rattle.hpb_device.specs.Begun.{IsBegun};
ghost use Rattle.hpb_device.specs.State.{DeviceState};
ghost use Rattle.hpb_driver.specs.State.{CanDrive};
ghost use Rattle.hpb_link.specs.State.{LinkState};
ghost use Rattle.region_state.specs.declared.shape.Shape.{Shape};
ghost use Rattle.run_output.specs.Ends.{SinkEnds, SourceEnds};
ghost use Rattle.trace_replay.specs.Beginning.{IsFresh, IsServedBy, link_begun};
ghost use Rattle.trace_replay.specs.Programs.{DriveServes};
ghost use Rattle.trace_replay.specs.Run.{ProgramIs};
ghost use Rattle.trace_replay.specs.Serving.{Finds};
ghost use Rattle.command_words.specs.Options.{cut_shape};

use crate::image::refused_image;
use crate::program::refused;
use chip_image::ImageFault;
use command_words::Driven;
use drive_run::{Buffers, drive};
use flash_pages::Flash;
use hpb_device::Device;
use hpb_driver::Driver;
use hpb_link::Link;
use hpb_outside::{NewFault, Sink, Source};
use region_state::Shape;
use run_output::{Outcome, Status};
use std::alloc::Global;

/// Drives a device over the chip, which has to be the named one, with a driver of its own.
pub(crate) fn run_drive<S: Source, K: Sink, F: Flash>(
    alloc: Global,
    driven: Driven,
    source: &mut S,
    sink: &mut K,
    flash: F,
) -> Outcome<F>
    ensures run { (unit : Shape) → driven.named.unit ≡ cut_shape unit
        → ProgramIs ⊤ (IsServedBy driven.named.chip unit (F.geometry flash))
        ((source.new ≡ source.old) × (F.pages result.flash ≡ F.pages flash))
        (DriveServes unit driven.plain driven.answers driven.image (F.geometry flash) (F.pages flash)
        (F.pages result.flash) (F.faults flash) (F.faults result.flash) (S.left source.old) (S.left source.new)
        (K.written sink.old) (K.written sink.new)) (K.written sink.old) (K.written sink.new) result.status }
    ensures geometry { F.geometry result.flash ≡ F.geometry flash }
    ensures source_faults { SourceEnds (S.faults source.old) (S.faults source.new) result.status }
    ensures sink_faults { SinkEnds (K.faults sink.old) (K.faults sink.new) result.status }
{
    let named = driven.named;
    if flash.geometry() != named.chip {
        return refused(sink, Status::Geometry, b"E geometry\n", flash);
    }
    let device = match Device::new(alloc, flash, named.unit, 1) {
        Ok(device) => device,
        Err((flash, NewFault::Geometry)) => {
            return refused(sink, Status::Geometry, b"E geometry\n", flash);
        }
        Err((flash, NewFault::Memory)) => {
            return Outcome {
                status: Status::Memory,
                flash,
            };
        }
    };
    match link_of(alloc, device, named.unit, driven.plain) {
        Ok(link) => drive_over(alloc, link, driven, source, sink),
        Err(device) => Outcome {
            status: Status::Memory,
            flash: device.into_flash(),
        },
    }
}

/// A device and a driver for it; the device comes back where there isn't enough memory.
pub(crate) fn link_of<F: Flash>(
    alloc: Global,
    device: Device<F>,
    unit: Shape,
    plain: bool,
) -> Result<Link<F>, Device<F>>
    requires { CanDrive unit 1 }
    ensures begun { IfOk result (λ link. link ≡ link_begun device plain unit) }
    ensures back { IfErr result (λ back. back ≡ device) }
{
    let Ok(driver) = Driver::new(alloc, unit, plain, 1) else {
        return Err(device);
    };
    match Link::new(alloc, device, driver) {
        Ok(link) => Ok(link),
        Err((device, _)) => Err(device),
    }
}

/// Loads the image that stands before the lines, where one does.
fn load_first<S: Source, F: Flash>(
    link: &mut Link<F>,
    imaged: bool,
    source: &mut S,
) -> Result<(), ImageFault>
    requires { IsBegun link.old.device }
    ensures finds { OnOk result (Finds imaged link.old.device.store.geometry link.old.device.store.pages
        link.new.device.store.pages (S.left source.old) (S.left source.new)) }
    ensures refuses { IfErr result (λ fault. (imaged ≡ true) × Loads link.old.device.store.geometry
        link.old.device.store.pages link.new.device.store.pages (S.left source.old) (S.left source.new) (Err fault)) }
    ensures begun { IsBegun link.new.device }
    ensures shape { link.new.device.shape ≡ link.old.device.shape }
    ensures luns { link.new.device.store.luns ≡ link.old.device.store.luns }
    ensures units { link.new.device.store.units ≡ link.old.device.store.units }
    ensures geometry { link.new.device.store.geometry ≡ link.old.device.store.geometry }
    ensures others { link.new ≡ record link.old { device = link.new.device } }
    ensures source_faults { RoseOnlyAt (S.faults source.old) (S.faults source.new) ImageFault.ReadFault result }
    ensures chip_faults { RoseOnlyAt link.old.device.store.faults link.new.device.store.faults
        ImageFault.ChipFault result }
{
    if imaged { link.load(source) } else { Ok(()) }
}

/// Drives two ends of which neither has anything open, behind an image where one stands before the lines.
fn drive_over<S: Source, K: Sink, F: Flash>(
    alloc: Global,
    mut link: Link<F>,
    driven: Driven,
    source: &mut S,
    sink: &mut K,
) -> Outcome<F>
    requires begun { IsBegun link.device }
    requires some_page { 1 ≤ link.device.store.geometry.pages }
    requires serves { CanDrive link.device.shape 1 }
    requires one { link.device.store.luns ≡ 1 }
    requires link { link ≡ link_begun link.device driven.plain link.device.shape }
    ensures run { (unit : Shape) (geometry : declared.Geometry) (pages : List Page) (faults : ℕ)
        → IsFresh link.device unit geometry pages faults
        → ((result.status ≡ Status.Memory) × (source.new ≡ source.old) × (K.written sink.new ≡ K.written sink.old)
        × (F.pages result.flash ≡ pages))
        ⊎ DriveServes unit driven.plain driven.answers driven.image geometry pages (F.pages result.flash) faults
        (F.faults result.flash) (S.left source.old) (S.left source.new) (K.written sink.old) (K.written sink.new)
        result.status }
    ensures geometry { F.geometry result.flash ≡ link.device.store.geometry }
    ensures source_faults { SourceEnds (S.faults source.old) (S.faults source.new) result.status }
    ensures sink_faults { SinkEnds (K.faults sink.old) (K.faults sink.new) result.status }
{
    let Ok(mut buffers) = Buffers::new(alloc) else {
        return Outcome {
            status: Status::Memory,
            flash: link.into_flash(),
        };
    };
    match load_first(&mut link, driven.image, source) {
        Ok(()) => {
            let answers = driven.answers;
            let status = drive(alloc, &mut link, answers, &mut buffers, source, sink);
            Outcome {
                status,
                flash: link.into_flash(),
            }
        }
        Err(fault) => refused_image(fault, true, sink, link.into_flash()),
    }
}
