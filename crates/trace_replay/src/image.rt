//! The image that stands before the lines.
ghost use Rattle.std.specs.Prelude.{◌≡◌, IfErr, OnOk, Err, true};
ghost use Rattle.chip_image.specs.Load.{Loads};
ghost use Rattle.chip_image.specs.Transfer.{RoseOnlyAt};
ghost use Rattle.hpb_device.specs.Begun.{IsBegun};
ghost use Rattle.run_output.specs.Ends.{SinkEnds};
ghost use Rattle.trace_replay.specs.Serving.{EndsWith, Finds, image_status, image_text};

use crate::program::refused;
use chip_image::ImageFault;
use flash_pages::Flash;
use hpb_device::Device;
use hpb_outside::{Sink, Source};
use run_output::{Outcome, Status};

/// The status that tells why an image was not loaded.
pub(crate) fn image_status(fault: ImageFault) -> Status
    ensures { result ≡ image_status fault }
{
    match fault {
        ImageFault::Magic => Status::BadImage(1),
        ImageFault::Shape => Status::BadImage(2),
        ImageFault::PageKind => Status::BadImage(3),
        ImageFault::Cut => Status::BadImage(4),
        ImageFault::Taken => Status::BadImage(5),
        ImageFault::ReadFault => Status::ReadFault,
        ImageFault::ChipFault => Status::ChipFault,
    }
}

/// The text that tells it. A fault of the chip may be left out.
pub(crate) fn image_text(tells_chip: bool, fault: ImageFault) -> &'static [u8]
    ensures { result.now ≡ image_text tells_chip fault }
{
    match fault {
        ImageFault::Magic => b"E image 1\n",
        ImageFault::Shape => b"E image 2\n",
        ImageFault::PageKind => b"E image 3\n",
        ImageFault::Cut => b"E image 4\n",
        ImageFault::Taken => b"E image 5\n",
        ImageFault::ChipFault if tells_chip => b"E chip\n",
        ImageFault::ChipFault | ImageFault::ReadFault => b"",
    }
}

/// The outcome where an image was not loaded.
pub(crate) fn refused_image<K: Sink, F: Flash>(
    fault: ImageFault,
    tells_chip: bool,
    sink: &mut K,
    flash: F,
) -> Outcome<F>
    ensures ends { EndsWith (image_status fault) (image_text tells_chip fault) (K.written sink.old)
        (K.written sink.new) result.status }
    ensures sink_faults { SinkEnds (K.faults sink.old) (K.faults sink.new) result.status }
    ensures flash { result.flash ≡ flash }
{
    let status = image_status(fault);
    let text = image_text(tells_chip, fault);
    if text.is_empty() {
        return Outcome { status, flash };
    }
    refused(sink, status, text, flash)
}

/// Loads the image that stands before the lines, where one does, onto the chip of a device that is as it was made.
pub(crate) fn load_first<S: Source, F: Flash>(
    device: &mut Device<F>,
    imaged: bool,
    source: &mut S,
) -> Result<(), ImageFault>
    requires { IsBegun device.old }
    ensures finds { OnOk result (Finds imaged device.old.store.geometry device.old.store.pages device.new.store.pages
        (S.left source.old) (S.left source.new)) }
    ensures refuses { IfErr result (λ fault. (imaged ≡ true) × Loads device.old.store.geometry device.old.store.pages
        device.new.store.pages (S.left source.old) (S.left source.new) (Err fault)) }
    ensures begun { IsBegun device.new }
    ensures shape { device.new.shape ≡ device.old.shape }
    ensures luns { device.new.store.luns ≡ device.old.store.luns }
    ensures units { device.new.store.units ≡ device.old.store.units }
    ensures geometry { device.new.store.geometry ≡ device.old.store.geometry }
    ensures source_faults { RoseOnlyAt (S.faults source.old) (S.faults source.new) ImageFault.ReadFault result }
    ensures chip_faults { RoseOnlyAt device.old.store.faults device.new.store.faults ImageFault.ChipFault result }
{
    if imaged { device.load(source) } else { Ok(()) }
}
