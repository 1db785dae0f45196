use crate::Bytes;
use flash_pages::ChipOp;

/// What happens at a device, as its transcript shows it.
#[derive(Drop)]
pub enum Event {
    /// A UPIU of the host.
    Host(Bytes),
    /// A UPIU of the device.
    Device(Bytes),
    /// The device was reset.
    Reset,
    /// The collector programmed a page anew, by its logical unit and its LBA.
    Moved(u8, u32),
    /// A call of the chip failed.
    Failed(ChipOp),
    /// A query request reset HPB.
    Cleared,
    /// A query request switched HPB on or off.
    Switched(bool),
    /// A task management request took the task with this tag away.
    Gone(u8),
}
