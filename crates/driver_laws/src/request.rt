use flat_unit::Bytes;

/// What a caller asks a driver for. LBAs and counts `n` are in blocks of 4096 bytes.
#[derive(Drop)]
pub enum Request {
    /// The blocks of a logical unit from an LBA on.
    Read {
        lun: u8,
        lba: u32,
        n: u32,
    },
    /// To write these blocks of a logical unit from an LBA on, in `4096 * n` bytes.
    Write {
        lun: u8,
        lba: u32,
        n: u32,
        bytes: Bytes,
    },
    /// SYNCHRONIZE CACHE of all blocks, to logical unit 0.
    Sync,
    /// TEST UNIT READY, to logical unit 0.
    Ready,
}
