//! Operation codes, in the first byte of a CDB: those of SBC and SPC, and those of HPB, which are this project's own.

/// TEST UNIT READY (SPC).
pub const TEST_UNIT_READY: u8 = 0x00;

/// READ CAPACITY(10) (SBC).
pub const READ_CAPACITY: u8 = 0x25;

/// READ(10) (SBC).
pub const READ: u8 = 0x28;

/// WRITE(10) (SBC).
pub const WRITE: u8 = 0x2A;

/// SYNCHRONIZE CACHE(10) (SBC).
pub const SYNCHRONIZE_CACHE: u8 = 0x35;

/// HPB READ.
pub const HPB_READ: u8 = 0xF8;

/// READ BUFFER of HPB.
pub const READ_BUFFER: u8 = 0xF9;

/// WRITE BUFFER of HPB.
pub const WRITE_BUFFER: u8 = 0xFA;
