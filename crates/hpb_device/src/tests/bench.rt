//! A device over a chip in memory, as the tests call it. No method has a contract, so the tests are proved without that
//! of the device.
use super::*;
use std::marker::Model;

/// A device and the UPIU that it sent last. No clause sees anything of it.
#[derive(Drop)]
pub struct Bench {
    device: Device<MemFlash>,
    upiu: UpiuBuf,
}

impl Model for Bench {
    ghost Value = { Unit {0} };

    ghost view = { λ _. tt };
}

impl Bench {
    /// A device over a chip, which it begins to scan.
    pub fn new(alloc: Global, flash: MemFlash, shape: Shape, luns: u8) -> Result<Bench, Fail> {
        match Device::new(alloc, flash, shape, luns) {
            Ok(device) => Ok(Bench {
                device,
                upiu: UpiuBuf::new(),
            }),
            Err(_) => Err(Fail::new("no device")),
        }
    }

    /// Hands a UPIU to the device, and tells whether that sent one at once.
    pub fn receive(&mut self, bytes: &[u8]) -> bool {
        self.device.receive(bytes, &mut self.upiu) == Sent::Upiu
    }

    /// Makes a step.
    pub fn step(&mut self) -> Stepped {
        self.device.step(&mut self.upiu)
    }

    /// Makes a step of the collector.
    pub fn collect(&mut self) -> Stepped {
        self.device.collect()
    }

    /// Resets the device.
    pub fn reset(&mut self) {
        self.device.reset();
    }

    /// What the device needs to go on.
    pub fn waits(&self) -> Waits {
        self.device.waits()
    }

    /// The counts of steps, look-ups, entries, pages that were moved and erase blocks that were erased.
    pub fn counts(&self) -> [u64; 5] {
        let counts = self.device.counts();
        [
            counts.steps,
            counts.lookups,
            counts.entries,
            counts.moved,
            counts.erased,
        ]
    }

    /// The UPIU that was sent last.
    pub fn upiu(&self) -> &[u8] {
        self.upiu.bytes()
    }

    /// Hands a command for unit 0 to the device, and tells whether that sent a UPIU at once.
    pub fn command(&mut self, tag: u8, expected: u32, cdb: [u8; 16]) -> bool {
        let mut upiu = UpiuBuf::new();
        upiu.put_command(0, tag, 0, expected, &cdb);
        self.receive(upiu.bytes())
    }

    /// Hands a block of the write with tag 2 to the device, and tells whether that sent a UPIU at once.
    pub fn data(&mut self, number: u8, byte: u8) -> bool {
        let mut upiu = UpiuBuf::new();
        upiu.put_data_out(0, 2, 4096 * u32::from(number), &[byte; BLOCK_BYTES]);
        self.receive(upiu.bytes())
    }

    /// Steps a device without a task until its chip is scanned, and tells how many steps that took.
    pub fn scan(&mut self) -> Result<u32, Fail> {
        for step in 0..5000 {
            if self.step().idle {
                return Ok(step);
            }
        }
        Err(Fail::new("no end of the scan"))
    }
}

/// The CDB of READ(10), 28h, or WRITE(10), 2Ah.
pub fn transfer(opcode: u8, lba: u8, n: u8) -> [u8; 16] {
    [opcode, 0, 0, 0, 0, lba, 0, 0, n, 0, 0, 0, 0, 0, 0, 0]
}

/// The CDB of HPB READ of a block by an entry.
pub fn read_by_entry(lba: u8, entry: u64) -> [u8; 16] {
    let [a, b, c, d, e, f, g, h] = entry.to_be_bytes();
    [0xF8, 0, 0, 0, 0, lba, a, b, c, d, e, f, g, h, 1, 0]
}
