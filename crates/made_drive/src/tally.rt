//! A tally of answers in place of their text.
ghost use Rattle.std.specs.Prelude.{◌≡◌, [], ◌++◌, Some, Ok, fold, length};
ghost use Rattle.std.specs.Io.{WritesAtMost};
ghost use Rattle.std.specs.Io.KnownBytes.{WriteAppends};
ghost use Rattle.hpb_outside.specs.Faults.{WriteHasCause};
ghost use Rattle.made_drive.specs.Scan.{byte_taken, scanned};

use crate::scan::{Place, Scan};
use crate::written::Written;
use hpb_outside::{Failed, Sink};
use std::marker::Model;

/// A sink that keeps no text and counts the answers that are good or cut. It takes all bytes, and never fails.
#[derive(Drop)]
pub struct Tally {
    scan: Scan,
    written: Written,
}

impl Model for Tally {
    ghost use Rattle.std.specs.Prelude.{◌≡◌, ℕ, List};
    ghost use Rattle.made_drive.specs.Scan.{scanned};

    ghost Value = { List ℕ };

    ghost view = { λ t. t.written.bytes };

    ghost invariant = { λ t. t.scan ≡ scanned t.written.bytes };
}

impl Tally {
    /// A tally of no text.
    pub fn new() -> Tally
        ensures { result ≡ [] }
    {
        Tally {
            scan: Scan {
                good: 0,
                cut: 0,
                place: Place::Begin,
                before: 0,
                last: 0,
            },
            written: Written::new(),
        }
    }

    /// How many answers were good, up to 2^32 - 1.
    pub fn good(&self) -> u32
        ensures { result ≡ (scanned self.now).good }
    {
        self.scan.good
    }

    /// How many answers were cut, up to 2^32 - 1.
    pub fn cut(&self) -> u32
        ensures { result ≡ (scanned self.now).cut }
    {
        self.scan.cut
    }
}

impl Sink for Tally {
    ghost written = { λ tally. Some tally };

    ghost faults = { λ tally. 0 };

    fn write(&mut self, buf: &[u8]) -> Result<usize, Failed>
        ensures bound { WritesAtMost result buf.now }
        ensures bytes { WriteAppends (Some self.old) (Some self.new) result buf.now }
        ensures cause { WriteHasCause 0 0 (length buf.now) result }

        ensures all { result ≡ Ok (length buf.now) }
        ensures text { self.new ≡ self.old ++ buf.now }
    {
        self.scan = scan_on(self.scan, buf);
        self.written.note(buf);
        Ok(buf.len())
    }
}

/// What is seen with these bytes behind.
fn scan_on(scan: Scan, bytes: &[u8]) -> Scan
    ensures { result ≡ fold byte_taken scan bytes.now }
{
    let mut scan = scan;
    for byte in bytes {
        scan.take(*byte);
    }
    scan
}
