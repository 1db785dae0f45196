//! Requests over two ends that are joined, call by call. What drives print is shown by the tests of `trace_replay`, and
//! by the scripts of the gate.
use crate::{Link, Submitted};
use driver_laws::{Answer, Request};
use flash_pages::{Geometry, MemFlash};
use flat_unit::Bytes;
use hpb_device::Device;
use hpb_driver::Driver;
use region_state::{Mode, Shape};
use std::alloc::Global;
use std::test::*;
use upiu_wire::UpiuBuf;

/// A chip whose unit has 20 blocks.
const CHIP: Geometry = Geometry {
    blocks: 8,
    pages: 4,
};

/// Regions of eight blocks, each of four subregions, of which the unit holds one.
const SHAPE: Shape = Shape {
    units: 20,
    region_exp: 6,
    sub_exp: 4,
    held: 1,
    mode: Mode::Device,
};

/// Both ends of one unit over an erased chip.
fn join(alloc: Global) -> Result<Link<MemFlash>, Fail> {
    if !CHIP.is_within_limits() {
        return Err(Fail::new("no chip"));
    }
    let flash = MemFlash::new(alloc, CHIP, Vec::new(alloc))?;
    let Ok(device) = Device::new(alloc, flash, SHAPE, 1) else {
        return Err(Fail::new("no device"));
    };
    let driver = Driver::new(alloc, SHAPE, false, 1)?;
    let Ok(link) = Link::new(alloc, device, driver) else {
        return Err(Fail::new("no link"));
    };
    Ok(link)
}

/// Makes steps, with what the driver sends before each of them. Adds the number of each request that was answered GOOD,
/// and how many bytes it got.
fn go_on(link: &mut Link<MemFlash>, steps: u32, ended: &mut Vec<(u32, usize)>) -> Result<(), Fail> {
    let mut out = UpiuBuf::new();
    let mut reply = UpiuBuf::new();
    for _ in 0..steps {
        for _ in 0..2 {
            let _sent = link.send(&mut out, &mut reply);
        }
        let (_, end) = link.step(&mut out);
        if let Some(end) = end {
            let Answer::Good(bytes) = &end.answer else {
                return Err(Fail::new("not GOOD"));
            };
            ended.push((end.ticket.number, bytes.as_slice().len()))?;
        }
    }
    Ok(())
}

#[test]
fn requests_end_or_are_cut(rt: HostRuntime) -> Result<(), Fail> {
    let mut link = join(rt.alloc())?;
    let mut ended = Vec::new(rt.alloc());
    let mut block = Vec::new(rt.alloc());
    block.resize(4096, 0xA5)?;
    let bytes = Bytes::new(block);
    assert!(rt; link.tags_used() < 32 && link.count() < 1_000_000);
    let write = Request::Write {
        lun: 0,
        lba: 7,
        n: 1,
        bytes,
    };
    assert_eq!(rt; link.submit(write), Submitted::Taken);
    go_on(&mut link, 40, &mut ended)?;
    assert!(rt; link.tags_used() < 32 && link.count() < 1_000_000);
    let read = |lba| Request::Read { lun: 0, lba, n: 2 };
    assert_eq!(rt; link.submit(read(7)), Submitted::Taken);
    go_on(&mut link, 4, &mut ended)?;
    assert_eq!(rt; ended.as_slice(), [(1, 0), (2, 8192)].as_slice());
    assert!(rt; link.tags_used() < 32 && link.count() < 1_000_000);
    assert_eq!(rt; link.submit(read(19)), Submitted::Range);
    assert!(rt; link.tags_used() < 32 && link.count() < 1_000_000);
    assert_eq!(rt; link.submit(read(0)), Submitted::Taken);
    link.hold(true);
    let mut cut = Vec::new(rt.alloc());
    link.reset(&mut cut);
    assert_eq!(rt; cut.len(), 1);
    assert_eq!(rt; cut.first().map(|ticket| ticket.number), Some(4));
    assert_eq!(rt; (link.tags_used(), link.count()), (0, 4));
    let counts = link.counts();
    assert_eq!(rt; (counts.steps, counts.lookups, counts.entries), (38, 2, 0));
    Ok(())
}
