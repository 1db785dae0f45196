//! The two ends.
ghost use Rattle.std.specs.Prelude.{◌≡◌, ◌≢◌, ◌≤◌, ◌<◌, ◌+◌, ℕ, IsTrue, IfOk, IfErr, true, [], None, Some, length};
ghost use Rattle.flat_unit.specs.Replays.{events_of};
ghost use Rattle.chip_image.specs.Load.{Loads};
ghost use Rattle.chip_image.specs.Transfer.{RoseOnlyAt};
ghost use Rattle.hpb_device.specs.Begun.{Begins, IsBegun};
ghost use Rattle.hpb_device.specs.Left.{steps_left};
ghost use Rattle.hpb_device.specs.Standing.{group_of, sizes_of};
ghost use Rattle.hpb_device.specs.State.{DeviceState};
ghost use Rattle.driver_laws.specs.Commands.{Nothing, next_of};
ghost use Rattle.driver_laws.specs.declared.request.Request.{Request};
ghost use Rattle.driver_caches.specs.Machine.{next_upiu};
ghost use Rattle.driver_commands.specs.Calls.{IsSent};
ghost use Rattle.driver_commands.specs.Open.{sizes_of as driver_sizes};
ghost use Rattle.drive_rules.specs.Held.{AllOut};
ghost use Rattle.drive_rules.specs.Lines.{Drive, collected_by, held_back, reset_both, sent};
ghost use Rattle.hpb_driver.specs.State.{HasBytes, to_send};
ghost use Rattle.drive_rules.specs.Text.{lba_of};
ghost use Rattle.hpb_link.specs.State.{IsHeard, LinkState};
ghost use Rattle.hpb_link.specs.Stands.{AtDrive, HasCollected, HasDriven, IsSubmittedAt, said_sent};

use crate::ticket::{Ended, Ticket, take_ticket};
use chip_image::ImageFault;
use driver_laws::Request;
use flash_pages::Flash;
use hpb_device::{Counts, Device, Stepped};
use hpb_driver::{Driver, SubmitFault};
use hpb_outside::Source;
use std::alloc::{AllocError, Global};
use std::marker::Model;
use std::mem;
use upiu_wire::UpiuBuf;

/// The requests that are open at most.
const TICKETS: usize = 32;

/// What comes of a request.
#[derive(Clone, Copy, Debug, PartialEq, Eq)]
pub enum Submitted {
    /// It is open.
    Taken,
    /// Its unit or its blocks aren't there.
    Range,
    /// There isn't enough memory.
    Memory,
}

/// A device and its driver.
#[derive(Drop)]
pub struct Link<F: Flash> {
    device: Device<F>,
    driver: Driver,
    /// Those of the requests that are open, in order of submission.
    tickets: Vec<Ticket>,
    /// How many requests there were.
    count: u32,
    /// The unit of the requests that follow.
    lun: u8,
}

impl<F: Flash> Model for Link<F> {
    ghost use Rattle.hpb_link.specs.State.{LinkState};

    ghost Value = { LinkState };

    ghost view = { λ l. record {
      device = l.device;
      driver = l.driver;
      tickets = l.tickets.items;
      count = l.count;
      lun = l.lun;
    } };
}

/// The first block of a request.
fn lba_of(request: &Request) -> u32
    ensures { result ≡ lba_of request.now }
{
    match request {
        Request::Read { lba, .. } => *lba,
        Request::Write { lba, .. } => *lba,
        _ => 0,
    }
}

impl<F: Flash> Link<F> {
    /// A device and its driver, of which neither has anything open. It takes memory for the tickets of 32 requests;
    /// where there is none, the device comes back.
    pub fn new(
        alloc: Global,
        device: Device<F>,
        driver: Driver,
    ) -> Result<Link<F>, (Device<F>, AllocError)>
        ensures begun { IfOk result (λ link. link ≡ record {
          device = device;
          driver = driver;
          tickets = [];
          count = 0;
          lun = 0;
        }) }
        ensures back { IfErr result (λ refused. refused.0 ≡ device) }
    {
        match Vec::with_capacity(alloc, TICKETS) {
            Ok(tickets) => Ok(Link {
                device,
                driver,
                tickets,
                count: 0,
                lun: 0,
            }),
            Err(error) => Err((device, error)),
        }
    }

    /// Reads an image from the source onto the chip of the device, which has to be as it was made.
    pub fn load<S: Source>(&mut self, source: &mut S) -> Result<(), ImageFault>
        requires begins { Begins self.old.device }
        ensures loads { Loads self.old.device.store.geometry self.old.device.store.pages self.new.device.store.pages
            (S.left source.old) (S.left source.new) result }
        ensures begun { IsBegun self.new.device }
        ensures sizes { sizes_of self.new.device ≡ sizes_of self.old.device }
        ensures shape { self.new.device.shape ≡ self.old.device.shape }
        ensures luns { self.new.device.store.luns ≡ self.old.device.store.luns }
        ensures units { self.new.device.store.units ≡ self.old.device.store.units }
        ensures geometry { self.new.device.store.geometry ≡ self.old.device.store.geometry }
        ensures others { self.new ≡ record self.old { device = self.new.device } }
        ensures source_faults { RoseOnlyAt (S.faults source.old) (S.faults source.new) ImageFault.ReadFault result }
        ensures chip_faults { RoseOnlyAt self.old.device.store.faults self.new.device.store.faults
            ImageFault.ChipFault result }
    {
        self.device.load(source)
    }

    /// Asks the driver for the UPIU that it sends next, and hands it to the device. It answers whether there was one,
    /// which then stands in `out`. The device answers none of them at once, so nothing comes in `reply`.
    pub fn send(&mut self, out: &mut UpiuBuf, reply: &mut UpiuBuf) -> bool
        ensures leads { (start : DeviceState) (d : Drive) → AtDrive start self.old d
            → AtDrive start self.new (sent (sizes_of start) d) }
        ensures said { (start : DeviceState) (d : Drive) → AtDrive start self.old d
            → (sent (sizes_of start) d).said ≡ said_sent result out.new d.said }
        ensures sends { IsSent (next_upiu (driver_sizes self.old.driver.shape) self.old.driver) result
            out.old out.new }
        ensures fewer { IsTrue result → to_send self.new.driver < to_send self.old.driver }
        ensures left { (start : DeviceState) (d : Drive) → AtDrive start self.old d → self.old.driver.held ≡ true
            → AllOut self.old.driver.opens → steps_left self.new.device ≤ steps_left self.old.device }
    {
        if !self.driver.next_upiu(out) {
            return false;
        }
        replay_standing::receive(&mut self.device, out.bytes(), reply);
        true
    }

    /// Makes a step of the device, and hands the driver what it sends. It answers what the step did, and how a request
    /// ended, if one did. A UPIU that the device sent stands in `out`.
    pub fn step(&mut self, out: &mut UpiuBuf) -> (Stepped, Option<Ended>)
        ensures leads { (start : DeviceState) (d : Drive) → AtDrive start self.old d
            → HasDriven start self.new d (group_of result.0 out.new) result.1 }
        ensures fewer { (start : DeviceState) (d : Drive) → AtDrive start self.old d
            → next_of self.old.driver.opens ≡ Nothing → self.old.driver.opens ≢ []
            → steps_left self.new.device < steps_left self.old.device }
    {
        let stepped = replay_standing::step(&mut self.device, out);
        if stepped.sent {
            let ended = self.deliver(out.bytes());
            return (stepped, ended);
        }
        (stepped, None)
    }

    /// Hands the driver bytes of the device, and answers how a request ended, if one did.
    fn deliver(&mut self, bytes: &[u8]) -> Option<Ended>
        ensures heard { IsHeard (Some bytes.now) self.old self.new result }
        ensures device { self.new.device ≡ self.old.device }
    {
        match self.driver.deliver(bytes) {
            Ok(Some(done)) => take_ticket(&mut self.tickets, done),
            _ => None,
        }
    }

    /// Takes a request under the next number. It requires that a tag is free.
    pub fn submit(&mut self, request: Request) -> Submitted
        requires bytes { HasBytes request }
        requires free { length self.old.driver.opens < 32 }
        requires few { self.old.count < 1000000 }
        ensures { (start : DeviceState) (d : Drive) → AtDrive start self.old d
            → IsSubmittedAt start self.old self.new request d result }
    {
        if self.tickets.reserve(1).is_err() {
            return Submitted::Memory;
        }
        let lba = lba_of(&request);
        match self.driver.submit(request) {
            Ok(tag) => {
                self.count += 1;
                self.tickets.push_reserved(Ticket {
                    number: self.count,
                    tag,
                    lba,
                });
                Submitted::Taken
            }
            Err((_, SubmitFault::Memory)) => Submitted::Memory,
            Err(_) => {
                self.count += 1;
                Submitted::Range
            }
        }
    }

    /// Makes a call of the collector.
    pub fn collect(&mut self) -> Stepped
        ensures leads { (start : DeviceState) (d : Drive) → AtDrive start self.old d
            → HasCollected start self.new d (events_of (group_of result [])) }
    {
        replay_standing::collect(&mut self.device)
    }

    /// Resets the device, and then the driver. The tickets of the requests that were open go to `cut`, in order of
    /// submission.
    pub fn reset(&mut self, cut: &mut Vec<Ticket>)
        ensures leads { (start : DeviceState) (d : Drive) → AtDrive start self.old d
            → AtDrive start self.new (reset_both d) }
        ensures cut { cut.new.items ≡ self.old.tickets }
    {
        replay_standing::reset(&mut self.device);
        self.driver.reset();
        mem::swap(&mut self.tickets, cut);
        self.tickets.clear();
    }

    /// Holds back what the driver would send of its own, or lets it go.
    pub fn hold(&mut self, on: bool)
        ensures { (start : DeviceState) (d : Drive) → AtDrive start self.old d
            → AtDrive start self.new (held_back on d) }
    {
        self.driver.hold(on);
    }

    /// Chooses the unit of the requests that follow.
    pub fn choose(&mut self, lun: u8)
        ensures { (start : DeviceState) (d : Drive) → AtDrive start self.old d
            → AtDrive start self.new (record d { lun = lun }) }
    {
        self.lun = lun;
    }

    /// The unit of the requests that follow.
    pub fn lun(&self) -> u8
        ensures { result ≡ self.now.lun }
    {
        self.lun
    }

    /// How many requests there were.
    pub fn count(&self) -> u32
        ensures { result ≡ self.now.count }
    {
        self.count
    }

    /// How many commands are open.
    pub fn tags_used(&self) -> u32
        ensures { result ≡ length self.now.driver.opens }
    {
        self.driver.tags_used()
    }

    /// What the device has counted.
    pub fn counts(&self) -> Counts
        ensures { result ≡ self.now.device.counts }
    {
        self.device.counts()
    }

    /// Gives the chip back.
    pub fn into_flash(self) -> F
        ensures pages { F.pages result ≡ self.device.store.pages }
        ensures geometry { F.geometry result ≡ self.device.store.geometry }
        ensures faults { F.faults result ≡ self.device.store.faults }
    {
        self.device.into_flash()
    }
}
