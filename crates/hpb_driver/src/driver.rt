//! The driver.
ghost use Rattle.std.specs.Prelude.{◌≡◌, ◌≤◌, ◌<◌, ◌↔◌, ◌*◌, IsTrue, IfOk, IfErr, OnErr, true, length};
ghost use Rattle.region_state.specs.Shape.{IsWithinLimits};
ghost use Rattle.driver_laws.specs.Commands.{next_of};
ghost use Rattle.driver_laws.specs.Deliver.{delivered};
ghost use Rattle.driver_laws.specs.Drive.{last_tag};
ghost use Rattle.driver_laws.specs.declared.request.Request.TheVariants.{Read as ReadOf, Write as WriteOf};
ghost use Rattle.driver_caches.specs.Machine.{caches_for, deliver, evicted_from, hold, is_nothing, machine_begun};
ghost use Rattle.driver_caches.specs.Machine.{may_send_own, next_upiu, reset, submit, with_evicted, with_next};
ghost use Rattle.driver_caches.specs.Machine.{with_own};
ghost use Rattle.driver_commands.specs.Calls.{IsAnswered, IsSent};
ghost use Rattle.driver_commands.specs.Open.{sizes_of};
ghost use Rattle.driver_commands.specs.State.{caller_tags};
ghost use Rattle.host_map_cache.specs.Cache.{sub_length};
ghost use Rattle.host_map_cache.specs.Shapes.{is_present};
ghost use Rattle.hpb_driver.specs.State.{CanDrive};

use crate::submit::SubmitFault;
use arrayvec::ArrayVec;
use driver_caches::{lapse_all, mark_read, mark_written, plan_read, take_evicted, take_want};
use driver_commands::{
    OpenCommand, TAGS, caller_tags, deliver_to, drop_commands, first_owing, first_waiting,
    limits_of, list_bytes, loads, open_command, send_next,
};
use driver_laws::{Done, DriverFault, Request};
use flat_unit::Bytes;
use host_map_cache::Cache;
use hpb_cdb::Cdb;
use hpb_outside::NewFault;
use read_planner::Plan;
use region_state::Shape;
use std::alloc::{AllocError, Global};
use std::marker::Model;
use std::mem;
use upiu_wire::UpiuBuf;

/// The bytes of the longest list of entries that a subregion has.
const LIST_BYTES: usize = 523_904;

/// A driver of up to 8 logical units of one shape. It has a cache of the map of each, or no cache where it is plain,
/// and keeps up to 32 commands open.
#[derive(Drop)]
pub struct Driver {
    alloc: Global,
    shape: Shape,
    luns: u8,
    /// The open commands, in order of submission.
    commands: Vec<OpenCommand>,
    /// That of each unit, or none.
    caches: Vec<Cache>,
    /// The read id of the next list.
    next_id: u8,
    held: bool,
    /// Memory for the list of a READ BUFFER, where none is open.
    list: Vec<u8>,
}

impl Model for Driver {
    ghost use Rattle.std.specs.Prelude.{true, vec_capacity};
    ghost use Rattle.driver_caches.specs.Machine.{Machine};
    ghost use Rattle.hpb_driver.specs.State.{IsDriver};

    ghost Value = { Machine };

    ghost view = { λ d. record {
      shape = d.shape;
      luns = d.luns;
      opens = d.commands.items;
      caches = d.caches.items;
      next_id = d.next_id;
      held = d.held;
      on = true;
    } };

    ghost invariant = { λ d. IsDriver (record {
      shape = d.shape;
      luns = d.luns;
      opens = d.commands.items;
      caches = d.caches.items;
      next_id = d.next_id;
      held = d.held;
      on = true;
    }) (vec_capacity d.commands) (vec_capacity d.list) };
}

/// Whether a driver may be made of so many units of a shape.
fn can_drive(shape: Shape, luns: u8) -> bool
    ensures { IsTrue result ↔ CanDrive shape luns }
{
    shape.is_within_limits()
        && 1 <= luns
        && luns <= 8
        && u64::from(luns) * u64::from(shape.units) <= 65_488
}

/// An empty cache for each of so many units.
fn empty_caches(alloc: Global, shape: Shape, count: u8) -> Result<Vec<Cache>, AllocError>
    requires { IsWithinLimits shape }
    ensures { IfOk result (λ caches. caches.items ≡ caches_for count shape) }
{
    let mut caches = Vec::with_capacity(alloc, usize::from(count))?;
    for _unit in 0..count {
        match Cache::new(alloc, shape) {
            Ok(cache) => caches.push_reserved(cache),
            Err(_) => return Err(AllocError),
        }
    }
    Ok(caches)
}

/// Whether no data are owed and no command waits.
fn has_nothing_next(commands: &[OpenCommand]) -> bool
    ensures { result ≡ is_nothing (next_of commands.now) }
{
    if first_owing(commands).is_some() {
        return false;
    }
    first_waiting(commands).is_none()
}

/// The bytes of the list of a subregion, which has to be there: 8 for each of its blocks.
fn load_bytes(shape: Shape, region: u16, sub: u16) -> u32
    requires limits { IsWithinLimits shape }
    requires present { IsTrue (is_present shape region sub) }
    ensures value { result ≡ 8 * sub_length shape region sub }
    ensures few { result ≤ 523904 }
{
    let limits = limits_of(shape);
    let first = u64::from(region) * u64::from(limits.per_region)
        + u64::from(sub) * u64::from(limits.per_sub);
    let blocks = u64::from(limits.per_sub).min(limits.units - first);
    8 * blocks as u32
}

impl Driver {
    ghost use Rattle.std.specs.Prelude.{[], false, fold, ◌%◌, ◌+◌, vec_capacity};
    ghost use Rattle.hpb_cdb.specs.Cdb.{HasRoom};
    ghost use Rattle.driver_laws.specs.Requests.{WithList, read_by};
    ghost use Rattle.driver_caches.specs.Effects.{read_once};
    ghost use Rattle.driver_caches.specs.Machine.{change_cache, is_load, wanted_from, with_picked, loads};
    ghost use Rattle.driver_commands.specs.Open.{gets, gives};
    ghost use Rattle.driver_laws.specs.Commands.{opened};
    ghost use Rattle.driver_caches.specs.Machine.{tell};
    ghost use Rattle.hpb_driver.specs.State.{HasBytes, IsNewFault, IsSubmitFault, IsSubmitted, has_blocks, is_inside};
    ghost use Rattle.hpb_driver.specs.State.{to_send};

    /// A driver of `luns` logical units, each of this shape. A plain one has no caches: it ignores hints, and sends
    /// no entries and no command of its own. All memory is taken here but that of requests: room for 32 open
    /// commands, the caches, and 523,904 bytes for the list of a READ BUFFER.
    ///
    /// It fails with `Geometry` where a number of the shape is outside its limits, where there are no units or more
    /// than 8 of them, or where they have more than 65,488 blocks in all; and with `Memory` where there isn't enough
    /// memory.
    pub fn new(alloc: Global, shape: Shape, plain: bool, luns: u8) -> Result<Driver, NewFault>
        ensures refused { IfErr result (λ fault. IsNewFault fault shape luns) }
        ensures begun { IfOk result (λ driver. driver ≡ machine_begun plain shape luns) }
        ensures can { IfOk result (λ driver. CanDrive shape luns) }
    {
        if !can_drive(shape, luns) {
            return Err(NewFault::Geometry);
        }
        let count = if plain { 0 } else { luns };
        match Driver::with_memory(alloc, shape, luns, count) {
            Ok(driver) => Ok(driver),
            Err(_) => Err(NewFault::Memory),
        }
    }

    /// A driver with so many caches.
    fn with_memory(alloc: Global, shape: Shape, luns: u8, count: u8) -> Result<Driver, AllocError>
        requires can { CanDrive shape luns }
        requires few { count ≤ luns }
        ensures { IfOk result (λ driver. driver ≡ record {
          shape = shape;
          luns = luns;
          opens = [];
          caches = caches_for count shape;
          next_id = 1;
          held = false;
          on = true;
        }) }
    {
        let commands = Vec::with_capacity(alloc, TAGS)?;
        let caches = empty_caches(alloc, shape, count)?;
        let list = Vec::with_capacity(alloc, LIST_BYTES)?;
        Ok(Driver {
            alloc,
            shape,
            luns,
            commands,
            caches,
            next_id: 1,
            held: false,
            list,
        })
    }

    /// Whether so many blocks of a unit are there.
    fn has_blocks(&self, lun: u8, lba: u32, n: u32) -> bool
        ensures { result ≡ has_blocks self.now lun lba n }
    {
        lun < self.luns && n <= 255 && u64::from(lba) + u64::from(n) <= u64::from(self.shape.units)
    }

    /// Whether the blocks of a request are there.
    fn is_inside(&self, request: &Request) -> bool
        ensures { result ≡ is_inside self.now request.now }
    {
        match request {
            Request::Read { lun, lba, n } => self.has_blocks(*lun, *lba, *n),
            Request::Write { lun, lba, n, .. } => self.has_blocks(*lun, *lba, *n),
            _ => true,
        }
    }

    /// Takes a request, and answers the tag of its command, the lowest that is free (JESD220). A read of blocks that
    /// the unit's cache covers goes out with their entries: one of two blocks or more after a command that hands the
    /// device a list, where two tags are free, and else with the entry of its first block. It takes the memory for
    /// all that the answer needs.
    ///
    /// It fails with `Full` where 32 commands are open, else with `Range` where the unit isn't there, where the
    /// request is of more than 255 blocks or where they aren't there, and else with `Memory` where there isn't enough
    /// memory. Then the request comes back, and the driver is as before.
    pub fn submit(&mut self, request: Request) -> Result<u8, (Request, SubmitFault)>
        requires { HasBytes request }
        ensures taken { IfOk result (λ tag. IsSubmitted tag self.old request self.new) }
        ensures fault { IfErr result (λ refused. IsSubmitFault refused.1 self.old request) }
        ensures returned { IfErr result (λ refused. refused.0 ≡ request) }
        ensures unchanged { OnErr result (self.new ≡ self.old) }
    {
        if self.commands.len() == TAGS {
            return Err((request, SubmitFault::Full));
        }
        if !self.is_inside(&request) {
            return Err((request, SubmitFault::Range));
        }
        match request {
            Request::Read { lun, lba, n } => match self.submit_read(lun, lba, n) {
                Ok(tag) => Ok(tag),
                Err(_) => Err((Request::Read { lun, lba, n }, SubmitFault::Memory)),
            },
            Request::Write { lun, lba, n, bytes } => Ok(self.submit_write(lun, lba, n, bytes)),
            Request::Sync => Ok(self.submit_empty(Cdb::Sync { lba: 0, n: 0 })),
            Request::Ready => Ok(self.submit_empty(Cdb::TestReady)),
        }
    }

    /// Takes a read, the way that its unit's cache says.
    fn submit_read(&mut self, lun: u8, lba: u32, n: u32) -> Result<u8, AllocError>
        requires free { length self.old.opens < 32 }
        requires inside { has_blocks self.old lun lba n ≡ true }
        ensures leads { IfOk result (λ tag. self.new ≡ submit (ReadOf lun lba n) self.old) }
        ensures last { IfOk result (λ tag. tag ≡ last_tag self.new.opens) }
        ensures unchanged { OnErr result (self.new ≡ self.old) }
    {
        let pair = self.commands.len() + 2 <= TAGS;
        let plan = plan_read(&self.caches, lun, lba, n, pair, self.next_id);
        let got = Vec::with_capacity(self.alloc, 4096 * n as usize)?;
        match plan {
            Plan::Plain => {
                let command = Cdb::Read { lba, n: n as u16 };
                Ok(self.open_read(lun, lba, n, command, got, true))
            }
            Plan::Single(entry) => {
                let command = Cdb::HpbRead {
                    lba,
                    entry,
                    n: n as u8,
                    id: 0,
                };
                Ok(self.open_read(lun, lba, n, command, got, false))
            }
            Plan::Prefetch(id, entries) => self.open_listed(lun, lba, id, &entries, got),
        }
    }

    /// Opens the command of a read that hands the device no list.
    fn open_read(
        &mut self,
        lun: u8,
        lba: u32,
        n: u32,
        command: Cdb,
        got: Vec<u8>,
        plain: bool,
    ) -> u8
        requires free { length self.old.opens < 32 }
        requires inside { has_blocks self.old lun lba n ≡ true }
        requires room { gets command ≤ vec_capacity got }
        requires empty { got.items ≡ [] }
        requires gives { gives command ≡ 0 }
        requires fits { HasRoom command }
        requires no_load { is_load command ≡ false }
        ensures new { self.new ≡ record self.old {
          opens = opened self.old.opens (record { lun = lun; command = command; bytes = []; caller = true });
          caches = change_cache lun (read_once plain lba n) self.old.caches;
        } }
        ensures last { result ≡ last_tag self.new.opens }
    {
        let bytes = Bytes::new(Vec::new(self.alloc));
        mark_read(&mut self.caches, lun, lba, n, plain);
        open_command(&mut self.commands, lun, command, bytes, got, true)
    }

    /// Opens the commands of a read that hands the device the list of its entries first.
    fn open_listed(
        &mut self,
        lun: u8,
        lba: u32,
        id: u8,
        entries: &[u64],
        got: Vec<u8>,
    ) -> Result<u8, AllocError>
        requires free { length self.old.opens + 2 ≤ 32 }
        requires inside { has_blocks self.old lun lba (length entries.now) ≡ true }
        requires some { 1 ≤ length entries.now }
        requires room { 4096 * length entries.now ≤ vec_capacity got }
        requires empty { got.items ≡ [] }
        ensures new { IfOk result (λ tag. self.new ≡ record self.old {
          opens = fold opened self.old.opens (read_by (WithList id entries.now) lun lba (length entries.now));
          caches = change_cache lun (read_once false lba (length entries.now)) self.old.caches;
          next_id = self.old.next_id % 127 + 1;
        }) }
        ensures last { IfOk result (λ tag. tag ≡ last_tag self.new.opens) }
        ensures unchanged { OnErr result (self.new ≡ self.old) }
    {
        let bytes = list_bytes(self.alloc, entries)?;
        let n = entries.len() as u32;
        mark_read(&mut self.caches, lun, lba, n, false);
        self.next_id = self.next_id % 127 + 1;
        self.open_list(lun, lba, id, n as u16, bytes);
        Ok(self.open_by_list(lun, lba, id, entries[0], n as u8, got))
    }

    /// Opens the command that hands the device a list of entries.
    fn open_list(&mut self, lun: u8, lba: u32, id: u8, n: u16, bytes: Vec<u8>)
        requires free { length self.old.opens < 32 }
        requires few { n ≤ 255 }
        requires bytes { length bytes.items ≡ 8 * n }
        ensures { self.new ≡ record self.old {
          opens = opened self.old.opens (record {
            lun = lun;
            command = Cdb.Prefetch lba id (8 * n);
            bytes = bytes.items;
            caller = false;
          });
        } }
    {
        let command = Cdb::Prefetch {
            lba,
            id,
            len: 8 * n,
        };
        let got = Vec::new(self.alloc);
        open_command(
            &mut self.commands,
            lun,
            command,
            Bytes::new(bytes),
            got,
            false,
        );
    }

    /// Opens the command of a read by a list.
    fn open_by_list(&mut self, lun: u8, lba: u32, id: u8, entry: u64, n: u8, got: Vec<u8>) -> u8
        requires free { length self.old.opens < 32 }
        requires room { 4096 * n ≤ vec_capacity got }
        requires empty { got.items ≡ [] }
        ensures new { self.new ≡ record self.old {
          opens = opened self.old.opens (record {
            lun = lun;
            command = Cdb.HpbRead lba entry n id;
            bytes = [];
            caller = true;
          });
        } }
        ensures last { result ≡ last_tag self.new.opens }
    {
        let command = Cdb::HpbRead { lba, entry, n, id };
        let bytes = Bytes::new(Vec::new(self.alloc));
        open_command(&mut self.commands, lun, command, bytes, got, true)
    }

    /// Takes a write.
    fn submit_write(&mut self, lun: u8, lba: u32, n: u32, bytes: Bytes) -> u8
        requires free { length self.old.opens < 32 }
        requires inside { has_blocks self.old lun lba n ≡ true }
        requires whole { length bytes ≡ 4096 * n }
        ensures leads { self.new ≡ submit (WriteOf lun lba n bytes) self.old }
        ensures last { result ≡ last_tag self.new.opens }
    {
        let command = Cdb::Write { lba, n: n as u16 };
        let got = Vec::new(self.alloc);
        mark_written(&mut self.caches, lun, lba, n);
        open_command(&mut self.commands, lun, command, bytes, got, true)
    }

    /// Takes a request that moves no data, to unit 0.
    fn submit_empty(&mut self, command: Cdb) -> u8
        requires free { length self.old.opens < 32 }
        requires gets { gets command ≡ 0 }
        requires gives { gives command ≡ 0 }
        requires fits { HasRoom command }
        requires no_load { is_load command ≡ false }
        ensures new { self.new ≡ record self.old {
          opens = opened self.old.opens (record { lun = 0; command = command; bytes = []; caller = true });
        } }
        ensures last { result ≡ last_tag self.new.opens }
    {
        let bytes = Bytes::new(Vec::new(self.alloc));
        let got = Vec::new(self.alloc);
        open_command(&mut self.commands, 0, command, bytes, got, true)
    }

    /// Writes the UPIU that is sent next, and answers whether there was one (JESD220): the next piece of data that the
    /// device has asked for, in DATA OUT of a block at most; or else the COMMAND of the first request that hasn't gone
    /// out; or else, where a tag is free and the driver isn't held, a command of its own. That tells the device of a
    /// region that a cache has given up, or, where no READ BUFFER is open, asks for the entries of a subregion that one
    /// wants. It takes no memory.
    pub fn next_upiu(&mut self, out: &mut UpiuBuf) -> bool
        ensures new { self.new ≡ with_next (sizes_of self.old.shape) self.old }
        ensures sent { IsSent (next_upiu (sizes_of self.old.shape) self.old) result out.old out.new }
        ensures fewer { IsTrue result → to_send self.new < to_send self.old }
    {
        self.add_own();
        send_next(&mut self.commands, limits_of(self.shape), out)
    }

    /// Opens a command of the driver's own, where it may send one and there is one.
    fn add_own(&mut self)
        ensures { self.new ≡ with_own self.old }
    {
        if self.may_send_own() {
            self.open_own();
        }
    }

    /// Whether nothing else is to be sent, a tag is free, and the driver isn't held.
    fn may_send_own(&self) -> bool
        ensures value { result ≡ may_send_own self.now }
        ensures free { IsTrue result → length self.now.opens < 32 }
    {
        has_nothing_next(&self.commands) && self.commands.len() < TAGS && !self.held
    }

    /// Opens a command of the driver's own, if there is one.
    fn open_own(&mut self)
        requires { length self.old.opens < 32 }
        ensures { self.new ≡ with_evicted self.old (evicted_from 0 self.old.caches) }
    {
        if let Some((lun, region)) = take_evicted(&mut self.caches) {
            self.open_told(lun, region);
        } else if !loads(&self.commands) {
            self.open_want();
        }
    }

    /// Opens the command that tells the device of a region that was given up.
    fn open_told(&mut self, lun: u8, region: u16)
        requires { length self.old.opens < 32 }
        ensures { self.new ≡ record self.old { opens = opened self.old.opens (tell lun region) } }
    {
        let command = Cdb::InactOne { region };
        let bytes = Bytes::new(Vec::new(self.alloc));
        let got = Vec::new(self.alloc);
        open_command(&mut self.commands, lun, command, bytes, got, false);
    }

    /// Opens a command for the next subregion that is wanted, if there is one.
    fn open_want(&mut self)
        requires free { length self.old.opens < 32 }
        requires no_load { loads self.old.opens ≡ false }
        ensures { self.new ≡ with_picked self.old (wanted_from 0 self.old.caches) }
    {
        if let Some((lun, region, sub)) = take_want(&mut self.caches) {
            self.open_load(lun, region, sub);
        }
    }

    /// Opens the command that asks for the entries of a subregion.
    fn open_load(&mut self, lun: u8, region: u16, sub: u16)
        requires free { length self.old.opens < 32 }
        requires no_load { loads self.old.opens ≡ false }
        requires present { IsTrue (is_present self.old.shape region sub) }
        ensures { self.new ≡ record self.old {
          opens = opened self.old.opens (record {
            lun = lun;
            command = Cdb.ReadBuffer region sub (8 * sub_length self.old.shape region sub);
            bytes = [];
            caller = false;
          });
        } }
    {
        let len = load_bytes(self.shape, region, sub);
        let command = Cdb::ReadBuffer { region, sub, len };
        let bytes = Bytes::new(Vec::new(self.alloc));
        let empty = Vec::new(self.alloc);
        let mut got = mem::replace(&mut self.list, empty);
        got.clear();
        open_command(&mut self.commands, lun, command, bytes, got, false);
    }

    /// Takes the bytes of a UPIU of the device (JESD220), and answers the caller's request that they end, if they end
    /// one: its tag, and the bytes of a read, or why it failed (SAM, SPC). A RESPONSE that is GOOD may bring the caches
    /// entries and a hint. It takes no memory, and a device may send any bytes.
    ///
    /// It fails with `Wire` where they are no UPIU. But for a NOP IN, which changes nothing, it then fails with
    /// `UnknownTag` where no open command has the tag, and with `Phase` where the command with it can't be answered by
    /// this now. After a fault the driver is as before.
    pub fn deliver(&mut self, bytes: &[u8]) -> Result<Option<Done>, DriverFault>
        ensures answer { IsAnswered (delivered (sizes_of self.old.shape) self.old.opens bytes.now) result }
        ensures new { self.new ≡ deliver (sizes_of self.old.shape) bytes.now self.old }
        ensures unchanged { OnErr result (self.new ≡ self.old) }
    {
        deliver_to(
            &mut self.commands,
            &mut self.caches,
            &mut self.list,
            self.shape,
            bytes,
        )
    }

    /// Drops all open commands after a reset of the device, and answers the tags of the callers' requests in order of
    /// submission. The caches keep their entries, but ask for nothing more. It takes no memory.
    pub fn reset(&mut self) -> ArrayVec<u8, TAGS>
        ensures new { self.new ≡ reset self.old }
        ensures tags { result.items ≡ caller_tags self.old.opens }
    {
        let tags = caller_tags(&self.commands);
        drop_commands(&mut self.commands, &mut self.list);
        lapse_all(&mut self.caches);
        tags
    }

    /// Holds back what the driver would send of its own, or lets it go. It changes nothing else.
    pub fn hold(&mut self, on: bool)
        ensures { self.new ≡ hold on self.old }
    {
        self.held = on;
    }

    /// How many tags are in use: those of the open commands.
    pub fn tags_used(&self) -> u32
        ensures { result ≡ length self.now.opens }
    {
        self.commands.len() as u32
    }
}
