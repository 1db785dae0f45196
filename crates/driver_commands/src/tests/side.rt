//! A driver's side of a unit: the open commands, the cache, and memory for a list of entries.
ghost use Rattle.std.specs.Prelude.{◌≡◌, ◌≤◌, [], IsTrue, length, vec_capacity};
ghost use Rattle.hpb_cdb.specs.Cdb.{HasRoom};
ghost use Rattle.host_map_cache.specs.Cache.{sub_length};
ghost use Rattle.host_map_cache.specs.Shapes.{is_present};
ghost use Rattle.region_state.specs.Shape.{IsWithinLimits};
ghost use Rattle.driver_commands.specs.Open.{IsOwnLoad, gets, gives};
ghost use Rattle.driver_commands.specs.State.{IsReady, IsWholeLoad};

use crate::*;
use arrayvec::ArrayVec;
use driver_laws::{Done, DriverFault};
use flat_unit::Bytes;
use host_map_cache::Cache;
use hpb_cdb::Cdb;
use region_state::Shape;
use std::alloc::{AllocError, Global};
use std::marker::Model;
use std::process::Abort;
use std::test::Fail;
use upiu_wire::UpiuBuf;

/// The most bytes that the entries of a subregion have.
const LIST_BYTES: usize = 523_904;

/// The open commands of a unit, its cache, and memory for a list of entries.
#[derive(Drop)]
pub struct Side {
    alloc: Global,
    shape: Shape,
    commands: Vec<OpenCommand>,
    caches: Vec<Cache>,
    list: Vec<u8>,
}

impl Model for Side {
    ghost use Rattle.std.specs.Prelude.{◌≤◌, vec_capacity};
    ghost use Rattle.region_state.specs.declared.shape.Shape.{Shape};
    ghost use Rattle.driver_commands.specs.State.{IsReady};

    ghost Value = { Shape };

    ghost view = { λ s. s.shape };

    ghost invariant = { λ s. IsReady s.shape s.commands.items s.caches.items (vec_capacity s.list)
        × (32 ≤ vec_capacity s.commands) };
}

impl Side {
    pub fn new(alloc: Global, shape: Shape) -> Result<Side, Fail> {
        let cache = Cache::new(alloc, shape)?;
        let mut caches = Vec::with_capacity(alloc, 1)?;
        caches.push_reserved(cache);
        Ok(Side {
            alloc,
            shape,
            commands: Vec::with_capacity(alloc, TAGS)?,
            caches,
            list: Vec::with_capacity(alloc, LIST_BYTES)?,
        })
    }

    /// Opens a command that stands as `open_command` asks.
    fn open(
        &mut self,
        rt: &impl Abort,
        command: Cdb,
        bytes: Vec<u8>,
        got: Vec<u8>,
        caller: bool,
    ) -> u8
        requires whole { IsWholeLoad self.old command }
        requires room { gets command ≤ vec_capacity got }
        requires empty { got.items ≡ [] }
        requires gives { length bytes.items ≡ gives command }
        requires fits { HasRoom command }
        requires load { IsOwnLoad command caller (vec_capacity got) }
    {
        assert!(rt; self.commands.len() < TAGS);
        let bytes = Bytes::new(bytes);
        open_command(&mut self.commands, 0, command, bytes, got, caller)
    }

    /// A caller reads blocks from 0 on.
    pub fn read(&mut self, rt: &impl Abort, n: u16) -> Result<u8, AllocError> {
        let alloc = self.alloc;
        let got = Vec::with_capacity(alloc, 4096 * n as usize)?;
        Ok(self.open(rt, Cdb::Read { lba: 0, n }, Vec::new(alloc), got, true))
    }

    /// A caller writes blocks from 0 on.
    pub fn write(&mut self, rt: &impl Abort, n: u16) -> Result<u8, AllocError> {
        let alloc = self.alloc;
        let mut bytes = Vec::new(alloc);
        for _ in 0..n {
            bytes.extend_from_slice(&[0xA5; 4096])?;
        }
        assert!(rt; bytes.len() == 4096 * n as usize);
        Ok(self.open(rt, Cdb::Write { lba: 0, n }, bytes, Vec::new(alloc), true))
    }

    /// The driver reads the entries of a subregion, which has to lie in the unit.
    pub fn load(&mut self, rt: &impl Abort, region: u16, sub: u16) -> Result<u8, AllocError> {
        let alloc = self.alloc;
        let got = Vec::with_capacity(alloc, LIST_BYTES)?;
        let blocks = present_blocks(rt, self.shape, region, sub);
        let len = 8 * blocks;
        assert!(rt; len as usize <= LIST_BYTES);
        let command = Cdb::ReadBuffer { region, sub, len };
        Ok(self.open(rt, command, Vec::new(alloc), got, false))
    }

    pub fn send(&mut self, out: &mut UpiuBuf) -> bool {
        send_next(&mut self.commands, limits_of(self.shape), out)
    }

    pub fn deliver(&mut self, bytes: &[u8]) -> Result<Option<Done>, DriverFault> {
        deliver_to(
            &mut self.commands,
            &mut self.caches,
            &mut self.list,
            self.shape,
            bytes,
        )
    }

    pub fn drop(&mut self) {
        drop_commands(&mut self.commands, &mut self.list);
    }

    /// The first subregion that the cache wants.
    pub fn first_want(&self, rt: &impl Abort) -> Option<(u16, u16)> {
        assert!(rt; 0 < self.caches.len());
        self.caches[0].first_want()
    }

    /// The entry of a block.
    pub fn entry(&self, rt: &impl Abort, lba: u32) -> Option<u64> {
        assert!(rt; 0 < self.caches.len() && lba < self.shape.units);
        self.caches[0].entry(lba)
    }

    /// The places of the first command that waits and of the first that owes data, and whether one lists entries.
    pub fn listed(&self) -> (Option<usize>, Option<usize>, bool) {
        (
            first_waiting(&self.commands),
            first_owing(&self.commands),
            loads(&self.commands),
        )
    }

    /// The tags of what callers asked for.
    pub fn callers(&self, rt: &impl Abort) -> ArrayVec<u8, TAGS> {
        assert!(rt; self.commands.len() <= TAGS);
        caller_tags(&self.commands)
    }
}

/// The blocks of a subregion, which has to lie in the unit.
fn present_blocks(rt: &impl Abort, shape: Shape, region: u16, sub: u16) -> u32
    requires { IsWithinLimits shape }
    ensures present { IsTrue (is_present shape region sub) }
    ensures blocks { result ≡ sub_length shape region sub }
    ensures few { result ≤ 65488 }
{
    let region_blocks = 1 << (shape.region_exp - 3);
    let sub_blocks = 1 << (shape.sub_exp - 3);
    let offset = u64::from(sub) * sub_blocks;
    assert!(rt; offset < region_blocks);
    let first = u64::from(region) * region_blocks + offset;
    assert!(rt; first < u64::from(shape.units));
    sub_blocks.min(u64::from(shape.units) - first) as u32
}
