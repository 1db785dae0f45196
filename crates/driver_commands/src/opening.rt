//! The opening of a command, and the list of entries that one may give the device.
ghost use Rattle.std.specs.Prelude.{◌≡◌, ◌≤◌, ◌<◌, ◌+◌, ◌*◌, [], IfOk, length, vec_capacity};
ghost use Rattle.hpb_cdb.specs.Cdb.{HasRoom};
ghost use Rattle.driver_laws.specs.Commands.{opened};
ghost use Rattle.driver_laws.specs.Drive.{last_tag};
ghost use Rattle.driver_laws.specs.Requests.{list_bytes};
ghost use Rattle.driver_commands.specs.Open.{IsOwnLoad, gets, gives};

use crate::open::OpenCommand;
use crate::queue::free_tag;
use flat_unit::Bytes;
use hpb_cdb::Cdb;
use std::alloc::{AllocError, Global};

/// Opens a command, last in order, with the lowest free tag, and answers the tag. `bytes` are those that it gives the
/// device, and `got` is memory for those that it gets. Nothing is allocated: a place for the command has to be there.
/// It goes through the open commands once for each tag that it tries.
pub fn open_command(
    commands: &mut Vec<OpenCommand>,
    lun: u8,
    command: Cdb,
    bytes: Bytes,
    got: Vec<u8>,
    caller: bool,
) -> u8
    requires few { length commands.old.items < 32 }
    requires capacity { 32 ≤ vec_capacity commands.old }
    requires room { gets command ≤ vec_capacity got }
    requires empty { got.items ≡ [] }
    requires gives { length bytes ≡ gives command }
    requires fits { HasRoom command }
    requires load { IsOwnLoad command caller (vec_capacity got) }
    ensures opened { commands.new.items
        ≡ opened commands.old.items (record { lun = lun; command = command; bytes = bytes; caller = caller }) }
    ensures last { result ≡ last_tag commands.new.items }
    ensures count { length commands.new.items ≡ length commands.old.items + 1 }
    ensures room { vec_capacity commands.new ≡ vec_capacity commands.old }
{
    let tag = free_tag(commands).unwrap();
    commands.push_reserved(OpenCommand::new(tag, lun, command, bytes, got, caller));
    tag
}

/// The bytes of a list of entries, eight for each, the highest first. They are allocated once.
pub fn list_bytes(alloc: Global, entries: &[u64]) -> Result<Vec<u8>, AllocError>
    ensures { IfOk result (λ bytes. bytes.items ≡ list_bytes entries.now) }
{
    let mut bytes = Vec::with_capacity(alloc, 8 * entries.len())?;
    for place in 0..entries.len() {
        bytes.extend_from_slice(&entries[place].to_be_bytes())?;
    }
    Ok(bytes)
}
