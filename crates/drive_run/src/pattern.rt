//! The bytes of a write.
ghost use Rattle.std.specs.Prelude.{◌≡◌, ◌≤◌, ◌+◌, ◌*◌, ◌++◌, ℕ, length, map, vec_capacity, IfOk};
ghost use Rattle.std.specs.List.{range_with_len};
ghost use Rattle.flat_unit.specs.Sizes.{Sizes};
ghost use Rattle.drive_rules.specs.Lines.{pattern, pattern_bytes};

use flat_unit::Bytes;
use std::alloc::{AllocError, Global};

/// The bytes of a block.
const BLOCK_BYTES: usize = 4096;

/// The blocks of a write from an LBA on, with the bytes that the seed makes.
pub(crate) fn pattern(alloc: Global, lba: u32, n: u32, seed: u32) -> Result<Bytes, AllocError>
    ensures bytes { IfOk result (λ bytes. (s : Sizes) → s.block ≡ 4096 → bytes ≡ pattern_bytes s seed lba n) }
    ensures length { IfOk result (λ bytes. length bytes ≡ 4096 * n) }
{
    let mut bytes = Vec::with_capacity(alloc, n as usize * BLOCK_BYTES)?;
    for block in 0..n {
        push_block(lba as u64 + block as u64, seed, &mut bytes);
    }
    Ok(Bytes::new(bytes))
}

/// Adds the bytes of a block: byte j is `31 * seed + 7 * lba + j`, modulo 256.
fn push_block(lba: u64, seed: u32, bytes: &mut Vec<u8>)
    requires lba { lba ≤ 8589934590 }
    requires room { length bytes.old.items + 4096 ≤ vec_capacity bytes.old }
    ensures bytes { bytes.new.items ≡ bytes.old.items ++ map (pattern seed lba) (range_with_len 0 4096) }
    ensures capacity { vec_capacity bytes.new ≡ vec_capacity bytes.old }
{
    let first = 31 * seed as u64 + 7 * lba;
    for place in 0..BLOCK_BYTES as u64 {
        bytes.push_reserved(((first + place) % 256) as u8);
    }
}
