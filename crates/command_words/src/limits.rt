//! The limits of the numbers that the words name, and which of them the words don't keep.
ghost use Rattle.std.specs.Prelude.{◌≡◌, ◌-◌, ◌*◌, ◌↔◌, All, IfOk, IsTrue, List, MatchOption, map, string_bytes, ℕ};
ghost use Rattle.command_words.specs.Limits.{AppliesTo, IsBetween, IsBroken, IsKept, IsNamed, named_numbers};
ghost use Rattle.command_words.specs.Words.{RunsDevice, named_chip};

use crate::words::{WordsFault, numbers_of};
use hpb_outside::NoMemory;
use std::alloc::Global;
use std::fmt;

/// The numbers that the words of a command that runs a device name, with the defaults.
#[derive(Clone, Copy, Debug, PartialEq, Eq)]
pub struct NamedNumbers {
    /// The erase blocks of the chip.
    pub blocks: u32,
    /// The pages of an erase block.
    pub pages: u32,
    /// The blocks of the logical unit.
    pub units: u64,
    /// A region has 512 bytes times 2 to this power.
    pub region: u32,
    /// A subregion has 512 bytes times 2 to this power.
    pub sub: u32,
    /// How many regions the host may hold.
    pub held: u32,
}

/// A limit of these numbers.
#[derive(Clone, Copy, Debug, PartialEq, Eq)]
pub enum Limit {
    /// 4 to 4096 erase blocks.
    Blocks,
    /// 2 to 256 pages of an erase block.
    Pages,
    /// At most 65,536 pages in all, where each of these two is within its limits.
    AllPages,
    /// A block of the unit, and at most one for each page but those of three erase blocks, where the chip is within
    /// its limits.
    Units,
    /// 3 to 19 for a region.
    Region,
    /// 3 to 19 for a subregion.
    Sub,
    /// At most that of a region for a subregion, where each of these two is within its limits.
    SubInRegion,
    /// 1 to 32 regions held.
    Held,
}

impl Limit {
    /// All limits.
    pub const ALL: [Limit; 8] = [
        Limit::Blocks,
        Limit::Pages,
        Limit::AllPages,
        Limit::Units,
        Limit::Region,
        Limit::Sub,
        Limit::SubInRegion,
        Limit::Held,
    ];

    /// Whether the numbers keep this limit.
    fn is_kept(self, numbers: &NamedNumbers) -> bool
        ensures { IsTrue result ↔ IsKept self numbers.now }
    {
        match self {
            Limit::Blocks => is_between(4, 4096, u64::from(numbers.blocks)),
            Limit::Pages => is_between(2, 256, u64::from(numbers.pages)),
            Limit::AllPages => u64::from(numbers.blocks) * u64::from(numbers.pages) <= 65_536,
            Limit::Units => is_between(1, room(numbers.blocks, numbers.pages), numbers.units),
            Limit::Region => is_between(3, 19, u64::from(numbers.region)),
            Limit::Sub => is_between(3, 19, u64::from(numbers.sub)),
            Limit::SubInRegion => numbers.sub <= numbers.region,
            Limit::Held => is_between(1, 32, u64::from(numbers.held)),
        }
    }

    /// Whether the numbers that this limit stands on are within theirs.
    fn applies_to(self, numbers: &NamedNumbers) -> bool
        ensures { IsTrue result ↔ AppliesTo self numbers.now }
    {
        match self {
            Limit::AllPages => Limit::Blocks.is_kept(numbers) && Limit::Pages.is_kept(numbers),
            Limit::Units => {
                Limit::Blocks.is_kept(numbers)
                    && Limit::Pages.is_kept(numbers)
                    && Limit::AllPages.is_kept(numbers)
            }
            Limit::SubInRegion => Limit::Region.is_kept(numbers) && Limit::Sub.is_kept(numbers),
            Limit::Blocks | Limit::Pages | Limit::Region | Limit::Sub | Limit::Held => true,
        }
    }
}

/// Whether a number is from the least to the most.
fn is_between(least: u64, most: u64, number: u64) -> bool
    ensures { IsTrue result ↔ IsBetween least most number }
{
    least <= number && number <= most
}

/// The pages of a chip without three erase blocks.
pub(crate) fn room(blocks: u32, pages: u32) -> u64
    ensures { result ≡ (blocks - 3) * pages }
{
    u64::from(blocks.saturating_sub(3)) * u64::from(pages)
}

/// A limit that the numbers don't keep. It is shown as one line for the one who wrote the words.
#[derive(Clone, Copy, Debug, PartialEq, Eq)]
pub struct GeometryFault {
    pub limit: Limit,
    pub numbers: NamedNumbers,
}

impl fmt::Display for GeometryFault {
    fn fmt<W: fmt::Write>(&self, f: &mut fmt::Formatter<W>) -> fmt::Result {
        let NamedNumbers {
            blocks,
            pages,
            units,
            region,
            sub,
            held,
        } = self.numbers;
        match self.limit {
            Limit::Blocks => write!(f, "--blocks {blocks}: a number from 4 to 4096"),
            Limit::Pages => write!(f, "--pages {pages}: a number from 2 to 256"),
            Limit::AllPages => {
                write!(
                    f,
                    "--blocks {blocks} --pages {pages}: at most 65536 pages in all"
                )
            }
            Limit::Units => {
                let most = room(blocks, pages);
                write!(
                    f,
                    "--units {units}: a number from 1 to {most}, which is (blocks - 3) * pages"
                )
            }
            Limit::Region => write!(f, "--region {region}: a number from 3 to 19"),
            Limit::Sub => write!(f, "--sub {sub}: a number from 3 to 19"),
            Limit::SubInRegion => {
                write!(
                    f,
                    "--region {region} --sub {sub}: a subregion is at most its region"
                )
            }
            Limit::Held => write!(f, "--held {held}: a number from 1 to 32"),
        }
    }
}

/// The fault of the words at this limit. There is none where the words run no device, or the numbers keep the limit, or
/// a limit that it stands on isn't kept. It fails where there isn't enough memory to read the words.
pub fn geometry_fault(
    alloc: Global,
    words: &[String],
    limit: Limit,
) -> Result<Option<GeometryFault>, NoMemory>
    ensures { IfOk result (λ fault. MatchOption fault (¬ IsBroken (map string_bytes words.now) limit)
        (λ fault. IsBroken (map string_bytes words.now) limit
        × (fault ≡ record { limit = limit; numbers = named_numbers (map string_bytes words.now) }))) }
{
    let numbers = match numbers_of(alloc, words) {
        Ok(numbers) => numbers,
        Err(WordsFault::Usage) => return Ok(None),
        Err(WordsFault::Memory) => return Err(NoMemory),
    };
    if limit.applies_to(&numbers) && !limit.is_kept(&numbers) {
        Ok(Some(GeometryFault { limit, numbers }))
    } else {
        Ok(None)
    }
}

/// Words that run a device have no fault exactly where what they name is served. This function does nothing: its
/// contract is the law.
pub fn each_refusal_is_told()
    ensures { (words : List (List ℕ)) → RunsDevice words
        → (All (λ limit. ¬ IsBroken words limit) Limit.ALL ↔ IsNamed words (named_chip words)) }
{}
