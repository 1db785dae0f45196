//! What holds of the collector's steps.
#![tactic(auto)]

ghost use Rattle.std.specs.Prelude.{◌≡◌, ◌≢◌, ◌⊎◌, ◌+◌, ◌-◌, ◌*◌, ◌^◌, ◌<◌, ◌≤◌, ℕ, List, None, length, map, slice_set};
ghost use Rattle.flash_pages.specs.declared.chip.Geometry.{Geometry};
ghost use Rattle.flash_pages.specs.Chip.{Page, erase_block, erased_chip, erased_count, IsWithinLimits};
ghost use Rattle.flash_pages.specs.Place.{Place, IsPlace, index_of};
ghost use Rattle.flash_pages.specs.Unit.{next_seq, unit_of};
ghost use Rattle.flash_pages.specs.Sound.{ChipOk, is_current, current_count};
ghost use Rattle.collector_laws.specs.Changes.{Changes, uncollected, until_room, AreCollected};
ghost use Rattle.collector_laws.specs.CollectStep.{CollectState, Idle, IsCollectable, collect_step, collected};
ghost use Rattle.collector_laws.specs.CollectStep.{chip_frontier, programmed, written_counts};
ghost use Rattle.page_validity.specs.ValidPages.{valid_count};
ghost use Rattle.block_collector.specs.Room.{erased_pages, frontier, one_more_written};

/// The last of 2 P B P steps in a row is idle.
pub fn collection_ends()
    ensures { (geometry : Geometry) (luns units : ℕ) (s : CollectState) → IsCollectable geometry luns units s →
        (n : ℕ) → n + 1 ≡ 2 * geometry.pages * (geometry.blocks * geometry.pages) →
        (collect_step geometry (collected geometry n s)).did ≡ Idle }
{}

/// A step leaves the chip sound, its victim and buffer in order, and the unit as it is.
pub fn collection_keeps()
    ensures state { (geometry : Geometry) (luns units : ℕ) (s : CollectState) → IsCollectable geometry luns units s →
        IsCollectable geometry luns units (collect_step geometry s).state }
    ensures unit { (geometry : Geometry) (luns units : ℕ) (s : CollectState) → IsCollectable geometry luns units s →
        unit_of luns units (collect_step geometry s).state.chip ≡ unit_of luns units s.chip }
{}

/// What a step does to the chip. Fewer steps are left after one that is not idle; and where none is left, each full
/// block holds current pages alone, or no sequence number is left.
pub fn collection_goes_on()
    ensures changes { (geometry : Geometry) (luns units : ℕ) (s : CollectState) → IsCollectable geometry luns units s →
        Changes geometry luns units s.chip (collect_step geometry s).did (collect_step geometry s).state.chip }
    ensures fewer { (geometry : Geometry) (luns units : ℕ) (s : CollectState) → IsCollectable geometry luns units s →
        (collect_step geometry s).did ≢ Idle →
        uncollected geometry (collect_step geometry s).state < uncollected geometry s }
    ensures most { (geometry : Geometry) (luns units : ℕ) (s : CollectState) → IsCollectable geometry luns units s →
        uncollected geometry s ≤ 2 * geometry.pages * (geometry.blocks * geometry.pages) }
    ensures none { (geometry : Geometry) (luns units : ℕ) (s : CollectState) → IsCollectable geometry luns units s →
        uncollected geometry s ≡ 0 → (next_seq s.chip ≡ 2 ^ 62) ⊎ AreCollected geometry s.chip }
{}

/// Where at most an erase block's worth of pages is erased, fewer steps are left until more are, after each that is not
/// idle.
pub fn room_comes()
    ensures sooner { (geometry : Geometry) (luns units : ℕ) (s : CollectState) → IsCollectable geometry luns units s →
        erased_count s.chip ≤ geometry.pages → (collect_step geometry s).did ≢ Idle →
        until_room geometry (collect_step geometry s).state < until_room geometry s }
    ensures most { (geometry : Geometry) (luns units : ℕ) (s : CollectState) → IsCollectable geometry luns units s →
        until_room geometry s ≤ 2 * geometry.pages - 1 }
{}

/// A block that is programmed where more than a block's worth of pages is erased changes the unit there alone.
pub fn program_keeps()
    ensures state { (geometry : Geometry) (luns units : ℕ) (s : CollectState) → IsCollectable geometry luns units s →
        (site : Place) (bytes : List ℕ) → IsPlace luns units site → next_seq s.chip < 2 ^ 62 →
        geometry.pages + 1 ≤ erased_count s.chip →
        IsCollectable geometry luns units (record s { chip = programmed geometry s.chip site bytes }) }
    ensures unit { (geometry : Geometry) (luns units : ℕ) (s : CollectState) (site : Place) (bytes : List ℕ) →
        IsCollectable geometry luns units s →
        IsPlace luns units site → next_seq s.chip < 2 ^ 62 → geometry.pages + 1 ≤ erased_count s.chip →
        unit_of luns units (programmed geometry s.chip site bytes)
        ≡ slice_set (unit_of luns units s.chip) (index_of units site) bytes }
{}

/// An erased chip, with no victim and no buffer, can be collected.
pub fn erased_chip_is_collectable()
    ensures { (geometry : Geometry) (luns units : ℕ) → IsWithinLimits geometry →
        IsCollectable geometry luns units (record { chip = erased_chip geometry; victim = None; buffer = None }) }
{}

/// The frontier, the valid pages of each block and the count of erased pages, by what a store keeps in memory, are
/// those of the chip.
pub fn room_of_a_chip()
    ensures frontier { (geometry : Geometry) (luns units : ℕ) (chip : List Page) →
        IsWithinLimits geometry → length chip ≡ geometry.blocks * geometry.pages → ChipOk geometry luns units chip →
        frontier geometry.pages (written_counts geometry chip) ≡ chip_frontier geometry chip }
    ensures valid { (geometry : Geometry) (chip : List Page) (block : ℕ) →
        valid_count geometry.pages (map (is_current chip) chip) block ≡ current_count geometry chip block }
    ensures erased { (geometry : Geometry) (chip : List Page) →
        IsWithinLimits geometry → length chip ≡ geometry.blocks * geometry.pages →
        erased_pages geometry.pages (written_counts geometry chip) ≡ erased_count chip }
    ensures programmed { (geometry : Geometry) (chip : List Page) (site : Place) (bytes : List ℕ) →
        IsWithinLimits geometry → length chip ≡ geometry.blocks * geometry.pages → 0 < erased_count chip →
        written_counts geometry (programmed geometry chip site bytes)
        ≡ one_more_written geometry.pages (written_counts geometry chip) }
    ensures freed { (geometry : Geometry) (chip : List Page) (victim : ℕ) →
        IsWithinLimits geometry → length chip ≡ geometry.blocks * geometry.pages → victim < geometry.blocks →
        written_counts geometry (erase_block chip geometry.pages victim)
        ≡ slice_set (written_counts geometry chip) victim 0 }
{}
