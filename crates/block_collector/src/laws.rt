//! What holds of the room of a chip.
ghost use Rattle.std.specs.Prelude.{◌≡◌, ◌⊎◌, ◌+◌, ◌-◌, ◌*◌, ◌<◌, ◌≤◌, ℕ, List, Bool, Some, count_by, length};
ghost use Rattle.flash_pages.specs.declared.chip.Geometry.{Geometry};
ghost use Rattle.page_validity.specs.ValidPages.{valid_count};
ghost use Rattle.block_collector.specs.Room.{IsRoom, IsFull, IsVictim, HasOnePartly, erased_pages};

/// Where three blocks' worth of pages is not valid and at most one block's worth is erased, some block is worth
/// collecting.
pub fn room_law()
    ensures { (geometry : Geometry) (written : List ℕ) (valid : List Bool) →
        IsRoom geometry written → HasOnePartly geometry.pages written →
        length valid ≡ geometry.blocks * geometry.pages →
        count_by (λ flag. flag) valid ≤ (geometry.blocks - 3) * geometry.pages →
        erased_pages geometry.pages written ≤ geometry.pages →
        (block : ℕ) × IsFull geometry.pages written block × (valid_count geometry.pages valid block < geometry.pages) }
{}

/// The victim's valid pages fit into the erased ones with a page to spare.
pub fn victim_law()
    ensures { (pages : ℕ) (written : List ℕ) (valid : ℕ → ℕ) (victim : ℕ) → IsVictim pages written valid victim →
        (pages ≤ erased_pages pages written)
        ⊎ ((block : ℕ) × IsFull pages written block × (valid block < erased_pages pages written)) →
        valid victim + 1 ≤ erased_pages pages written }
{}
