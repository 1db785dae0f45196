ghost use Rattle.std.specs.Prelude.{◌≡◌, ◌^◌, ◌<◌, length, None, Some, IfOk, IfErr, OnErr};
ghost use Rattle.hpb_outside.specs.Faults.{raised, HasCause};
ghost use Rattle.flash_pages.specs.Unit.{next_seq};
ghost use Rattle.collector_laws.specs.CollectStep.{IsCollectable, copy_or_read, fresh};
ghost use Rattle.flash_store.specs.Index.{IsIndexed, buffered_in};
ghost use Rattle.flash_store.specs.Collecting.{as_collected, call_of, lookups_after};

use crate::answers::Moved;
use crate::tables::{Held, Index, erase_victim, hold_shown, program_block};
use flash_pages::{ChipOp, Flash};

/// Copies the buffer's block, where its page is still current. Else it reads the victim's next current page into the
/// buffer, and where there is none it erases the victim. It makes one call of the chip.
pub fn collect_from<F: Flash>(
    flash: &mut F,
    index: &mut Index,
    held: &mut Option<Held>,
    buffer: &mut Vec<u8>,
    victim: u32,
) -> Result<Moved, ChipOp>
    requires indexed { IsIndexed (F.geometry flash.old) (F.pages flash.old) index.old }
    requires collectable { IsCollectable (F.geometry flash.old) index.old.luns index.old.units
        (record { chip = F.pages flash.old; victim = Some victim; buffer = buffered_in held.old buffer.old.items }) }
    requires victim { index.old.collector.victim ≡ Some victim }
    requires limit { next_seq (F.pages flash.old) < 2 ^ 62 }
    requires size { length buffer.old.items ≡ 4096 }
    ensures ok { IfOk result (λ moved.
        copy_or_read (F.geometry flash.old) (F.pages flash.old) victim
        (fresh (F.pages flash.old) (buffered_in held.old buffer.old.items))
        ≡ record {
          did = as_collected moved;
          state = record {
            chip = F.pages flash.new;
            victim = index.new.collector.victim;
            buffer = buffered_in held.new buffer.new.items;
          };
        }) }
    ensures err { OnErr result ((F.pages flash.new ≡ F.pages flash.old) × (index.new ≡ index.old)
        × (held.new ≡ held.old) × (buffer.new.items ≡ buffer.old.items)) }
    ensures named { IfErr result (λ op. op
        ≡ call_of (copy_or_read (F.geometry flash.old) (F.pages flash.old) victim
        (fresh (F.pages flash.old) (buffered_in held.old buffer.old.items))).did) }
    ensures lookups { index.new.map.lookups ≡ lookups_after result index.old.map.lookups }
    ensures indexed { IsIndexed (F.geometry flash.new) (F.pages flash.new) index.new }
    ensures units { (index.new.luns ≡ index.old.luns) × (index.new.units ≡ index.old.units) }
    ensures size { length buffer.new.items ≡ 4096 }
    ensures geometry { F.geometry flash.new ≡ F.geometry flash.old }
    ensures calls { F.calls flash.new ≡ raised (F.calls flash.old) }
    ensures cause { HasCause (F.faults flash.old) (F.faults flash.new) result }
{
    if let Some(page) = *held {
        if index.validity.is_valid(page.page) {
            if program_block(flash, index, page.lun, page.lba, buffer).is_err() {
                return Err(ChipOp::Program);
            }
            *held = None;
            return Ok(Moved::Page(page.lun, page.lba));
        }
    }
    match index.collector.next_copy(&index.validity) {
        Some(page) => {
            if flash.read(page).is_err() {
                return Err(ChipOp::Read);
            }
            *held = Some(hold_shown(flash, page, buffer));
            Ok(Moved::Read)
        }
        None => {
            if erase_victim(flash, index, victim).is_err() {
                return Err(ChipOp::Erase);
            }
            *held = None;
            Ok(Moved::Erased(victim))
        }
    }
}
