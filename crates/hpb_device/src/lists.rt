// What a device makes of the lists of entries that its hosts prefetched. The rules are this project's own.
ghost use Rattle.std.specs.Prelude.{◌≡◌, ◌≤◌, ◌*◌, ℕ, List, length};
ghost use Rattle.hpb_cdb.specs.declared.limits.Limits.{Limits};
ghost use Rattle.hpb_device.specs.Advance.{WhereOver};
ghost use Rattle.hpb_device.specs.Lists.{lists_ended, lists_stepped, lists_unread};
ghost use Rattle.hpb_device.specs.Task.{IsQueue, IsTaskOk, bytes_taken, next_entry};

use crate::advance::Progress;
use crate::queue::head_of;
use crate::reply::Reply;
use crate::task::{BLOCK, Task};
use entry_lists::EntryLists;
use hpb_cdb::Cdb;

/// The entry of the next block of a command.
pub fn next_entry(lists: &EntryLists, task: Task) -> Option<u64>
    requires { (luns : ℕ) × (lim : Limits) × IsTaskOk luns lim task × (length lists.now ≡ 127 * luns) }
    ensures { result ≡ next_entry lists.now task }
{
    match task.command {
        Cdb::HpbRead { lba, entry, id, .. } => {
            lists.entry(task.lun, id, lba, entry, task.sent / BLOCK)
        }
        _ => None,
    }
}

/// Takes in that a command was answered for which these data came. A list that came is kept where the answer is GOOD,
/// in place of an older one of its read id, and that of an HPB READ is used up.
fn end_list(lists: &mut EntryLists, task: Task, good: bool, held: &[u8])
    requires task { (luns : ℕ) × (lim : Limits) × IsTaskOk luns lim task × (length lists.old ≡ 127 * luns) }
    requires few { length held.now ≤ bytes_taken task.command }
    ensures lists { lists.new ≡ lists_ended lists.old task.lun task.command good held.now }
    ensures count { length lists.new ≡ length lists.old }
{
    match task.command {
        Cdb::Prefetch { lba, id, .. } => {
            if good {
                lists.keep(task.lun, id, lba, held);
            }
        }
        Cdb::HpbRead { id, .. } => lists.remove(task.lun, id),
        _ => {}
    }
}

/// Takes in what a step came to.
pub fn step_list(lists: &mut EntryLists, task: Task, progress: Progress, held: &[u8])
    requires task { (luns : ℕ) × (lim : Limits) × IsTaskOk luns lim task × (length lists.old ≡ 127 * luns) }
    requires few { WhereOver progress (length held.now ≤ bytes_taken task.command) }
    ensures lists { lists.new ≡ lists_stepped lists.old task held.now progress }
    ensures count { length lists.new ≡ length lists.old }
{
    match progress {
        Progress::Ended(Reply::Good { .. }) => end_list(lists, task, true, held),
        Progress::Ended(_) | Progress::Failed(..) => end_list(lists, task, false, held),
        _ => {}
    }
}

/// Takes in that the head, if there is one, was answered that the chip could not be read.
pub fn unread_list(lists: &mut EntryLists, tasks: &[Task])
    requires { (luns : ℕ) × (lim : Limits) × (held : List ℕ) × IsQueue luns lim held tasks.now
        × (length lists.old ≡ 127 * luns) }
    ensures lists { lists.new ≡ lists_unread lists.old tasks.now }
    ensures count { length lists.new ≡ length lists.old }
{
    if let Some(task) = head_of(tasks) {
        end_list(lists, task, false, &[]);
    }
}
