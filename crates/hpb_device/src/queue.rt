// The tasks of a device, in order of acceptance.
ghost use Rattle.std.specs.Prelude.{◌≡◌, ◌<◌, List, [], ◌∷◌, drop, length, vec_capacity};
ghost use Rattle.hpb_device.specs.Task.{head_of};

use crate::task::{TASKS, Task};
use arrayvec::ArrayVec;

/// The first task, if one is kept.
pub fn head_of(tasks: &[Task]) -> Option<Task>
    ensures { result ≡ head_of tasks.now }
{
    tasks.first().copied()
}

/// Puts back the first task, as a call leaves it.
pub fn keep_head(tasks: &mut ArrayVec<Task, TASKS>, task: Task)
    requires { 0 < length tasks.old.items }
    ensures { tasks.new.items ≡ task ∷ drop 1 tasks.old.items }
{
    tasks[0] = task;
}

/// Ends the first task. Nothing has come for the next one.
pub fn end_head(tasks: &mut ArrayVec<Task, TASKS>, held: &mut Vec<u8>)
    requires { 0 < length tasks.old.items }
    ensures tasks { tasks.new.items ≡ drop 1 tasks.old.items }
    ensures held { held.new.items ≡ [] }
    ensures room { vec_capacity held.new ≡ vec_capacity held.old }
{
    tasks.remove(0);
    held.clear();
}
