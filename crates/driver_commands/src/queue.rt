//! The open commands, in order of submission.
ghost use Rattle.std.specs.Prelude.{◌≡◌, ◌<◌, ◌≤◌, [], length, vec_capacity};
ghost use Rattle.driver_laws.specs.Commands.{free_tag, has, is_waiting, owes_data, uses};
ghost use Rattle.driver_caches.specs.Machine.{loads};
ghost use Rattle.driver_commands.specs.Places.{IsFirst};
ghost use Rattle.driver_commands.specs.State.{HasListRoom, caller_tags};

use crate::open::OpenCommand;
use arrayvec::ArrayVec;

/// The commands that are open at most.
pub const TAGS: usize = 32;

/// The place of the first command with a tag.
pub fn first_with_tag(commands: &[OpenCommand], tag: u8) -> Option<usize>
    ensures { IsFirst (has tag) commands.now result }
{
    for place in 0..commands.len() {
        if commands[place].tag() == tag {
            return Some(place);
        }
    }
    None
}

/// The place of the first command that owes the device data: it was asked for more than was sent. It goes through the
/// open commands once.
pub fn first_owing(commands: &[OpenCommand]) -> Option<usize>
    ensures { IsFirst owes_data commands.now result }
{
    for place in 0..commands.len() {
        if commands[place].owes_data() {
            return Some(place);
        }
    }
    None
}

/// The place of the first command whose COMMAND hasn't gone out. It goes through the open commands once.
pub fn first_waiting(commands: &[OpenCommand]) -> Option<usize>
    ensures { IsFirst is_waiting commands.now result }
{
    for place in 0..commands.len() {
        if !commands[place].is_out() {
            return Some(place);
        }
    }
    None
}

/// Whether a command has the tag.
fn uses(commands: &[OpenCommand], tag: u8) -> bool
    ensures { result ≡ uses commands.now tag }
{
    first_with_tag(commands, tag).is_some()
}

/// The lowest tag that is free.
pub fn free_tag(commands: &[OpenCommand]) -> Option<u8>
    ensures { result ≡ free_tag commands.now }
{
    for tag in 0..TAGS as u8 {
        if !uses(commands, tag) {
            return Some(tag);
        }
    }
    None
}

/// Whether one of them lists the entries of a subregion. It goes through the open commands once.
pub fn loads(commands: &[OpenCommand]) -> bool
    ensures { result ≡ loads commands.now }
{
    commands.iter().any(|command| command.is_load())
}

/// Drops all commands, with their data. The memory of a READ BUFFER's list goes to `list`. It goes through the open
/// commands once.
pub fn drop_commands(commands: &mut Vec<OpenCommand>, list: &mut Vec<u8>)
    requires { HasListRoom commands.old.items (vec_capacity list.old) }
    ensures none { commands.new.items ≡ [] }
    ensures list { 523904 ≤ vec_capacity list.new }
    ensures room { vec_capacity commands.new ≡ vec_capacity commands.old }
{
    while let Some(command) = commands.pop() {
        if command.is_load() {
            *list = command.into_list();
        }
    }
}

/// The tags of the commands that callers asked for, in order of submission. It goes through the open commands once.
pub fn caller_tags(commands: &[OpenCommand]) -> ArrayVec<u8, TAGS>
    requires { length commands.now ≤ TAGS }
    ensures { result.items ≡ caller_tags commands.now }
{
    let mut tags = ArrayVec::new();
    for place in 0..commands.len() {
        if commands[place].is_caller() {
            tags.push(commands[place].tag());
        }
    }
    tags
}
