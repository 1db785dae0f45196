//! Requests that are open, and how they end.
ghost use Rattle.std.specs.Prelude.{◌≡◌};
ghost use Rattle.std.specs.List.{find};
ghost use Rattle.hpb_link.specs.State.{IsPlaceOf, ended_done, tickets_done};
ghost use Rattle.std.specs.Prelude.{Some};

use driver_laws::{Answer, Done};

/// A request that is open.
#[derive(Clone, Copy, Debug, PartialEq, Eq)]
pub struct Ticket {
    /// Its number, from 1 on.
    pub number: u32,
    /// The tag of its command.
    pub tag: u8,
    /// Its first block.
    pub lba: u32,
}

/// How a request ended that was open.
#[derive(Drop)]
pub struct Ended {
    pub ticket: Ticket,
    pub answer: Answer,
}

/// The place of the first ticket of a tag.
fn place_of(tickets: &[Ticket], tag: u8) -> Option<usize>
    ensures { IsPlaceOf tag tickets.now result }
{
    for place in 0..tickets.len() {
        if tickets[place].tag == tag {
            return Some(place);
        }
    }
    None
}

/// Takes the ticket of a request that ended, and answers how it ended.
pub(crate) fn take_ticket(tickets: &mut Vec<Ticket>, done: Done) -> Option<Ended>
    ensures tickets { tickets.new.items ≡ tickets_done (Some done) tickets.old.items }
    ensures ended { result ≡ ended_done (Some done) tickets.old.items }
{
    let place = place_of(tickets, done.tag)?;
    Some(Ended {
        ticket: tickets.remove(place),
        answer: done.answer,
    })
}
