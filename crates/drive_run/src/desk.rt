//! What a drive writes with.
ghost use Rattle.std.specs.Prelude.{◌≡◌, [], IfOk};

use hpb_link::Ticket;
use hpb_outside::NoMemory;
use run_output::Output;
use std::alloc::Global;
use upiu_wire::UpiuBuf;

/// The requests that a reset cuts at most.
const TICKETS: usize = 32;

/// What the calls of a drive write with. It takes all its memory when it is made.
#[derive(Drop)]
pub(crate) struct Desk {
    /// The UPIU that was sent last.
    pub upiu: UpiuBuf,
    /// What the device answers at once.
    pub reply: UpiuBuf,
    /// The text that is gathered.
    pub output: Output,
    /// The requests that a reset has cut.
    pub cut: Vec<Ticket>,
}

impl Desk {
    /// An empty desk.
    pub(crate) fn new(alloc: Global) -> Result<Desk, NoMemory>
        ensures { IfOk result (λ desk. desk.output ≡ []) }
    {
        let output = Output::new(alloc)?;
        let cut = Vec::with_capacity(alloc, TICKETS)?;
        Ok(Desk {
            upiu: UpiuBuf::new(),
            reply: UpiuBuf::new(),
            output,
            cut,
        })
    }
}
