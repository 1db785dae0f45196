use flat_unit::Bytes;
use hpb_sense::FixedSense;

/// How a request ended.
#[derive(Drop)]
pub enum Answer {
    /// GOOD, with the bytes that a read asked for; others get none.
    Good(Bytes),
    /// CHECK CONDITION with fixed sense.
    Check(FixedSense),
    /// Another status, or CHECK CONDITION without fixed sense.
    Status(u8),
}

/// The request whose command has this tag ended.
#[derive(Drop)]
pub struct Done {
    pub tag: u8,
    pub answer: Answer,
}
