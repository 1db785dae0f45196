/// Why a request isn't taken.
#[derive(Clone, Copy, Debug, PartialEq, Eq)]
pub enum SubmitFault {
    /// 32 commands are open.
    Full,
    /// Its logical unit or its blocks aren't there, or it is of more than 255 blocks.
    Range,
    /// There isn't enough memory.
    Memory,
}
