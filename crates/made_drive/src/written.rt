//! Bytes that only clauses read.
ghost use Rattle.std.specs.Prelude.{◌≡◌, ℕ, List, [], ◌++◌};
ghost use Rattle.std.specs.Borrow.{ftrue};

use std::marker::{Model, PhantomData};

/// The bytes that were written, as clauses see them. No byte is kept, and its methods do nothing when they run.
#[derive(Drop)]
pub(crate) struct Written {
    marker: PhantomData<u8>,
    pub ghost bytes: { List ℕ },
}

impl Model for Written {
    ghost also_owns = { λ _. ftrue };
}

impl Written {
    /// No bytes.
    pub(crate) fn new() -> Written
        ensures { result.bytes ≡ [] }
    {
        Written {
            marker: PhantomData,
        }
    }

    /// More bytes were written.
    pub(crate) fn note(&mut self, _bytes: &[u8])
        ensures { self.new.bytes ≡ self.old.bytes ++ _bytes.now }
    {}
}
