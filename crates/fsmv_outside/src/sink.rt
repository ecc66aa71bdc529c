//! A sink of text.

ghost use Rattle.std.specs.Prelude.{◌≡◌, ℕ, ◌≤◌, List, Option, OnOk, OnErr, is_some};
ghost use Rattle.fsmv_outside.specs.Count.{Rose};
ghost use Rattle.fsmv_outside.specs.Writing.{with_piece, WritesPrefix};
ghost use Rattle.fsmv_outside.specs.declared.sink.SinkFault.TheVariants.{NoMemory};

use std::alloc::AllocError;
use thiserror::Error;

/// The reason for which a write failed.
#[derive(Clone, Copy, Debug, PartialEq, Eq, Error)]
pub enum SinkFault {
    /// A write failed.
    #[error("the text cannot be written")]
    Failed,
    /// Memory ran out.
    #[error("out of memory")]
    NoMemory,
}

impl From<AllocError> for SinkFault {
    ghost from_gives = { λ _ fault. fault ≡ NoMemory };

    fn from(_: AllocError) -> SinkFault {
        SinkFault::NoMemory
    }
}

/// A destination of text.
pub trait Sink {
    // The bytes that were written so far, where the object gives them.
    ghost content: { Self → Option (List ℕ) };

    // The number of faults so far, which saturates at the end of `u64`.
    ghost faults: { Self → ℕ };

    /// Appends the bytes to those written so far.
    ///
    /// `Failed` comes only where the count of faults rose in this call. After any error a prefix of
    /// the bytes may have been written.
    fn put(&mut self, piece: &[u8]) -> Result<(), SinkFault>
        ensures given_stays { is_some (content self.new) ≡ is_some (content self.old) }
        ensures faults_never_fall { faults self.old ≤ faults self.new }

        ensures ok { OnOk result (content self.new ≡ with_piece (content self.old) piece.now) }
        ensures refused { OnErr result
            (WritesPrefix (content self.old) (content self.new) piece.now) }

        ensures failed { result ≡ Err SinkFault.Failed → Rose (faults self.old) (faults self.new) };
}
