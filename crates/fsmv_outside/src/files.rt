//! Whole files, read at once.

ghost use Rattle.std.specs.Prelude.{◌≡◌, ℕ, ◌-◌, ◌^◌, ◌<◌, ◌≤◌, Bool, List, Option, length, IsTrue, IfSome, IsErr, OnOk, OnErr};
ghost use Rattle.fsmv_outside.specs.Count.{Rose};
ghost use Rattle.fsmv_outside.specs.Reading.{AppendsFile};
ghost use Rattle.fsmv_outside.specs.declared.files.FilesFault.TheVariants.{NoMemory};

use std::alloc::{AllocError, Global};
use thiserror::Error;

/// The reason for which a file was not read.
#[derive(Clone, Copy, Debug, PartialEq, Eq, Error)]
pub enum FilesFault {
    /// The file is missing, or a read of it failed.
    #[error("the file cannot be read")]
    Failed,
    /// The file is longer than the reader allows.
    #[error("the file is too long")]
    TooLong,
    /// Memory ran out.
    #[error("out of memory")]
    NoMemory,
}

impl From<AllocError> for FilesFault {
    ghost from_gives = { λ _ fault. fault ≡ NoMemory };

    fn from(_: AllocError) -> FilesFault {
        FilesFault::NoMemory
    }
}

/// A source of files.
pub trait Files {
    // The content of a file, where the object gives it.
    ghost held: { Self → List ℕ → Option (List ℕ) };

    // The number of faults so far, which saturates at the end of `u64`.
    ghost faults: { Self → ℕ };

    // The names that may be read. It exists in contracts alone: a caller may read only the files
    // that it was given.
    ghost may_read: { Self → List ℕ → Bool };

    /// Appends the whole file to `into`, if it has at most `most` bytes.
    ///
    /// `Failed` comes only where the count of faults rose in this call; a missing file is `Failed`.
    /// `TooLong` comes only where the file has more than `most` bytes, and no file has more than
    /// 2^63 - 1. After any error `into` is unchanged.
    fn read_all(
        &mut self,
        alloc: Global,
        name: &str,
        most: u64,
        into: &mut Vec<u8>,
    ) -> Result<(), FilesFault>
        requires allowed { IsTrue (may_read self.old name.now) }

        ensures held_stays { held self.new ≡ held self.old }
        ensures may_read_stays { may_read self.new ≡ may_read self.old }
        ensures faults_never_fall { faults self.old ≤ faults self.new }

        ensures ok { OnOk result (AppendsFile (held self.old name.now) most into.old.items
            into.new.items) }
        ensures refused { OnErr result (into.new.items ≡ into.old.items) }

        ensures failed { result ≡ Err FilesFault.Failed → Rose (faults self.old) (faults self.new) }
        ensures too_long { result ≡ Err FilesFault.TooLong →
            IfSome (held self.old name.now) (λ content. most < length content) }
        ensures never_too_long { result ≡ Err FilesFault.TooLong → most < 2 ^ 63 - 1 }
        ensures longer { IfSome (held self.old name.now)
            (λ content. most < length content → IsErr result) }
        ensures short { IfSome (held self.old name.now) (λ content. length content < 2 ^ 63) };
}
