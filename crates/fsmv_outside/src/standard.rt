//! Standard output.

ghost use Rattle.std.specs.Prelude.{◌≡◌, ◌↔◌, ℕ, ◌≤◌, ◌<◌, None, take, is_ok, if◌then◌else◌, IfOk, OnOk, OnErr};
ghost use Rattle.std.specs.IoError.{error_kind};
ghost use Rattle.std.specs.Io.{WritesAtMost};
ghost use Rattle.std.specs.Io.KnownBytes.{Appends, Keeps};
ghost use Rattle.fsmv_outside.specs.Count.{counted, Rose};
ghost use Rattle.fsmv_outside.specs.Writing.{with_piece, WritesPrefix};

use crate::count::count_one;
use crate::sink::{Sink, SinkFault};
use std::io;
use std::io::{ErrorKind, Write};
use std::marker::Model;

/// The standard output of the program. Its content is given to no contract.
#[derive(Drop)]
pub struct StandardOut<'a, R> {
    rt: &'a R,
    faults: u64,
}

impl<'a, R> Model for StandardOut<'a, R> {
    ghost use Rattle.std.specs.Prelude.{ℕ};

    ghost Value = { ℕ };

    ghost view = { λ out. out.faults };
}

impl<'a, R> StandardOut<'a, R> {
    /// The standard output that the runtime reaches, before any fault.
    pub fn new(rt: &'a R) -> StandardOut<'a, R>
        ensures { result ≡ 0 }
    {
        StandardOut { rt, faults: 0 }
    }
}

impl<R: Print> Sink for StandardOut<'_, R> {
    ghost content = { λ _. None };

    ghost faults = { λ faults. faults };

    fn put(&mut self, piece: &[u8]) -> Result<(), SinkFault>
        ensures counts { self.new ≡ (if is_ok result then self.old else counted self.old) }
        ensures faults_never_fall { self.old ≤ self.new }
        ensures failed { result ≡ Err SinkFault.Failed → Rose self.old self.new }

        // the content is not given
        ensures ok { OnOk result (None ≡ with_piece None piece.now) }
        ensures refused { OnErr result (WritesPrefix None None piece.now) }
    {
        let outcome = write_whole(&mut io::writer(self.rt), piece);
        if outcome.is_err() {
            self.faults = count_one(self.faults);
        }
        outcome
    }
}

/// Writes all the bytes. A write that takes no byte is a fault. After an error a prefix of them may
/// have been written.
pub(crate) fn write_whole<W: Write>(out: &mut W, piece: &[u8]) -> Result<(), SinkFault>
    ensures ok { OnOk result (Appends (W.contents out.old) (W.contents out.new) piece.now) }
    ensures refused { OnErr result ((count : ℕ) ×
        Appends (W.contents out.old) (W.contents out.new) (take count piece.now)) }
{
    let mut suffix = piece;
    while !suffix.is_empty() {
        let count = write_some(out, suffix)?;
        if count == 0 {
            return Err(SinkFault::Failed);
        }
        suffix = &suffix[count..];
    }
    Ok(())
}

/// One write, repeated where a signal interrupts it.
fn write_some<W: Write>(out: &mut W, piece: &[u8]) -> Result<usize, SinkFault>
    ensures bound { WritesAtMost result piece.now }
    ensures ok { IfOk result (λ count.
        Appends (W.contents out.old) (W.contents out.new) (take count piece.now)) }
    ensures err { OnErr result (Keeps (W.contents out.old) (W.contents out.new)) }
{
    for _ in 0..u64::MAX {
        match out.write(piece) {
            Ok(count) => return Ok(count),
            Err(error) if error.kind() == ErrorKind::Interrupted => {}
            Err(error) => return Err(fault_of(&error)),
        }
    }
    Err(SinkFault::Failed)
}

/// `NoMemory` where memory ran out, else a failed write.
fn fault_of(error: &io::Error) -> SinkFault
    ensures { (result ≡ SinkFault.NoMemory) ↔ (error_kind error.now ≡ ErrorKind.OutOfMemory) }
{
    if error.kind() == ErrorKind::OutOfMemory {
        SinkFault::NoMemory
    } else {
        SinkFault::Failed
    }
}
