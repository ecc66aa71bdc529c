//! Files of the machine.

ghost use Rattle.std.specs.Prelude.{◌≡◌, ◌≢◌, ◌↔◌, ℕ, ◌-◌, ◌^◌, ◌<◌, ◌≤◌, None, true, length, take, vec_len, is_ok, if◌then◌else◌, IfOk, IfSome, OnOk, OnErr};
ghost use Rattle.std.specs.IoError.{error_kind};
ghost use Rattle.std.specs.Io.{ReadsAtMost, StartsWith};
ghost use Rattle.std.specs.Io.KnownBytes.{Consumes, IsAtEnd};
ghost use Rattle.fsmv_outside.specs.Count.{counted, Rose};
ghost use Rattle.fsmv_outside.specs.Reading.{AppendsFile};

use crate::count::count_one;
use crate::files::{Files, FilesFault};
use std::alloc::Global;
use std::io::{ErrorKind, Read};
use std::marker::Model;
use std::rt::Files as MachineFiles;
use std::{fs, io};

/// The files of the machine that runs the program. Their content is given to no contract.
#[derive(Drop)]
pub struct DiskFiles<'a, R> {
    rt: &'a R,
    faults: u64,
}

impl<'a, R> Model for DiskFiles<'a, R> {
    ghost use Rattle.std.specs.Prelude.{ℕ};

    ghost Value = { ℕ };

    ghost view = { λ files. files.faults };
}

impl<'a, R> DiskFiles<'a, R> {
    /// The files that the runtime reaches, before any fault.
    pub fn new(rt: &'a R) -> DiskFiles<'a, R>
        ensures { result ≡ 0 }
    {
        DiskFiles { rt, faults: 0 }
    }
}

impl<R: MachineFiles> Files for DiskFiles<'_, R> {
    ghost held = { λ _ _. None };

    ghost faults = { λ faults. faults };

    ghost may_read = { λ _ _. true };

    fn read_all(
        &mut self,
        _alloc: Global,
        name: &str,
        most: u64,
        into: &mut Vec<u8>,
    ) -> Result<(), FilesFault>
        ensures counts { self.new ≡ (if is_ok result then self.old else counted self.old) }
        ensures faults_never_fall { self.old ≤ self.new }
        ensures failed { result ≡ Err FilesFault.Failed → Rose self.old self.new }

        ensures ok { OnOk result (AppendsFile None most into.old.items into.new.items) }
        ensures refused { OnErr result (into.new.items ≡ into.old.items) }
        ensures never_too_long { result ≡ Err FilesFault.TooLong → most < 2 ^ 63 - 1 }
    {
        let start = into.len();
        let outcome = read_file(self.rt, name, most, into);
        if outcome.is_err() {
            self.faults = count_one(self.faults);
            into.truncate(start);
        }
        outcome
    }
}

fn read_file<R: MachineFiles>(
    rt: &R,
    name: &str,
    most: u64,
    into: &mut Vec<u8>,
) -> Result<(), FilesFault>
    ensures kept { StartsWith into.new.items into.old.items }
    ensures ok { OnOk result (AppendsFile None most into.old.items into.new.items) }
    ensures never_too_long { result ≡ Err FilesFault.TooLong → most < 2 ^ 63 - 1 }
{
    match fs::open(rt, name) {
        Ok(mut file) => read_to_end(&mut file, most, into),
        Err(error) => Err(fault_of(&error)),
    }
}

/// The number of bytes that one read requests.
const PIECE: usize = 4096;

/// Appends the rest of the file. After an error some of it may have been appended.
pub(crate) fn read_to_end<F: Read>(
    file: &mut F,
    most: u64,
    into: &mut Vec<u8>,
) -> Result<(), FilesFault>
    ensures kept { StartsWith into.new.items into.old.items }
    ensures ok { OnOk result
        (AppendsFile (F.remaining file.old) most into.old.items into.new.items) }
    ensures too_long { result ≡ Err FilesFault.TooLong →
        IfSome (F.remaining file.old) (λ content. most < length content) }
    ensures never_too_long { result ≡ Err FilesFault.TooLong → most < 2 ^ 63 - 1 }
{
    let start = into.len();
    let mut piece = [0; PIECE];
    loop {
        let count = read_piece(file, &mut piece)?;
        if count == 0 {
            return Ok(());
        }
        into.extend_from_slice(&piece[..count])?;
        if (into.len() - start) as u64 > most {
            return Err(FilesFault::TooLong);
        }
    }
}

/// One read, repeated where a signal interrupts it.
fn read_piece<F: Read>(file: &mut F, piece: &mut [u8]) -> Result<usize, FilesFault>
    ensures bound { ReadsAtMost result piece.new }
    ensures ok { IfOk result (λ count.
        Consumes (F.remaining file.old) (F.remaining file.new) (take count piece.new)) }
    ensures end { IfOk result (λ count.
        count ≡ 0 → 0 < length piece.old → IsAtEnd (F.remaining file.new)) }
    ensures never_too_long { result ≢ Err FilesFault.TooLong }
{
    for _ in 0..u64::MAX {
        match file.read(piece) {
            Ok(count) => return Ok(count),
            Err(error) if error.kind() == ErrorKind::Interrupted => {}
            Err(error) => return Err(fault_of(&error)),
        }
    }
    Err(FilesFault::Failed)
}

/// `NoMemory` where memory ran out, else a failed read.
fn fault_of(error: &io::Error) -> FilesFault
    ensures no_memory { (result ≡ FilesFault.NoMemory)
        ↔ (error_kind error.now ≡ ErrorKind.OutOfMemory) }
    ensures never_too_long { result ≢ FilesFault.TooLong }
{
    if error.kind() == ErrorKind::OutOfMemory {
        FilesFault::NoMemory
    } else {
        FilesFault::Failed
    }
}
