//! Files and a sink in memory that never fail.

ghost use Rattle.std.specs.Prelude.{◌≡◌, ◌≢◌, ◌↔◌, ◌-◌, ◌^◌, ◌<◌, ◌++◌, [], Some, true, length, is_ok, if◌then◌else◌, OnOk, OnErr};
ghost use Rattle.fsmv_outside.specs.Reading.{AppendsFile};
ghost use Rattle.fsmv_outside.specs.Writing.{WritesPrefix};
ghost use Rattle.fsmv_outside.specs.Memory.{content_or_empty, listed};

use crate::files::{Files, FilesFault};
use crate::listing::{append_file, find_file_or_empty};
use crate::sink::{Sink, SinkFault};
use std::alloc::Global;
use std::marker::Model;

/// Files in memory that never fail. An unknown name reads as an empty file.
#[derive(Debug, Drop)]
pub struct SteadyFiles {
    files: Vec<(String, Vec<u8>)>,
}

impl Model for SteadyFiles {
    ghost use Rattle.std.specs.Prelude.{List};
    ghost use Rattle.fsmv_outside.specs.Memory.{Entry, listed};

    ghost Value = { List Entry };

    ghost view = { λ files. listed files.files.items };
}

impl SteadyFiles {
    /// Files by their names, the first of several with one name.
    pub fn new(files: Vec<(String, Vec<u8>)>) -> SteadyFiles
        ensures { result ≡ listed files.items }
    {
        SteadyFiles { files }
    }
}

impl Files for SteadyFiles {
    ghost held = { λ files name. Some (content_or_empty files name) };

    ghost faults = { λ _. 0 };

    ghost may_read = { λ _ _. true };

    fn read_all(
        &mut self,
        _alloc: Global,
        name: &str,
        most: u64,
        into: &mut Vec<u8>,
    ) -> Result<(), FilesFault>
        ensures unchanged { self.new ≡ self.old }
        ensures never_failed { result ≢ Err FilesFault.Failed }
        ensures too_long { (result ≡ Err FilesFault.TooLong) ↔
            (most < length (content_or_empty self.old name.now)) }
        ensures ok { OnOk result
            (AppendsFile (Some (content_or_empty self.old name.now)) most into.old.items
            into.new.items) }
        ensures refused { OnErr result (into.new.items ≡ into.old.items) }
        ensures short { length (content_or_empty self.old name.now) < 2 ^ 63 }
    {
        append_file(find_file_or_empty(&self.files, name), most, into)
    }
}

/// A sink in memory that never fails.
#[derive(Debug, Drop)]
pub struct SteadySink {
    content: Vec<u8>,
}

impl Model for SteadySink {
    ghost use Rattle.std.specs.Prelude.{ℕ, List};

    ghost Value = { List ℕ };

    ghost view = { λ sink. sink.content.items };
}

impl SteadySink {
    /// An empty sink.
    pub fn new(alloc: Global) -> SteadySink
        ensures { result ≡ [] }
    {
        SteadySink {
            content: Vec::new(alloc),
        }
    }

    /// The bytes that were written so far.
    pub fn written(&self) -> &[u8]
        ensures { result.now ≡ self.now }
    {
        self.content.as_slice()
    }
}

impl Sink for SteadySink {
    ghost content = { λ sink. Some sink };

    ghost faults = { λ _. 0 };

    fn put(&mut self, piece: &[u8]) -> Result<(), SinkFault>
        ensures never_failed { result ≢ Err SinkFault.Failed }
        ensures content { self.new ≡ (if is_ok result then self.old ++ piece.now else self.old) }
        ensures refused { OnErr result (WritesPrefix (Some self.old) (Some self.new) piece.now) }
    {
        self.content.extend_from_slice(piece)?;
        Ok(())
    }
}
