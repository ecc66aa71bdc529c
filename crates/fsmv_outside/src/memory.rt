//! Files and a sink in memory that fail at planned calls.

ghost use Rattle.std.specs.Prelude.{◌≡◌, ◌↔◌, ◌⊎◌, ◌-◌, ◌^◌, ◌<◌, ◌≤◌, ◌++◌, [], Some, None, true, length, is_ok, if◌then◌else◌, IfSome, IsErr, OnOk, OnErr};
ghost use Rattle.fsmv_outside.specs.Reading.{AppendsFile};
ghost use Rattle.fsmv_outside.specs.Writing.{WritesPrefix};
ghost use Rattle.fsmv_outside.specs.Plan.{fresh_plan, after_call, IsToFail};
ghost use Rattle.fsmv_outside.specs.Memory.{content_of, listed, read_failed, put_failed};

use crate::files::{Files, FilesFault};
use crate::listing::{append_file, find_file};
use crate::plan::FaultPlan;
use crate::sink::{Sink, SinkFault};
use std::alloc::Global;
use std::marker::Model;

/// Files in memory. The listed calls of `read_all` fail, and so does an unknown name.
#[derive(Debug, Drop)]
pub struct MemoryFiles {
    files: Vec<(String, Vec<u8>)>,
    plan: FaultPlan,
}

impl Model for MemoryFiles {
    ghost use Rattle.fsmv_outside.specs.Memory.{PlannedFiles, listed};

    ghost Value = { PlannedFiles };

    ghost view = { λ files. record { entries = listed files.files.items; plan = files.plan } };
}

impl MemoryFiles {
    /// Files by their names, the first of several with one name, and the numbers of the calls that
    /// are to fail, counted from 1.
    pub fn new(files: Vec<(String, Vec<u8>)>, failing: Vec<u32>) -> MemoryFiles
        ensures { result ≡ record {
          entries = listed files.items;
          plan = fresh_plan
              failing.items;
        } }
    {
        MemoryFiles {
            files,
            plan: FaultPlan::new(failing),
        }
    }
}

impl Files for MemoryFiles {
    ghost held = { λ files name. content_of files.entries name };

    ghost faults = { λ files. files.plan.faults };

    ghost may_read = { λ _ _. true };

    fn read_all(
        &mut self,
        _alloc: Global,
        name: &str,
        most: u64,
        into: &mut Vec<u8>,
    ) -> Result<(), FilesFault>
        ensures fails { (result ≡ Err FilesFault.Failed) ↔
            (IsToFail self.old.plan ⊎ (content_of self.old.entries name.now ≡ None)) }
        ensures counts { self.new ≡ record self.old
            { plan = after_call self.old.plan (read_failed result) } }
        ensures faults_never_fall { self.old.plan.faults ≤ self.new.plan.faults }

        ensures ok { OnOk result
            (AppendsFile (content_of self.old.entries name.now) most into.old.items
            into.new.items) }
        ensures refused { OnErr result (into.new.items ≡ into.old.items) }

        ensures too_long { result ≡ Err FilesFault.TooLong →
            IfSome (content_of self.old.entries name.now) (λ content. most < length content) }
        ensures never_too_long { result ≡ Err FilesFault.TooLong → most < 2 ^ 63 - 1 }
        ensures longer { IfSome (content_of self.old.entries name.now)
            (λ content. most < length content → IsErr result) }
        ensures short { IfSome (content_of self.old.entries name.now)
            (λ content. length content < 2 ^ 63) }
    {
        let fails = self.plan.count_call();
        match find_file(&self.files, name) {
            Some(content) if !fails => append_file(content, most, into),
            _ => {
                self.plan.count_fault();
                Err(FilesFault::Failed)
            }
        }
    }
}

/// A sink in memory. The listed calls of `put` fail, and write nothing.
#[derive(Debug, Drop)]
pub struct MemorySink {
    content: Vec<u8>,
    plan: FaultPlan,
}

impl Model for MemorySink {
    ghost use Rattle.fsmv_outside.specs.Memory.{PlannedSink};

    ghost Value = { PlannedSink };

    ghost view = { λ sink. record { content = sink.content.items; plan = sink.plan } };
}

impl MemorySink {
    /// An empty sink, and the numbers of the calls that are to fail, counted from 1.
    pub fn new(alloc: Global, failing: Vec<u32>) -> MemorySink
        ensures { result ≡ record { content = []; plan = fresh_plan failing.items } }
    {
        MemorySink {
            content: Vec::new(alloc),
            plan: FaultPlan::new(failing),
        }
    }

    /// The bytes that were written so far.
    pub fn written(&self) -> &[u8]
        ensures { result.now ≡ self.now.content }
    {
        self.content.as_slice()
    }
}

impl Sink for MemorySink {
    ghost content = { λ sink. Some sink.content };

    ghost faults = { λ sink. sink.plan.faults };

    fn put(&mut self, piece: &[u8]) -> Result<(), SinkFault>
        ensures fails { (result ≡ Err SinkFault.Failed) ↔ IsToFail self.old.plan }
        ensures counts { self.new ≡ record self.old {
          content = (if is_ok result then self.old.content ++ piece.now else self.old.content);
          plan = after_call self.old.plan (put_failed result);
        } }
        ensures faults_never_fall { self.old.plan.faults ≤ self.new.plan.faults }
        ensures refused { OnErr result
            (WritesPrefix (Some self.old.content) (Some self.new.content) piece.now) }
    {
        if self.plan.count_call() {
            self.plan.count_fault();
            return Err(SinkFault::Failed);
        }
        self.content.extend_from_slice(piece)?;
        Ok(())
    }
}
