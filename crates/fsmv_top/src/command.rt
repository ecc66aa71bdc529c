//! The top call.

ghost use Rattle.std.specs.Prelude.{◌≡◌, ◌≤◌, map, string_bytes, IfOk};
ghost use Rattle.fsmv_top.specs.Input.{MayRead};
ghost use Rattle.fsmv_top.specs.Words.{Weave, weave_words};
ghost use Rattle.fsmv_top.specs.Plan.{IsPlan};
ghost use Rattle.fsmv_top.specs.Answers.{IsAnswer, Wrote};
ghost use Rattle.fsmv_top.specs.Weaving.{NeverBoth, OneText};

use crate::output::put_lines;
use crate::plan::Plan;
use crate::status::Status;
use crate::weave::weave_plan;
use crate::words::weave_words;
use fsmv_outside::{Files, Sink, SinkFault};
use smv_ast::NoMemory;
use std::alloc::Global;

fn planned<F: Files>(alloc: Global, words: &[String], files: &mut F) -> Result<Plan, NoMemory>
    requires { (w : Weave) → map string_bytes words.now ≡ weave_words w
        → MayRead (F.may_read files.old) w }
    ensures held_stays { F.held files.new ≡ F.held files.old }
    ensures may_read_stays { F.may_read files.new ≡ F.may_read files.old }
    ensures faults_never_fall { F.faults files.old ≤ F.faults files.new }
    ensures plan { IfOk result
        (λ plan. IsPlan (map string_bytes words.now) (F.held files.old) (F.faults files.old)
        (F.faults files.new) plan.status (string_bytes plan.text)) }
{
    match weave_words(words) {
        Some(named) => weave_plan(alloc, named, files),
        None => Plan::usage(alloc),
    }
}

/// Runs the command of these words: reads files, writes one text to `out`, and returns the status.
///
/// The one command is `weave MODEL FM [FEATURES..] --product LIST`. It writes the canonical text of the product whose
/// features the list names: the base model with the texts of these features applied, in the order in which they stand in
/// the feature files, the files taken in the order of the words.
///
/// - `Good`: that text was written.
/// - `Refused`: the line `refused NAME FILE OFFSET KEPT` was written. Files are numbered in the
///   order of the words, from 0.
/// - `Usage`: the words have another form, and the usage line was written.
/// - `ReadFault`: the line `fault read FILE` was written, and the files' count of faults rose.
/// - `WriteFault`: a write failed, and the sink's count of faults rose. A prefix of the text was
///   written.
/// - `NoMemory`: nothing or a prefix of the text was written.
pub fn run<F: Files, S: Sink>(alloc: Global, words: &[String], files: &mut F, out: &mut S) -> Status
    requires { (w : Weave) → map string_bytes words.now ≡ weave_words w
        → MayRead (F.may_read files.old) w }

    // with `Good` the canonical text of the integrated product is written, and nothing else
    ensures good { result ≡ Status.Good → Wrote (map string_bytes words.now)
        (record {
          held = F.held files.old;
          faults_before = F.faults files.old;
          faults_after =
              F.faults files.new;
        })
        (record {
          before = S.content out.old;
          after = S.content out.new;
          faults_before = S.faults
              out.old;
          faults_after = S.faults out.new;
        })
        Status.Good }

    // each status has its cause, and its text is written
    ensures answer { IsAnswer (map string_bytes words.now)
        (record {
          held = F.held files.old;
          faults_before = F.faults files.old;
          faults_after =
              F.faults files.new;
        })
        (record {
          before = S.content out.old;
          after = S.content out.new;
          faults_before = S.faults
              out.old;
          faults_after = S.faults out.new;
        })
        result }

    // Files are not both woven and refused, and woven to one text at most.
    ensures never_both { NeverBoth }
    ensures one_text { OneText }

    ensures held_stays { F.held files.new ≡ F.held files.old }
    ensures may_read_stays { F.may_read files.new ≡ F.may_read files.old }
    ensures read_faults_never_fall { F.faults files.old ≤ F.faults files.new }
    ensures write_faults_never_fall { S.faults out.old ≤ S.faults out.new }
{
    let plan = match planned(alloc, words, files) {
        Ok(plan) => plan,
        Err(NoMemory) => return Status::NoMemory,
    };
    match put_lines(out, plan.text.as_bytes()) {
        Ok(()) => plan.status,
        Err(SinkFault::Failed) => Status::WriteFault,
        Err(SinkFault::NoMemory) => Status::NoMemory,
    }
}
