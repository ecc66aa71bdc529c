//! The checker of a log.
ghost use Rattle.std.specs.Prelude.{◌≡◌, ◌↔◌, None, [], length, IfOk, OnErr};
ghost use Rattle.sat_lits.specs.Steps.{LinesFollow};
ghost use Rattle.proof_check.specs.Marks.{HasRoom};

use crate::lines::{DerivedLine, LogLine, StepAnswer, StepRule};
use crate::live::LiveLines;
use crate::marks::Marks;
use crate::steps::is_rup_step;
use fsmv_base::NoMemory;
use sat_lits::Clause;
use std::alloc::Global;
use std::marker::Model;

/// Judges a log of clauses line by line against its axioms. A line costs the length of the clauses
/// that its hints name, however long the log is.
///
/// Contracts see the axioms, the derived lines with `None` for one that was retired, the number of the
/// log line to come, and the rule that it broke.
#[derive(Drop)]
pub struct Checker {
    alloc: Global,
    axioms: Vec<Clause>,
    lines: LiveLines,
    marks: Marks,
    line: u64,
    broken: Option<StepRule>,
}

impl Model for Checker {
    ghost use Rattle.std.specs.Prelude.{length};
    ghost use Rattle.proof_check.specs.Judged.{Judged};

    ghost Value = { Judged };

    ghost use Rattle.proof_check.specs.CheckerState.{KeepsTogether};

    ghost view = { λ c. record
        { axioms = c.axioms.items; lines = c.lines; line = c.line; broken = c.broken } };

    ghost invariant = { λ c. KeepsTogether c.axioms.items c.lines (length c.marks) };
}

impl Checker {
    ghost use Rattle.proof_check.specs.Judged.{Answers, Finds, KeepsRules, StaysRedundant};

    /// A checker of a log over these axioms, which have numbers from 1. The first line of the log
    /// has the number `first`. More axioms than a `u32` can number count as memory that is not there.
    pub fn new(alloc: Global, axioms: &[Clause], first: u64) -> Result<Checker, NoMemory>
        ensures { IfOk result (λ checker. checker
            ≡ record { axioms = axioms.now; lines = []; line = first; broken = None }) }
    {
        if axioms.len() > u32::MAX as usize {
            return Err(NoMemory);
        }
        let mut marks = Marks::new(alloc);
        let axioms = copies(alloc, axioms, &mut marks)?;
        Ok(Checker {
            alloc,
            axioms,
            lines: LiveLines::new(alloc),
            marks,
            line: first,
            broken: None,
        })
    }

    /// Judges the next line of the log. The answer is `Ok` exactly where this line and all before it
    /// keep their rules. Otherwise it names the first line that broke one and the first rule that it
    /// broke, now and for each later line. After `NoMemory` the checker is unchanged.
    pub fn step(&mut self, line: &LogLine) -> Result<StepAnswer, NoMemory>
        ensures answer { IfOk result (Answers self.old line.now self.new) }
        ensures exact { IfOk result
            (λ answer. (answer ≡ StepAnswer.Ok)
            ↔ ((self.old.broken ≡ None) × KeepsRules self.old line.now)) }
        ensures follow { LinesFollow self.new.axioms self.new.lines }

        // Whatever was derived stays redundant: no clause is derived twice, retired ones counted.
        ensures once { IfOk result (λ _. StaysRedundant self.old.lines self.new.lines) }
        ensures err { OnErr result (self.new ≡ self.old) }
    {
        if let Some(rule) = self.broken {
            return Ok(StepAnswer::Bad {
                line: self.line,
                rule,
            });
        }
        let broken = match line {
            LogLine::Derived(derived) => self.derive(derived)?,
            LogLine::Retired(number) => self.retire(*number),
        };
        self.broken = broken;
        match broken {
            Some(rule) => Ok(StepAnswer::Bad {
                line: self.line,
                rule,
            }),
            None => {
                self.line = self.line.saturating_add(1);
                Ok(StepAnswer::Ok)
            }
        }
    }

    /// The first rule that the derived line breaks. Where it keeps all, it is added.
    fn derive(&mut self, line: &DerivedLine) -> Result<Option<StepRule>, NoMemory>
        ensures found { IfOk result (Finds self.old (LogLine.Derived line.now) self.new) }
        ensures err { OnErr result (self.new ≡ self.old) }
    {
        if line.number as usize != self.lines.len() + 1 {
            return Ok(Some(StepRule::Number));
        }
        let lits = line.clause.lits();
        if self.lines.is_redundant(lits) {
            return Ok(Some(StepRule::Repeat));
        }
        self.marks.widen(lits)?;
        if !is_rup_step(
            &self.axioms,
            self.lines.as_slice(),
            &mut self.marks,
            lits,
            line.hints.as_slice(),
        ) {
            return Ok(Some(StepRule::Step));
        }
        self.lines.push(self.alloc, &line.clause)?;
        Ok(None)
    }

    /// The rule that retiring this line breaks. Where it keeps it, the line is retired.
    fn retire(&mut self, number: u32) -> Option<StepRule>
        ensures { Finds self.old (LogLine.Retired number) self.new result }
    {
        if self.lines.retire(number) {
            None
        } else {
            Some(StepRule::Retire)
        }
    }
}

/// Copies of the clauses, and room for their literals.
fn copies(alloc: Global, clauses: &[Clause], marks: &mut Marks) -> Result<Vec<Clause>, NoMemory>
    ensures same { IfOk result (λ copies. copies.items ≡ clauses.now) }
    ensures room { IfOk result (λ copies. HasRoom clauses.now [] (length marks.new)) }
{
    let mut copies = Vec::with_capacity(alloc, clauses.len())?;
    for clause in clauses {
        marks.widen(clause.lits())?;
        copies.push(clause.try_clone(alloc)?)?;
    }
    Ok(copies)
}
