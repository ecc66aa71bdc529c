//! Axioms, and the lines derived from them.
ghost use Rattle.std.specs.Prelude.{◌≡◌, ◌≤◌, ◌++◌, [], length, Some, IfOk, OnOk, OnErr};
ghost use Rattle.std.specs.Option.{option_map};
ghost use Rattle.sat_lits.specs.Steps.{numbered, IsRupStep, HoldsUnit, IsRetirable};
ghost use Rattle.proof_log.specs.Standing.{lesser, IsFirstUnit};

use fsmv_base::{Id, List, NoMemory};
use sat_lits::{Clause, ClauseTable, Lit};
use std::alloc::Global;
use std::marker::Model;

/// A derived line.
#[derive(Debug, Drop)]
pub struct Line {
    pub clause: Clause,
    /// The clauses through which unit propagation derives the line's.
    pub hints: List<Id>,
    /// How many lines had been derived when this one was retired; `None` where it stands.
    pub retired: Option<u32>,
}

/// Clauses that follow from axioms. The axioms have numbers from 1, and so have the derived lines.
///
/// A clause that stands is kept twice, in its line and as the key by which it is found, so a look-up
/// costs the length of the clause. A line or an axiom past the last number of a `u32` counts as memory
/// that is not there.
///
/// Contracts see the axioms and the derived lines.
#[derive(Drop)]
pub struct Log {
    alloc: Global,
    axioms: Vec<Clause>,
    lines: Vec<Line>,
    numbers: ClauseTable,
}

impl Model for Log {
    ghost use Rattle.proof_log.specs.Logged.{Logged};

    ghost Value = { Logged };

    ghost use Rattle.proof_log.specs.LogState.{KeepsTogether};

    ghost view = { λ l. record { axioms = l.axioms.items; lines = l.lines.items } };

    ghost invariant = { λ l. KeepsTogether l.axioms.items l.lines.items l.numbers };
}

impl Log {
    ghost use Rattle.proof_log.specs.Logged.{live_lines, Derives, Retires};
    ghost use Rattle.proof_log.specs.IsSound.{IsSound};
    ghost use Rattle.proof_log.specs.Standing.{IsStanding};

    /// The log without axioms and lines.
    pub fn new(alloc: Global) -> Log
        ensures { result ≡ record { axioms = []; lines = [] } }
    {
        Log {
            alloc,
            axioms: Vec::new(alloc),
            lines: Vec::new(alloc),
            numbers: ClauseTable::new(alloc),
        }
    }

    /// Adds axioms, which get the next numbers. After `NoMemory` the log is unchanged.
    pub fn axioms(&mut self, clauses: &[Clause]) -> Result<(), NoMemory>
        ensures ok { OnOk result (self.new
            ≡ record self.old { axioms = self.old.axioms ++ clauses.now }) }
        ensures err { OnErr result (self.new ≡ self.old) }
    {
        if clauses.len() > u32::MAX as usize - self.axioms.len() {
            return Err(NoMemory);
        }
        let mut copies = copies(self.alloc, clauses)?;
        self.axioms.append(&mut copies)?;
        Ok(())
    }

    /// Adds a clause that the hints derive, and answers its id. Where the clause stands in the log as
    /// a derived one, its id is answered and nothing is added. After `NoMemory` the log is unchanged.
    pub fn derive(&mut self, clause: &Clause, hints: &[Id]) -> Result<Id, NoMemory>
        requires right { IsRupStep self.old.axioms (live_lines self.old.lines) clause.now
            hints.now }

        // The clause holds no literal of a live unit clause beside others.
        requires plain { HoldsUnit (live_lines self.old.lines) clause.now → ⊥ }
        ensures ok { IfOk result (Derives self.old clause.now hints.now self.new) }
        ensures err { OnErr result (self.new ≡ self.old) }
    {
        if let Some(number) = self.numbers.get(clause.lits()) {
            return Ok(Id::Derived(number));
        }
        if self.lines.len() >= u32::MAX as usize {
            return Err(NoMemory);
        }
        let number = self.lines.len() as u32 + 1;
        let line = Line {
            clause: clause.try_clone(self.alloc)?,
            hints: List::from_slice(self.alloc, hints)?,
            retired: None,
        };
        let key = Vec::from_slice(self.alloc, clause.lits())?;
        self.lines.reserve(1)?;
        self.numbers.insert(key, number)?;
        self.lines.push_reserved(line);
        Ok(Id::Derived(number))
    }

    /// Retires the derived line of this number: no later line may use it. It takes no memory.
    pub fn retire(&mut self, id: u32)
        // The line stands, and holds the literal of a live unit clause beside others.
        requires { IsRetirable (live_lines self.old.lines) id }
        ensures { Retires self.old id self.new }
    {
        let count = self.lines.len() as u32;
        let line = &mut self.lines[id as usize - 1];
        line.retired = Some(count);
        self.numbers.remove(line.clause.lits());
    }

    /// How many lines were derived, retired ones counted. They have the numbers from 1 to this.
    pub fn derived(&self) -> u32
        ensures count { result ≡ length self.now.lines }

        // What every log keeps, whatever was called before.
        ensures sound { IsSound self.now }
    {
        self.lines.len() as u32
    }

    /// The clause of the derived line of this number.
    pub fn clause(&self, id: u32) -> &Clause
        requires numbered { 1 ≤ id }
        requires derived { id ≤ length self.now.lines }
        ensures { option_map (λ line. line.clause) (numbered self.now.lines id) ≡ Some result.now }
    {
        &self.lines[id as usize - 1].clause
    }

    /// The hints of the derived line of this number.
    pub fn hints(&self, id: u32) -> &[Id]
        requires numbered { 1 ≤ id }
        requires derived { id ≤ length self.now.lines }
        ensures { option_map (λ line. line.hints) (numbered self.now.lines id) ≡ Some result.now }
    {
        self.lines[id as usize - 1].hints.as_slice()
    }

    /// The number of the line that holds in the place of the derived line of this number: the same where
    /// that line stands, and else the first unit clause whose literal it holds. It takes no memory.
    pub fn standing(&self, id: u32) -> u32
        requires numbered { 1 ≤ id }
        requires derived { id ≤ length self.now.lines }
        ensures { IsStanding self.now.lines id result }
    {
        let line = &self.lines[id as usize - 1];
        match line.retired {
            None => id,
            Some(_) => first_unit(&self.numbers, line.clause.lits()).unwrap_or(id),
        }
    }

    /// How many lines had been derived when the line of this number was retired, and `None` where it
    /// stands.
    pub fn retired(&self, id: u32) -> Option<u32>
        requires numbered { 1 ≤ id }
        requires derived { id ≤ length self.now.lines }
        ensures { option_map (λ line. line.retired) (numbered self.now.lines id) ≡ Some result }
    {
        self.lines[id as usize - 1].retired
    }
}

/// The least number that the table gives a unit clause of one of the literals.
fn first_unit(numbers: &ClauseTable, lits: &[Lit]) -> Option<u32>
    ensures { IsFirstUnit numbers.now lits.now result }
{
    let mut first = None;
    for lit in lits {
        first = earlier(first, numbers.get(&[*lit]));
    }
    first
}

/// The lesser of two numbers, where they are there.
fn earlier(one: Option<u32>, other: Option<u32>) -> Option<u32>
    ensures { result ≡ lesser one other }
{
    match (one, other) {
        (Some(first), Some(second)) => Some(first.min(second)),
        (Some(first), None) => Some(first),
        (None, _) => other,
    }
}

/// Copies of the clauses.
fn copies(alloc: Global, clauses: &[Clause]) -> Result<Vec<Clause>, NoMemory>
    ensures { IfOk result (λ copies. copies.items ≡ clauses.now) }
{
    let mut copies = Vec::with_capacity(alloc, clauses.len())?;
    for clause in clauses {
        copies.push(clause.try_clone(alloc)?)?;
    }
    Ok(copies)
}
