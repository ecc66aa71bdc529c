//! The derived lines of a log that stand.
ghost use Rattle.std.specs.Prelude.{◌≡◌, ◌↔◌, ◌+◌, ◌<◌, ◌^◌, ◌⊎◌, ◌++◌, ◌∷◌, [], Some, None, length, IsTrue, OnOk, OnErr};
ghost use Rattle.std.specs.Bool.{OnTrue, OnFalse};
ghost use Rattle.sat_lits.specs.Steps.{IsLive, HoldsUnit, IsRedundant, IsRetirable, replaced};
ghost use Rattle.proof_check.specs.UnitEntry.{HasUnitEntry};

use fsmv_base::NoMemory;
use sat_lits::{Clause, ClauseTable, Lit};
use std::alloc::Global;
use std::marker::Model;

/// The derived lines of a log, each with its clause as long as it stands. A clause is kept twice, in
/// its line and as the key by which it is found; both are given back when it is retired.
///
/// Contracts see the list of the lines, with `None` for one that was retired.
#[derive(Drop)]
pub struct LiveLines {
    clauses: Vec<Option<Clause>>,
    numbers: ClauseTable,
}

impl Model for LiveLines {
    ghost use Rattle.std.specs.Prelude.{ℕ, List, Option, length, ◌<◌, ◌^◌};
    ghost use Rattle.sat_lits.specs.Table.{Indexes};

    ghost Value = { List (Option (List ℕ)) };

    ghost view = { λ l. l.clauses.items };

    ghost invariant = { λ l. Indexes l.numbers l.clauses.items
        × (length l.clauses.items < 2 ^ 32) };
}

impl LiveLines {
    pub fn new(alloc: Global) -> LiveLines
        ensures { result ≡ [] }
    {
        LiveLines {
            clauses: Vec::new(alloc),
            numbers: ClauseTable::new(alloc),
        }
    }

    /// How many lines were derived, retired ones counted.
    pub fn len(&self) -> usize
        ensures len { result ≡ length self.now }
        ensures small { result < 2 ^ 32 }
    {
        self.clauses.len()
    }

    pub fn as_slice(&self) -> &[Option<Clause>]
        ensures { result.now ≡ self.now }
    {
        self.clauses.as_slice()
    }

    /// Whether the clause of these literals stands, or holds the literal of a unit clause that does,
    /// beside others.
    pub fn is_redundant(&self, lits: &[Lit]) -> bool
        ensures { IsTrue result ↔ IsRedundant self.now lits.now }
    {
        self.numbers.get(lits).is_some() || has_unit_entry(&self.numbers, lits)
    }

    /// Adds a line. After `NoMemory` nothing has changed.
    pub fn push(&mut self, alloc: Global, clause: &Clause) -> Result<(), NoMemory>
        requires new { IsLive self.old clause.now → ⊥ }
        requires numbered { length self.old + 1 < 2 ^ 32 }
        ensures ok { OnOk result (self.new ≡ self.old ++ Some clause.now ∷ []) }
        ensures err { OnErr result (self.new ≡ self.old) }
    {
        let number = self.clauses.len() as u32 + 1;
        let copy = clause.try_clone(alloc)?;
        let key = Vec::from_slice(alloc, clause.lits())?;
        self.clauses.reserve(1)?;
        self.numbers.insert(key, number)?;
        self.clauses.push_reserved(Some(copy));
        Ok(())
    }

    /// Retires the line of this number where it stands and holds, beside others, the literal of a unit
    /// clause that does. Otherwise nothing changes. It takes no memory.
    pub fn retire(&mut self, number: u32) -> bool
        ensures retirable { IsTrue result ↔ IsRetirable self.old number }
        ensures retired { OnTrue result (self.new ≡ replaced self.old number None) }
        ensures kept { OnFalse result (self.new ≡ self.old) }
    {
        if number == 0 || number as usize > self.clauses.len() {
            return false;
        }
        let position = number as usize - 1;
        let Some(clause) = &self.clauses[position] else {
            return false;
        };
        if !has_unit_entry(&self.numbers, clause.lits()) {
            return false;
        }
        self.numbers.remove(clause.lits());
        self.clauses[position] = None;
        true
    }
}

/// Whether, beside others, one of the literals is a unit clause of the table.
fn has_unit_entry(numbers: &ClauseTable, lits: &[Lit]) -> bool
    ensures { IsTrue result ↔ HasUnitEntry numbers.now lits.now }
{
    if lits.len() < 2 {
        return false;
    }
    for lit in lits {
        if numbers.get(&[*lit]).is_some() {
            return true;
        }
    }
    false
}
