//! Clauses found by their literals.
ghost use Rattle.std.specs.Prelude.{◌≡◌, Some, None, [], OnOk, OnErr};
ghost use Rattle.sat_lits.specs.Table.{number_of, Puts};

use crate::literals::Lit;
use fsmv_base::NoMemory;
use std::alloc::Global;
use std::collections::HashMap;
use std::marker::Model;

/// The numbers of clauses, found by hashing their literals. A look-up costs the length of the clause.
///
/// Contracts see it as the list of its entries, and ask it by `number_of` alone.
#[derive(Drop)]
pub struct ClauseTable {
    numbers: HashMap<Vec<Lit>, u32>,
}

impl Model for ClauseTable {
    ghost use Rattle.std.specs.Prelude.{ℕ, List, map};

    ghost Value = { List (List ℕ × ℕ) };

    ghost view = { λ t. map (λ e. (e.0.items, e.1)) t.numbers.entries };
}

impl ClauseTable {
    /// The table without entries.
    pub fn new(alloc: Global) -> ClauseTable
        ensures { result ≡ [] }
    {
        ClauseTable {
            numbers: HashMap::new(alloc),
        }
    }

    /// The number of the clause of these literals, where the table has one. It takes no memory.
    pub fn get(&self, lits: &[Lit]) -> Option<u32>
        ensures { result ≡ number_of self.now lits.now }
    {
        self.numbers.get(lits).copied()
    }

    /// Gives the clause of these literals the number. After `NoMemory` the table is unchanged.
    pub fn insert(&mut self, lits: Vec<Lit>, number: u32) -> Result<(), NoMemory>
        ensures ok { OnOk result (Puts self.old self.new lits.items (Some number)) }
        ensures err { OnErr result (self.new ≡ self.old) }
    {
        self.numbers.insert(lits, number)?;
        Ok(())
    }

    /// Forgets the clause of these literals. It takes no memory.
    pub fn remove(&mut self, lits: &[Lit])
        ensures { Puts self.old self.new lits.now None }
    {
        self.numbers.remove(lits);
    }
}
