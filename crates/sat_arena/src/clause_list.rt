//! Clauses in one array of literals.
ghost use Rattle.std.specs.Prelude.{◌≡◌, ℕ, ◌<◌, ◌++◌, ◌∷◌, [], map, length, slice_index_or, OnOk, OnErr};
ghost use Rattle.sat_lits.specs.Clauses.{HasRisingVariables};
ghost use Rattle.sat_arena.specs.ArenaState.{clauses_of};

use fsmv_base::{Id, NoMemory};
use sat_lits::Lit;
use std::alloc::Global;
use std::marker::Model;

/// Where the literals of a clause stand, and the id under which proofs cite it.
#[derive(Clone, Copy, Debug, Drop)]
pub struct Header {
    start: u32,
    stop: u32,
    id: Id,
}

/// Clauses with their ids. The literals of all of them stand in one array, clause after clause. More than
/// 2^32 - 1 literals count as memory that is not there.
///
/// Contracts see the list of the clauses with their ids.
#[derive(Drop)]
pub struct ClauseList {
    lits: Vec<Lit>,
    headers: Vec<Header>,
}

impl Model for ClauseList {
    ghost use Rattle.std.specs.Prelude.{List};
    ghost use Rattle.sat_arena.specs.Stored.{Stored};
    ghost use Rattle.sat_arena.specs.ClauseLists.{all_stored_in, AreHeaders};

    ghost Value = { List Stored };

    ghost view = { λ c. all_stored_in c.lits.items c.headers.items };

    ghost invariant = { λ c. AreHeaders c.lits.items c.headers.items };
}

impl ClauseList {
    /// The list without clauses.
    pub fn new(alloc: Global) -> ClauseList
        ensures { result ≡ [] }
    {
        ClauseList {
            lits: Vec::new(alloc),
            headers: Vec::new(alloc),
        }
    }

    /// How many clauses there are.
    pub fn len(&self) -> usize
        ensures { result ≡ length self.now }
    {
        self.headers.len()
    }

    /// The literals of the clause at the position.
    pub fn lits(&self, at: usize) -> &[Lit]
        requires { at < length self.now }
        ensures same { result.now ≡ slice_index_or (clauses_of self.now) at [] }
        ensures rising { HasRisingVariables result.now }
    {
        let header = self.headers[at];
        &self.lits[header.start as usize..header.stop as usize]
    }

    /// The id of the clause at the position.
    pub fn id(&self, at: usize) -> Id
        requires { at < length self.now }
        ensures { result ≡ slice_index_or (map (λ s. s.id) self.now) at result }
    {
        self.headers[at].id
    }

    /// Adds a clause after all others. After `NoMemory` nothing has changed.
    pub fn push(&mut self, lits: &[Lit], id: Id) -> Result<(), NoMemory>
        requires { HasRisingVariables lits.now }
        ensures ok { OnOk result (self.new ≡ self.old ++ record { clause = lits.now; id = id } ∷ []) }
        ensures err { OnErr result (self.new ≡ self.old) }
    {
        let start = self.lits.len();
        if lits.len() > u32::MAX as usize || start > u32::MAX as usize - lits.len() {
            return Err(NoMemory);
        }
        self.headers.reserve(1)?;
        self.lits.extend_from_slice(lits)?;
        self.headers.push_reserved(Header {
            start: start as u32,
            stop: self.lits.len() as u32,
            id,
        });
        Ok(())
    }
}
