//! A set of literals that is emptied at once.
ghost use Rattle.std.specs.Prelude.{◌≡◌, ◌+◌, ◌<◌, ◌≤◌, true, false, [], length, replicate, slice_set, All, OnOk};
ghost use Rattle.proof_check.specs.Marks.{marked};

use fsmv_base::NoMemory;
use sat_lits::Lit;
use std::alloc::Global;
use std::marker::Model;

/// A set of literals. Each literal up to a greatest one has a stamp, and is in the set where its
/// stamp is the present round: so a new round empties the set.
///
/// Contracts see it as a list of literal_set, one for each literal by its code.
#[derive(Drop)]
pub struct Marks {
    stamps: Vec<u32>,
    round: u32,
}

impl Model for Marks {
    ghost use Rattle.std.specs.Prelude.{List, Bool, ◌==◌, ◌<◌, ◌≤◌, All, map};

    ghost Value = { List Bool };

    ghost view = { λ m. map (λ stamp. stamp == m.round) m.stamps.items };

    ghost invariant = { λ m. (0 < m.round) × All (λ stamp. stamp ≤ m.round) m.stamps.items };
}

impl Marks {
    /// The empty set, with room for no literal.
    pub fn new(alloc: Global) -> Marks
        ensures { result ≡ [] }
    {
        Marks {
            stamps: Vec::new(alloc),
            round: 1,
        }
    }

    /// Whether the literal is in the set.
    pub fn contains(&self, lit: Lit) -> bool
        requires { lit < length self.now }
        ensures { result ≡ marked self.now lit }
    {
        self.stamps[lit.code() as usize] == self.round
    }

    /// Puts the literal in the set.
    pub fn insert(&mut self, lit: Lit)
        requires { lit < length self.old }
        ensures { self.new ≡ slice_set self.old lit true }
    {
        self.stamps[lit.code() as usize] = self.round;
    }

    /// Empties the set.
    pub fn clear(&mut self)
        ensures { self.new ≡ replicate (length self.old) false }
    {
        self.round = next_round(self.stamps.as_mut_slice(), self.round);
    }

    /// Makes room for the literals and their negations.
    pub fn widen(&mut self, lits: &[Lit]) -> Result<(), NoMemory>
        ensures room { OnOk result (All (λ l. l + 1 < length self.new) lits.now) }
        ensures grown { length self.old ≤ length self.new }
    {
        let room = room_for(lits, self.stamps.len());
        if self.stamps.len() < room {
            self.stamps.resize(room, 0)?;
        }
        Ok(())
    }
}

/// A round that no stamp has yet. After the last of a `u32` all stamps are set back.
fn next_round(stamps: &mut [u32], round: u32) -> u32
    requires bounded { All (λ stamp. stamp ≤ round) stamps.old }
    ensures begun { 0 < result }
    ensures fresh { All (λ stamp. stamp < result) stamps.new }
{
    if round < u32::MAX {
        return round + 1;
    }
    for stamp in stamps.iter_mut() {
        *stamp = 0;
    }
    1
}

/// One more than the greatest code of a literal or of its negation, and at least `least`.
fn room_for(lits: &[Lit], least: usize) -> usize
    ensures least { least ≤ result }
    ensures room { All (λ l. l + 1 < result) lits.now }
{
    let mut room = least;
    for lit in lits {
        room = room.max(lit.code() as usize + 2);
    }
    room
}
