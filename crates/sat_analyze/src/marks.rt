//! Marks at the positions of a trail.
ghost use Rattle.std.specs.Prelude.{◌≡◌, ℕ, ◌<◌, ◌≤◌, ◌^◌, ◌↔◌, ◌⊎◌, true, false, All, IsTrue, length, slice_index, slice_set};
ghost use Rattle.sat_lits.specs.Literals.{variable_of};
ghost use Rattle.sat_analyze.specs.Marked.{IsMarked, ArePositioned, IsPositionOf, IsCovered, IsLowest};

use sat_arena::Assigned;
use sat_lits::Lit;

/// How many positions are stepped over at once, where none of them is marked.
const BLOCK: usize = 64;

/// Which entries of a trail are marked, by their positions. Where an entry stands is read from a table of
/// positions, by variables.
#[derive(Drop)]
pub struct Marks {
    /// Whether the position is marked.
    pub seen: Vec<bool>,
    /// The position from which on the lowest mark is kept in sight.
    pub start: usize,
    /// The lowest marked position from there on, or the number of positions where there is none.
    pub lowest: usize,
    /// The marked literals, as far as there is room for them: no clause speaks of these.
    pub met: Vec<Lit>,
}

impl Marks {
    /// Marks where the variables of the literals stand.
    pub fn mark(&mut self, positions: &[u32], lits: &[Lit])
        requires positioned { ArePositioned positions.now (length self.old.seen.items) lits.now }
        requires lowest { IsLowest self.old.seen.items self.old.start self.old.lowest }
        ensures exact { (i : ℕ) → IsMarked self.new.seen.items i
            ↔ (IsMarked self.old.seen.items i ⊎ IsPositionOf positions.now lits.now i) }
        ensures lowest { IsLowest self.new.seen.items self.old.start self.new.lowest }
        ensures sized { length self.new.seen.items ≡ length self.old.seen.items }
        ensures start { self.new.start ≡ self.old.start }
    {
        for lit in lits {
            let position = position_of(positions, *lit);
            self.mark_position(position, *lit);
        }
    }

    fn mark_position(&mut self, position: usize, lit: Lit)
        requires within { position < length self.old.seen.items }
        requires lowest { IsLowest self.old.seen.items self.old.start self.old.lowest }
        ensures seen { self.new.seen.items ≡ slice_set self.old.seen.items position true }
        ensures lowest { IsLowest self.new.seen.items self.old.start self.new.lowest }
        ensures start { self.new.start ≡ self.old.start }
    {
        if !self.seen[position] && self.met.len() < self.met.capacity() {
            self.met.push_reserved(lit);
        }
        self.seen[position] = true;
        if self.start <= position {
            self.lowest = self.lowest.min(position);
        }
    }

    /// A position not above this one, where nothing from there up to this one is marked. It steps over whole
    /// blocks, since most of a long trail is not marked.
    pub fn skip_unmarked(&self, position: usize) -> usize
        requires { position ≤ length self.now.seen.items }
        ensures low { result ≤ position }
        ensures unmarked { (i : ℕ) → result ≤ i → i < position → IsMarked self.now.seen.items i → ⊥ }
    {
        if position % BLOCK != 0 {
            return position;
        }
        let mut at = position;
        while at >= BLOCK && !has_mark(&self.seen[at - BLOCK..at]) {
            at -= BLOCK;
        }
        at
    }

    /// Whether each literal stands at a marked position or at level 0.
    pub fn cover(&self, entries: &[Assigned], positions: &[u32], lits: &[Lit]) -> bool
        requires sized { length self.now.seen.items ≡ length entries.now }
        requires positioned { ArePositioned positions.now (length entries.now) lits.now }
        ensures { IsTrue result ↔ All
            (IsCovered entries.now positions.now self.now.seen.items) lits.now }
    {
        for lit in lits {
            let position = position_of(positions, *lit);
            if !self.seen[position] && entries[position].level > 0 {
                return false;
            }
        }
        true
    }
}

/// Whether one of these is marked. It reads them all, since many are read at once.
fn has_mark(seen: &[bool]) -> bool
    ensures { result ≡ false → (k : ℕ) → IsMarked seen.now k → ⊥ }
{
    let mut any = false;
    for flag in seen {
        any |= *flag;
    }
    any
}

/// Where the literal's variable stands on the trail.
pub fn position_of(positions: &[u32], lit: Lit) -> usize
    requires { variable_of lit < length positions.now }
    ensures position { result ≡ slice_index positions.now (variable_of lit) }
    ensures small { result < 2 ^ 32 }
{
    positions[lit.var() as usize] as usize
}
