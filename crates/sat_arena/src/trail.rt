//! The literals that are true, in the order in which they became so.
ghost use Rattle.std.specs.Prelude.{◌≡◌, ℕ, ◌+◌, ◌≤◌, ◌<◌, ◌^◌, ◌&&◌, true, false, not, [], ◌∷◌, ◌++◌, All, AllPairs, length, max, slice_index_or, slice_set, take, drop, OnOk, OnErr};
ghost use Rattle.sat_lits.specs.Literals.{negation, variable_of};
ghost use Rattle.sat_arena.specs.Trails.{true_in, up_to, with_reason, marked, IsOrderly, IsPositionOf};
ghost use Rattle.sat_arena.specs.Justified.{current_level, HasPositions};
ghost use Rattle.sat_arena.specs.Settled.{IsConsistent};

use fsmv_base::NoMemory;
use sat_lits::Lit;
use std::alloc::Global;
use std::marker::Model;

/// A literal that became true.
#[derive(Clone, Copy, Debug)]
pub struct Assigned {
    pub lit: Lit,
    /// How many decisions had been made by then.
    pub level: u32,
    /// The position of the clause that forced the literal; `None` where it was decided.
    pub reason: Option<u32>,
}

/// The literals that are true, by rising levels. No variable stands there twice. Beside them are whether
/// each literal is true, by its code, and the position of each assigned variable's entry.
///
/// Contracts see the entries in their order, and the greatest variable that may be assigned.
#[derive(Drop)]
pub struct Trail {
    entries: Vec<Assigned>,
    truth: Vec<bool>,
    positions: Vec<u32>,
    vars: u32,
}

impl Model for Trail {
    ghost use Rattle.sat_arena.specs.TrailState.{TrailState};

    ghost Value = { TrailState };

    ghost use Rattle.std.specs.Prelude.{vec_capacity};
    ghost use Rattle.sat_arena.specs.Trails.{KeepsTogether};

    ghost view = { λ t. record { entries = t.entries.items; vars = t.vars } };

    ghost invariant = { λ t. KeepsTogether t.entries.items t.truth.items
        t.positions.items t.vars (vec_capacity t.entries) };
}

impl Trail {
    /// The trail on which nothing is true, over no variables.
    pub fn new(alloc: Global) -> Trail
        ensures { result ≡ record { entries = []; vars = 0 } }
    {
        Trail {
            entries: Vec::new(alloc),
            truth: Vec::new(alloc),
            positions: Vec::new(alloc),
            vars: 0,
        }
    }

    /// Lets the variables up to this one be assigned. Fewer than before change nothing. It reserves all
    /// that `push` needs; a variable from 2^30 on counts as memory that is not there. After `NoMemory`
    /// the trail is unchanged.
    pub fn grow(&mut self, vars: u32) -> Result<(), NoMemory>
        ensures ok { OnOk result (self.new ≡ record self.old { vars = max self.old.vars vars }) }
        ensures small { OnOk result (vars < 2 ^ 30) }
        ensures err { OnErr result (self.new ≡ self.old) }
    {
        if vars >= 1 << 30 {
            return Err(NoMemory);
        }
        if vars <= self.vars {
            return Ok(());
        }
        self.entries.reserve(vars as usize + 1)?;
        self.positions.resize(vars as usize + 1, 0)?;
        self.truth.resize(2 * vars as usize + 2, false)?;
        self.vars = vars;
        Ok(())
    }

    /// Makes one more literal true. It takes no memory.
    pub fn push(&mut self, entry: Assigned)
        requires grown { variable_of entry.lit ≤ self.old.vars }
        requires not_true { true_in self.old.entries entry.lit ≡ false }
        requires not_false { true_in self.old.entries (negation entry.lit) ≡ false }
        requires current_level { All (λ e. e.level ≤ entry.level) self.old.entries }
        ensures { self.new ≡ record self.old { entries = self.old.entries ++ entry ∷ [] } }
    {
        let code = entry.lit.code() as usize;
        self.truth[code] = true;
        self.positions[entry.lit.var() as usize] = self.entries.len() as u32;
        self.entries.push(entry).unwrap();
    }

    /// Takes back the entries above the level. It takes no memory.
    pub fn back(&mut self, level: u32)
        ensures { self.new ≡ record self.old { entries = up_to level self.old.entries } }
    {
        let kept = count_up_to(&self.entries, level);
        clear(self.truth.as_mut_slice(), &self.entries, kept);
        self.entries.truncate(kept);
    }

    /// Gives the entry at the position this reason. It takes no memory.
    pub fn set_reason(&mut self, entry: u32, reason: u32)
        requires { entry < length self.old.entries }
        ensures { (d : Assigned) → self.new ≡ record self.old {
          entries = slice_set self.old.entries entry
              (with_reason (slice_index_or self.old.entries entry d) reason);
        } }
    {
        let changed = &mut self.entries[entry as usize];
        changed.reason = Some(reason);
    }

    /// The literals that are true, in their order.
    pub fn entries(&self) -> &[Assigned]
        ensures same { result.now ≡ self.now.entries }
        ensures orderly { IsOrderly self.now.entries self.now.vars }
        ensures consistent { IsConsistent (true_in self.now.entries) }
        ensures few { length self.now.entries ≤ self.now.vars + 1 }
    {
        &self.entries
    }

    /// The greatest variable that may be assigned.
    pub fn vars(&self) -> u32
        ensures { result ≡ self.now.vars }
    {
        self.vars
    }

    /// Whether the literal is true, in constant time. It is false where its negation is true.
    pub fn is_true(&self, lit: Lit) -> bool
        requires grown { variable_of lit ≤ self.now.vars }
        ensures { result ≡ true_in self.now.entries lit }
    {
        self.truth[lit.code() as usize]
    }

    /// Whether the literal is true, in constant time. One of a variable that may not be assigned is not.
    pub fn has_true(&self, lit: Lit) -> bool
        ensures { result ≡ true_in self.now.entries lit }
    {
        self.truth
            .get(lit.code() as usize)
            .copied()
            .unwrap_or(false)
    }

    /// Where the entries of the assigned variables stand, by the variables' numbers.
    pub fn positions(&self) -> &[u32]
        ensures { HasPositions self.now.entries result.now }
    {
        &self.positions
    }

    /// The position of the entry of the literal's variable, in constant time. Where the variable is not
    /// assigned, it says nothing.
    pub fn position_of(&self, lit: Lit) -> usize
        requires grown { variable_of lit ≤ self.now.vars }
        ensures { IsPositionOf self.now.entries lit result }
    {
        self.positions[lit.var() as usize] as usize
    }

    /// The current decision level: that of the last entry, and 0 where there is none.
    pub fn level(&self) -> u32
        ensures { result ≡ current_level self.now.entries }
    {
        match self.entries.last() {
            Some(entry) => entry.level,
            None => 0,
        }
    }
}

/// How many entries stand up to the level.
fn count_up_to(entries: &[Assigned], level: u32) -> usize
    requires rising { AllPairs (λ e f. e.level ≤ f.level) entries.now }
    ensures within { result ≤ length entries.now }
    ensures kept { take result entries.now ≡ up_to level entries.now }
{
    let mut kept = entries.len();
    while kept > 0 && entries[kept - 1].level > level {
        kept -= 1;
    }
    kept
}

/// Clears the flags of the entries from a position on.
fn clear(truth: &mut [bool], entries: &[Assigned], from: usize)
    requires start { from ≤ length entries.now }
    requires room { All (λ e. e.lit < length truth.old) entries.now }
    ensures cleared { (l : ℕ) → marked truth.new l
        ≡ (marked truth.old l && not (true_in (drop from entries.now) l)) }
{
    for entry in &entries[from..] {
        truth[entry.lit.code() as usize] = false;
    }
}
