//! A set of literals that is filled again and again.
ghost use Rattle.std.specs.Prelude.{◌≡◌, ℕ, ◌+◌, ◌*◌, ◌≤◌, ◌<◌, ◌^◌, [], false, All, length, OnOk};
ghost use Rattle.sat_arena.specs.Trails.{marked, IsGrown};
ghost use Rattle.sat_search.specs.Assumed.{assumed, HasFlagsOf};

use fsmv_base::NoMemory;
use sat_lits::Lit;
use std::alloc::Global;
use std::marker::Model;

/// Literals, with a flag for each by its code. The table of the flags stays from one search to the next, so
/// that a search takes time for its own assumptions alone.
///
/// Contracts see the literals.
#[derive(Drop)]
pub struct LiteralSet {
    flags: Vec<bool>,
    lits: Vec<Lit>,
}

impl Model for LiteralSet {
    ghost use Rattle.std.specs.Prelude.{ℕ, List};
    ghost use Rattle.sat_search.specs.Assumed.{HasFlagsOf};

    ghost Value = { List ℕ };

    ghost view = { λ s. s.lits.items };

    ghost invariant = { λ s. HasFlagsOf s.flags.items s.lits.items };
}

impl LiteralSet {
    /// The set of no literals.
    pub fn new(alloc: Global) -> LiteralSet
        ensures { result ≡ [] }
    {
        LiteralSet {
            flags: Vec::new(alloc),
            lits: Vec::new(alloc),
        }
    }

    /// Holds these literals in the place of those before. After `NoMemory` it holds some or none.
    pub fn fill(&mut self, lits: &[Lit], vars: u32) -> Result<(), NoMemory>
        requires small { vars < 2 ^ 30 }
        requires grown { All (IsGrown vars) lits.now }
        ensures { OnOk result (self.new ≡ lits.now) }
    {
        refill(&mut self.flags, &mut self.lits, lits, vars)
    }

    /// The flags of the literals, by their codes.
    pub fn flags(&self) -> &[bool]
        ensures { (l : ℕ) → marked result.now l ≡ assumed self.now l }
    {
        &self.flags
    }
}

/// Sets the flags of the literals in place of those of the held ones, and holds them.
fn refill(
    flags: &mut Vec<bool>,
    held: &mut Vec<Lit>,
    lits: &[Lit],
    vars: u32,
) -> Result<(), NoMemory>
    requires small { vars < 2 ^ 30 }
    requires grown { All (IsGrown vars) lits.now }
    requires flags { HasFlagsOf flags.old.items held.old.items }
    ensures flags { HasFlagsOf flags.new.items held.new.items }
    ensures held { OnOk result (held.new.items ≡ lits.now) }
{
    remove_all(flags, held);
    held.clear();
    lengthen(flags, 2 * vars as usize + 2)?;
    held.extend_from_slice(lits)?;
    insert_all(flags, lits);
    Ok(())
}

/// Takes the flags of the literals, which are the only ones that are set.
fn remove_all(flags: &mut Vec<bool>, lits: &[Lit])
    requires { HasFlagsOf flags.old.items lits.now }
    ensures { (l : ℕ) → marked flags.new.items l ≡ false }
{
    for lit in lits {
        flags[lit.code() as usize] = false;
    }
}

/// Sets the flags of the literals, where none is set.
fn insert_all(flags: &mut Vec<bool>, lits: &[Lit])
    requires room { All (λ l. l < length flags.old.items) lits.now }
    requires none { (l : ℕ) → marked flags.old.items l ≡ false }
    ensures { HasFlagsOf flags.new.items lits.now }
{
    for lit in lits {
        flags[lit.code() as usize] = true;
    }
}

/// Lengthens the table of flags, none of which is set, to at least so many.
fn lengthen(flags: &mut Vec<bool>, least: usize) -> Result<(), NoMemory>
    requires { (l : ℕ) → marked flags.old.items l ≡ false }
    ensures none { (l : ℕ) → marked flags.new.items l ≡ false }
    ensures long { OnOk result (least ≤ length flags.new.items) }
{
    if flags.len() < least {
        flags.resize(least, false)?;
    }
    Ok(())
}
