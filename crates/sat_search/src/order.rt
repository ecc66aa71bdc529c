//! Which variable is decided next, and with which value.
ghost use Rattle.std.specs.Prelude.{◌≡◌, ℕ, ◌+◌, ◌≤◌, ◌<◌, ◌^◌, All, length, max, IfSome, IfNone, IsTrue, OnOk, OnErr};
ghost use Rattle.sat_lits.specs.Literals.{variable_of};
ghost use Rattle.sat_arena.specs.Trails.{true_in, IsGrown};
ghost use Rattle.sat_search.specs.Orders.{IsOpen, AllAssigned};

use crate::heap::{put_last, sift_up, take_first};
use fsmv_base::NoMemory;
use sat_arena::{Assigned, Trail};
use sat_lits::Lit;
use std::alloc::Global;
use std::marker::Model;

/// The step by which activities rise at first.
const FIRST_STEP: u64 = 1 << 20;

/// The step at which activities are scaled down.
const LAST_STEP: u64 = 1 << 50;

/// By how many bits they are.
const SCALE: u32 = 30;

/// The variables by their activity, in a heap, and the value that each had last, TRUE at first.
///
/// The activity of a variable rises with each conflict whose analysis meets it, by a step that itself grows,
/// so that later conflicts count for more. Each unassigned variable stands in the heap, and some
/// assigned ones may. A variable's row in the tables is one less than its number.
///
/// Contracts see the greatest variable alone: which one is decided is free.
#[derive(Drop)]
pub struct Order {
    slots: Vec<u32>,
    count: usize,
    positions: Vec<u32>,
    activities: Vec<u64>,
    phases: Vec<bool>,
    step: u64,
    vars: u32,
}

impl Model for Order {
    ghost use Rattle.std.specs.Prelude.{ℕ};
    ghost use Rattle.sat_search.specs.Orders.{IsOrder};

    ghost Value = { ℕ };

    ghost view = { λ o. o.vars };

    ghost invariant = { λ o. IsOrder o.slots.items o.positions.items o.activities.items
        o.phases.items o.count o.vars };
}

impl Order {
    /// The order of no variables.
    pub fn new(alloc: Global) -> Order
        ensures { result ≡ 0 }
    {
        Order {
            slots: Vec::new(alloc),
            count: 0,
            positions: Vec::new(alloc),
            activities: Vec::new(alloc),
            phases: Vec::new(alloc),
            step: FIRST_STEP,
            vars: 0,
        }
    }

    /// Takes in the variables up to this one. Fewer than before change nothing. After `NoMemory` the
    /// order is unchanged.
    pub fn grow(&mut self, vars: u32) -> Result<(), NoMemory>
        requires { vars < 2 ^ 30 }
        ensures ok { OnOk result (self.new ≡ max self.old vars) }
        ensures err { OnErr result (self.new ≡ self.old) }
    {
        if vars <= self.vars {
            return Ok(());
        }
        let rows = vars as usize;
        self.positions.resize(rows, 0)?;
        self.activities.resize(rows, 0)?;
        self.phases.resize(rows, true)?;
        self.slots.resize(rows, 0)?;
        let before = self.vars;
        self.vars = vars;
        for row in before..vars {
            self.insert(row);
        }
        Ok(())
    }

    /// An unassigned variable with the value that it had last, the most active one of the heap, or else
    /// the first. `None` where no variable is unassigned.
    pub fn next(&mut self, trail: &Trail) -> Option<Lit>
        requires { self.old ≤ trail.now.vars }
        ensures same { self.new ≡ self.old }
        ensures some { IfSome result (IsOpen (true_in trail.now.entries) self.old) }
        ensures none { IfNone result (AllAssigned self.old (true_in trail.now.entries)) }
    {
        for _ in 0..self.count {
            let Some(lit) = self.pop() else {
                break;
            };
            if is_open(trail, lit) {
                return Some(lit);
            }
        }
        first_open(trail, self.vars)
    }

    /// Takes back into the heap the variables of the entries above the level, and keeps their values.
    pub fn release(&mut self, entries: &[Assigned], level: u32)
        requires { All (λ e. IsGrown self.old e.lit) entries.now }
        ensures { self.new ≡ self.old }
    {
        let mut left = entries.len();
        while left > 0 && entries[left - 1].level > level {
            left -= 1;
            let lit = entries[left].lit;
            self.keep_phase(lit);
            self.insert(lit.var() - 1);
        }
    }

    /// Raises the activity of the literals' variables that there are, and the step by which the next ones
    /// rise, so that activities decay by a twentieth.
    pub fn bump(&mut self, lits: &[Lit])
        ensures { self.new ≡ self.old }
    {
        for lit in lits {
            let row = lit.var() - 1;
            if row < self.vars {
                self.raise(row);
            }
        }
        self.step = self.step.saturating_add(self.step / 19);
        if self.step > LAST_STEP {
            self.step >>= SCALE;
            scale_down(self.activities.as_mut_slice());
        }
    }

    /// Takes the most active variable from the heap, with the value that it had last.
    fn pop(&mut self) -> Option<Lit>
        ensures same { self.new ≡ self.old }
        ensures grown { IfSome result (IsGrown self.old) }
    {
        if self.count == 0 {
            return None;
        }
        let count = self.count - 1;
        let row = take_first(
            self.slots.as_mut_slice(),
            self.positions.as_mut_slice(),
            &self.activities,
            count,
        );
        self.count = count;
        Some(Lit::new(row + 1, self.phases[row as usize]))
    }

    /// Puts the row into the heap, where it is not.
    fn insert(&mut self, row: u32)
        requires { row < self.old }
        ensures { self.new ≡ self.old }
    {
        let slot = self.count;
        if slot == self.slots.len()
            || find_slot(&self.slots, &self.positions, self.count, row).is_some()
        {
            return;
        }
        put_last(
            self.slots.as_mut_slice(),
            self.positions.as_mut_slice(),
            &self.activities,
            slot,
            row,
        );
        self.count = slot + 1;
    }

    /// Raises the activity of the row by one step.
    fn raise(&mut self, row: u32)
        requires { row < self.old }
        ensures { self.new ≡ self.old }
    {
        let activity = self.activities[row as usize].saturating_add(self.step);
        self.activities[row as usize] = activity;
        if let Some(slot) = find_slot(&self.slots, &self.positions, self.count, row) {
            sift_up(
                self.slots.as_mut_slice(),
                self.positions.as_mut_slice(),
                &self.activities,
                slot,
            );
        }
    }

    /// Keeps the value that the literal's variable had.
    fn keep_phase(&mut self, lit: Lit)
        requires { IsGrown self.old lit }
        ensures { self.new ≡ self.old }
    {
        self.phases[lit.var() as usize - 1] = lit.is_positive();
    }
}

/// In which slot of the heap the row stands, if it does.
fn find_slot(slots: &[u32], positions: &[u32], count: usize, row: u32) -> Option<usize>
    requires { row < length positions.now }
    ensures { IfSome result (λ slot. slot < length slots.now) }
{
    let slot = positions[row as usize] as usize;
    if slot < count && slot < slots.len() && slots[slot] == row {
        Some(slot)
    } else {
        None
    }
}

/// Divides all activities by the same power of two.
fn scale_down(activities: &mut [u64]) {
    for activity in activities.iter_mut() {
        *activity >>= SCALE;
    }
}

/// Whether the literal is neither true nor false.
fn is_open(trail: &Trail, lit: Lit) -> bool
    requires { IsGrown trail.now.vars lit }
    ensures { IsTrue result → IsOpen (true_in trail.now.entries) trail.now.vars lit }
{
    !trail.is_true(lit) && !trail.is_true(lit.negate())
}

/// The first unassigned variable, as a positive literal.
fn first_open(trail: &Trail, vars: u32) -> Option<Lit>
    requires vars { vars ≤ trail.now.vars }
    requires small { vars < 2 ^ 30 }
    ensures some { IfSome result (IsOpen (true_in trail.now.entries) vars) }
    ensures none { IfNone result (AllAssigned vars (true_in trail.now.entries)) }
{
    for before in 0..vars {
        let lit = Lit::new(before + 1, true);
        if !trail.is_true(lit) && !trail.is_true(lit.negate()) {
            return Some(lit);
        }
    }
    None
}
