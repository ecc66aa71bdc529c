//! A binary heap of rows, the most active first, over lent tables.
//!
//! The first `count` of `slots` are the heap. `positions` says for each row in which slot it stands: the
//! row is in the heap where that slot is in use and holds it.
ghost use Rattle.std.specs.Prelude.{ℕ, ◌≡◌, ◌+◌, ◌<◌, ◌≤◌, ◌/◌, length};
ghost use Rattle.sat_search.specs.Orders.{AreRows};

/// Takes the most active row from the heap of `count` rows and one more.
pub fn take_first(slots: &mut [u32], positions: &mut [u32], activities: &[u64], count: usize) -> u32
    requires count { count < length slots.old }
    requires positions { AreRows (length positions.old) slots.old }
    requires activities { AreRows (length activities.now) slots.old }
    ensures same { (rows : ℕ) → AreRows rows slots.old → AreRows rows slots.new }
    ensures row { (rows : ℕ) → AreRows rows slots.old → result < rows }
{
    let row = slots[0];
    exchange(slots, positions, 0, count);
    sift_down(slots, positions, activities, count);
    row
}

/// Puts the row into the slot after the heap.
pub fn put_last(slots: &mut [u32], positions: &mut [u32], activities: &[u64], slot: usize, row: u32)
    requires slot { slot < length slots.old }
    requires positions { AreRows (length positions.old) slots.old }
    requires activities { AreRows (length activities.now) slots.old }
    requires position { row < length positions.old }
    requires activity { row < length activities.now }
    ensures same { (rows : ℕ) → AreRows rows slots.old → row < rows → AreRows rows slots.new }
{
    slots[slot] = row;
    note(positions, row, slot);
    sift_up(slots, positions, activities, slot);
}

/// Brings the row in the slot up to where none above it is less active.
pub fn sift_up(slots: &mut [u32], positions: &mut [u32], activities: &[u64], slot: usize)
    requires slot { slot < length slots.old }
    requires positions { AreRows (length positions.old) slots.old }
    requires activities { AreRows (length activities.now) slots.old }
    ensures same { (rows : ℕ) → AreRows rows slots.old → AreRows rows slots.new }
{
    let mut at = slot;
    while at > 0 {
        let above = (at - 1) / 2;
        if !is_more_active(slots, activities, at, above) {
            return;
        }
        exchange(slots, positions, at, above);
        at = above;
    }
}

/// Brings the row in the first slot down to where none below it is more active.
fn sift_down(slots: &mut [u32], positions: &mut [u32], activities: &[u64], count: usize)
    requires count { count ≤ length slots.old }
    requires positions { AreRows (length positions.old) slots.old }
    requires activities { AreRows (length activities.now) slots.old }
    ensures same { (rows : ℕ) → AreRows rows slots.old → AreRows rows slots.new }
{
    let mut at = 0;
    while at < count / 2 {
        let below = more_active_child(slots, activities, at, count);
        if !is_more_active(slots, activities, below, at) {
            return;
        }
        exchange(slots, positions, below, at);
        at = below;
    }
}

/// Exchanges the rows in two slots, and notes where they stand.
fn exchange(slots: &mut [u32], positions: &mut [u32], one: usize, other: usize)
    requires one { one < length slots.old }
    requires other { other < length slots.old }
    requires positions { AreRows (length positions.old) slots.old }
    ensures same { (rows : ℕ) → AreRows rows slots.old → AreRows rows slots.new }
{
    slots.swap(one, other);
    note(positions, slots[one], one);
    note(positions, slots[other], other);
}

/// Notes in which slot the row stands.
fn note(positions: &mut [u32], row: u32, slot: usize)
    requires { row < length positions.old }
{
    if slot < u32::MAX as usize {
        positions[row as usize] = slot as u32;
    }
}

/// Whether the row in the one slot is more active than that in the other.
fn is_more_active(slots: &[u32], activities: &[u64], one: usize, other: usize) -> bool
    requires one { one < length slots.now }
    requires other { other < length slots.now }
    requires activities { AreRows (length activities.now) slots.now }
{
    activities[slots[one] as usize] > activities[slots[other] as usize]
}

/// The slot of the more active of the rows below a slot.
fn more_active_child(slots: &[u32], activities: &[u64], at: usize, count: usize) -> usize
    requires at { at < count / 2 }
    requires count { count ≤ length slots.now }
    requires activities { AreRows (length activities.now) slots.now }
    ensures below { at < result }
    ensures within { result < count }
{
    let left = 2 * at + 1;
    let right = left + 1;
    if right < count && is_more_active(slots, activities, right, left) {
        return right;
    }
    left
}
