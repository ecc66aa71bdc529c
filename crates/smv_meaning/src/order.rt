//! The order of instances: each before the instances that it declares, which follow in text order.

ghost use Rattle.std.specs.Prelude.{◌≡◌, ◌∷◌, ◌++◌, ◌<◌, IfOk, OnOk, length, map};
ghost use Rattle.std.specs.List.{flat_map};
ghost use Rattle.smv_meaning.specs.Instances.{subtree, instances};
ghost use Rattle.smv_meaning.specs.InstanceTable.{entries_at};
ghost use Rattle.smv_meaning.specs.Checking as spec;

use crate::table::{Binding, InstanceTable, Slot};
use smv_ast::{List, NoMemory, Program};
use sqlite_items::at;
use std::alloc::Global;

/// The slot of the k-th name of an instance.
fn slot_in<'s, 'a>(table: &InstanceTable<'s, 'a>, row: usize, k: usize) -> Option<Slot<'a>>
    ensures { result ≡ spec.slot_in table.now row k }
{
    let slots = table.slots.as_slice();
    let first = at(table.firsts.as_slice(), row).copied();
    match first {
        Some(first) => match first.checked_add(k) {
            Some(slot) => at(slots, slot).copied(),
            None => None,
        },
        None => None,
    }
}

/// The number of names of an instance.
#[tactic(auto, using(crate::proofs::OrderLemmas::count_is))]
fn count_of(table: &InstanceTable, row: usize) -> usize
    requires { row < length table.now.rows }
    ensures { result ≡ length (entries_at table.now.rows row) }
{
    let rows = table.rows.as_slice();
    rows[row].entries().len()
}

/// An instance whose subtree is still to be visited, down to a depth.
#[derive(Clone, Copy, Drop)]
pub struct Waiting {
    pub row: usize,
    pub left: usize,
}

/// Pushes the instance that a slot declares, if it declares one.
fn push_slot(waiting: &mut List<Waiting>, left: usize, slot: Option<Slot>) -> Result<(), NoMemory>
    ensures { OnOk result (waiting.new ≡ waiting.old
        ++ map (spec.waiting_at left) (spec.inner_slot slot.entry)) }
{
    let Some(slot) = slot else {
        return Ok(());
    };
    match slot.binding {
        Binding::Instance(row) => {
            waiting.push(Waiting { row, left })?;
            Ok(())
        }
        _ => Ok(()),
    }
}

/// Pushes the instances that an instance declares, its first on top, if some depth is left.
fn push_inner(
    program: &Program,
    table: &InstanceTable,
    waiting: &mut List<Waiting>,
    next: Waiting,
) -> Result<(), NoMemory>
    requires right { spec.IsTableOfProgram program.now table.now }
    requires row { next.row < length table.now.rows }
    ensures rows { OnOk result
        (spec.AreWaiting table.now waiting.old → spec.AreWaiting table.now waiting.new) }
    ensures waiting { OnOk result
        (spec.instance_at table.now next.row ∷ spec.waiting_instances program.now table.now
        waiting.new
        ≡ subtree next.left program.now (spec.instance_at table.now next.row)
        ++ spec.waiting_instances program.now table.now waiting.old) }
{
    if next.left == 0 {
        return Ok(());
    }
    let mut k = count_of(table, next.row);
    'inner: while k > 0 {
        k -= 1;
        push_slot(waiting, next.left - 1, slot_in(table, next.row, k))?;
    }
    Ok(())
}

/// The numbers of the instances of a program, in their order.
pub fn order_of(
    alloc: Global,
    program: &Program,
    table: &InstanceTable,
) -> Result<List<usize>, NoMemory>
    requires { spec.IsTableOfProgram program.now table.now }
    ensures rows { IfOk result (λ order. spec.AreRows table.now order) }
    ensures order { IfOk result
        (λ order. map (spec.instance_at table.now) order ≡ instances program.now) }
{
    let mut order = List::new(alloc);
    let mut waiting = List::new(alloc);
    waiting.push(Waiting {
        row: 0,
        left: program.modules.len(),
    })?;
    'rounds: while let Some(next) = waiting.pop() {
        order.push(next.row)?;
        push_inner(program, table, &mut waiting, next)?;
    }
    Ok(order)
}
