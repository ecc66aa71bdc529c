//! The number of nodes of the expression graph of a program's constraints and specs.

ghost use Rattle.std.specs.Prelude.{◌≡◌, ◌<◌, IfOk, OnOk, fold, length, slice_get};
ghost use Rattle.std.specs.List.{flat_map, IsDistinct};
ghost use Rattle.std.specs.Option.{option_map, option_to_list};
ghost use Rattle.indexmap.specs.IndexSet.{insert_key};
ghost use Rattle.smv_meaning.specs.Value.{and_then};
ghost use Rattle.smv_meaning.specs.Slots as slots;
ghost use Rattle.smv_meaning.specs.Checking as checking;
ghost use Rattle.smv_meaning.specs.InstanceTable.{binding_view};
ghost use Rattle.smv_nodes.specs.Own.{saturating_add};
ghost use Rattle.smv_nodes.specs.Mentions as mentions_spec;
ghost use Rattle.smv_nodes.specs.Count as spec;
ghost use Rattle.smv_nodes.specs.CountBySlot as by_slot;

use crate::mentions::{Mention, push_reads};
use crate::own::nodes_of;
use crate::read_exprs::{ReadExpr, table_exprs};
use indexmap::IndexSet;
use smv_ast::{NoMemory, Program};
use smv_meaning::aliases::resolve;
use smv_meaning::table::{Binding, InstanceTable};
use sqlite_items::at;
use std::alloc::Global;

/// The expression of a binding in an instance, now or after the step.
fn read_expr_of<'a>(row: usize, binding: Binding<'a>, after_step: bool) -> Option<ReadExpr<'a>>
    ensures { option_map by_slot.read_expr_view result
        ≡ and_then (spec.content row (binding_view binding.entry))
        (λ c. Some (spec.value_expr c.0 c.1 after_step)) }
{
    match binding {
        Binding::Define(right) => Some(ReadExpr {
            row,
            right,
            assigned: false,
            after_step,
        }),
        Binding::Formal(outer, actual) => Some(ReadExpr {
            row: outer,
            right: actual,
            assigned: false,
            after_step,
        }),
        _ => None,
    }
}

/// The expression of a slot, now or after the step.
fn shared_expr<'s, 'a>(
    table: &InstanceTable<'s, 'a>,
    slot: usize,
    after_step: bool,
) -> Option<ReadExpr<'a>>
    ensures { option_map by_slot.read_expr_view result
        ≡ spec.shared_expr (by_slot.of_table table.now) (slot, after_step) }
{
    match at(table.slots.as_slice(), slot).copied() {
        Some(slot) => read_expr_of(slot.row, slot.binding, after_step),
        None => None,
    }
}

/// The shared node of a name in an instance, if the name resolves to a definition or formal.
fn shared_by(
    table: &InstanceTable,
    aliases: &[Option<usize>],
    row: usize,
    mention: Mention,
) -> Option<(usize, bool)>
    requires has { slots.HasSlots table.now }
    requires is_of { slots.AreAliases table.now aliases.now }
    ensures { result ≡ spec.shared_by (by_slot.of_table table.now) row
        (mentions_spec.mention_view mention.entry) }
{
    match resolve(table, aliases, row, mention.path.names.as_slice()) {
        Some(slot) => match shared_expr(table, slot, mention.after_step) {
            Some(_) => Some((slot, mention.after_step)),
            None => None,
        },
        None => None,
    }
}

/// Inserts the shared node of a name, and returns the number of nodes that the name adds by itself.
fn insert_shared(
    found: &mut IndexSet<(usize, bool)>,
    shared: Option<(usize, bool)>,
) -> Result<u64, NoMemory>
    ensures own { IfOk result (λ n. n ≡ spec.name_nodes shared) }
    ensures found { OnOk result
        (found.new.keys ≡ fold (insert_key by_slot.same) found.old.keys (option_to_list shared)) }
{
    match shared {
        Some(shared) => {
            found.insert(shared)?;
            Ok(0)
        }
        None => Ok(1),
    }
}

/// Inserts the shared nodes of these names, and returns the nodes that the names add by themselves.
#[tactic(auto, using(crate::proofs::OwnLemmas::saturating_add_assoc, crate::proofs::OwnLemmas::saturating_add_more, crate::proofs::OwnLemmas::saturating_add_zero))]
fn take_names(
    found: &mut IndexSet<(usize, bool)>,
    table: &InstanceTable,
    aliases: &[Option<usize>],
    row: usize,
    mentions: &[Mention],
    before: u64,
) -> Result<u64, NoMemory>
    requires has { slots.HasSlots table.now }
    requires is_of { slots.AreAliases table.now aliases.now }
    ensures count { IfOk result
        (λ n. n ≡ saturating_add before (spec.names_nodes (by_slot.of_table table.now) row
        (mentions_spec.mention_views mentions.now))) }
    ensures found { OnOk result
        (found.new.keys ≡ fold (insert_key by_slot.same) found.old.keys
        (spec.shared_among (by_slot.of_table table.now) row
        (mentions_spec.mention_views mentions.now))) }
{
    let mut count = before;
    for mention in mentions {
        let own = insert_shared(found, shared_by(table, aliases, row, *mention))?;
        count = count.saturating_add(own);
    }
    Ok(count)
}

/// The nodes of an expression, without its names.
fn own_nodes(read_expr: ReadExpr) -> u64
    ensures { result ≡ spec.own_nodes (by_slot.read_expr_view read_expr.entry) }
{
    let nodes = nodes_of(read_expr.right);
    if read_expr.assigned {
        // The node of the variable comes first.
        nodes.right.saturating_add(1)
    } else {
        nodes.value
    }
}

/// Inserts the shared nodes that an expression reads, and adds its nodes.
#[tactic(auto, using(crate::proofs::OwnLemmas::saturating_add_assoc))]
fn take_expr(
    alloc: Global,
    found: &mut IndexSet<(usize, bool)>,
    table: &InstanceTable,
    aliases: &[Option<usize>],
    read_expr: ReadExpr,
    before: u64,
) -> Result<u64, NoMemory>
    requires has { slots.HasSlots table.now }
    requires is_of { slots.AreAliases table.now aliases.now }
    ensures count { IfOk result
        (λ n. n ≡ saturating_add before (spec.expr_nodes (by_slot.of_table table.now)
        (by_slot.read_expr_view read_expr.entry))) }
    ensures found { OnOk result
        (found.new.keys ≡ fold (insert_key by_slot.same) found.old.keys
        (spec.shared_in (by_slot.of_table table.now) (by_slot.read_expr_view read_expr.entry))) }
{
    let mut mentions = Vec::new(alloc);
    push_reads(&mut mentions, read_expr.right, read_expr.after_step)?;
    let count = before.saturating_add(own_nodes(read_expr));
    take_names(
        found,
        table,
        aliases,
        read_expr.row,
        mentions.as_slice(),
        count,
    )
}

/// Inserts and counts for all these expressions, from the empty set.
#[tactic(auto, using(crate::proofs::OwnLemmas::saturating_add_assoc, crate::proofs::OwnLemmas::saturating_add_more, crate::proofs::CountLemmas::exprs_whole))]
fn take_exprs(
    alloc: Global,
    found: &mut IndexSet<(usize, bool)>,
    table: &InstanceTable,
    aliases: &[Option<usize>],
    read_exprs: &[ReadExpr],
) -> Result<u64, NoMemory>
    requires has { slots.HasSlots table.now }
    requires is_of { slots.AreAliases table.now aliases.now }
    ensures count { IfOk result
        (λ n. n ≡ spec.exprs_nodes (by_slot.of_table table.now)
        (by_slot.read_expr_views read_exprs.now)) }
    ensures found { OnOk result
        (found.new.keys ≡ fold (insert_key by_slot.same) found.old.keys
        (flat_map (spec.shared_in (by_slot.of_table table.now))
        (by_slot.read_expr_views read_exprs.now))) }
{
    let mut count = 0;
    for read_expr in read_exprs {
        count = take_expr(alloc, found, table, aliases, *read_expr, count)?;
    }
    Ok(count)
}

/// Inserts and counts for the expression of a shared node.
#[tactic(auto, using(crate::proofs::CountLemmas::one_read_expr, crate::proofs::OwnLemmas::saturating_add_zero, crate::proofs::CountLemmas::one_shared))]
fn take_shared(
    alloc: Global,
    found: &mut IndexSet<(usize, bool)>,
    table: &InstanceTable,
    aliases: &[Option<usize>],
    shared: (usize, bool),
    before: u64,
) -> Result<u64, NoMemory>
    requires has { slots.HasSlots table.now }
    requires is_of { slots.AreAliases table.now aliases.now }
    ensures count { IfOk result
        (λ n. n ≡ saturating_add before (spec.exprs_nodes (by_slot.of_table table.now)
        (option_to_list (spec.shared_expr (by_slot.of_table table.now) shared)))) }
    ensures found { OnOk result
        (found.new.keys ≡ fold (insert_key by_slot.same) found.old.keys
        (flat_map (spec.shared_in (by_slot.of_table table.now))
        (option_to_list (spec.shared_expr (by_slot.of_table table.now) shared)))) }
{
    match shared_expr(table, shared.0, shared.1) {
        Some(read_expr) => take_expr(alloc, found, table, aliases, read_expr, before),
        None => Ok(before),
    }
}

/// The shared node at this index.
fn found_at(found: &IndexSet<(usize, bool)>, k: usize) -> Option<(usize, bool)>
    ensures found { result ≡ slice_get found.now.keys k }
    ensures once { IsDistinct by_slot.same found.now.keys }
{
    if k < found.len() {
        found.get_index(k).copied()
    } else {
        None
    }
}

/// The nodes of these expressions, and of all shared nodes that are reachable from them.
fn count_read_exprs(
    alloc: Global,
    table: &InstanceTable,
    aliases: &[Option<usize>],
    read_exprs: &[ReadExpr],
) -> Result<u64, NoMemory>
    requires has { slots.HasSlots table.now }
    requires is_of { slots.AreAliases table.now aliases.now }
    ensures { IfOk result (λ n. spec.IsCount (by_slot.of_table table.now)
        (by_slot.read_expr_views read_exprs.now) n) }
{
    let mut found = IndexSet::new(alloc);
    let mut count = take_exprs(alloc, &mut found, table, aliases, read_exprs)?;
    for k in 0..usize::MAX {
        match found_at(&found, k) {
            Some(shared) => {
                count = take_shared(alloc, &mut found, table, aliases, shared, count)?;
            }
            None => return Ok(count),
        }
    }
    // No set in memory has that many.
    Err(NoMemory)
}

/// The number of nodes of the constraints and specs of a program, given its instance table, the
/// order of the instances and the alias of each slot. Sums saturate at the end of `u64`. The only
/// error is `NoMemory`.
pub fn count_nodes(
    alloc: Global,
    program: &Program,
    table: &InstanceTable,
    aliases: &[Option<usize>],
    order: &[usize],
) -> Result<u64, NoMemory>
    requires right { checking.IsTableOfProgram program.now table.now }
    requires is_of { slots.AreAliases table.now aliases.now }
    requires rows { checking.AreRows table.now order.now }
    ensures { IfOk result (λ n. spec.IsCount (by_slot.of_table table.now)
        (by_slot.table_exprs program.now table.now order.now) n) }
{
    let read_exprs = table_exprs(alloc, program, table, order)?;
    count_read_exprs(alloc, table, aliases, read_exprs.as_slice())
}
