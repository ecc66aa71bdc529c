//! Rules on single items.

ghost use Rattle.std.specs.Prelude.{◌≡◌, IfOk};
ghost use Rattle.smv_meaning.specs.Faults.{ReportsFirst};
ghost use Rattle.smv_meaning.specs.Items.{items_view};
ghost use Rattle.smv_meaning.specs.Runs.{first_fault};

use crate::items::Item;
use smv_ast::{Fault, NoMemory};
use std::alloc::Global;

/// A rule on items, with its report of an item: a fault, a span, or nothing.
pub trait ItemRule<A> {
    ghost use Rattle.std.specs.Prelude.{◌≡◌, IfOk, Option};
    ghost use Rattle.smv_meaning.specs.Items.{Item, item_view};

    ghost reports: { Self → Item → Option A };

    /// The report of the rule on the item. The only error is `NoMemory`.
    fn judge(&self, alloc: Global, item: Item) -> Result<Option<A>, NoMemory>
        ensures { IfOk result (λ found. found ≡ reports self.now (item_view item.entry)) };
}

/// The first report of the rule on these items.
pub fn first_reported<A: Drop, R: ItemRule<A>>(
    alloc: Global,
    rule: &R,
    items: &[Item],
) -> Result<Option<A>, NoMemory>
    ensures { IfOk result (λ found. found
        ≡ first_fault (R.reports rule.now) (items_view items.now)) }
{
    for item in items {
        match rule.judge(alloc, *item)? {
            Some(found) => return Ok(Some(found)),
            None => {}
        }
    }
    Ok(None)
}

/// Returns the fault that was found, if there is one.
#[tactic(auto, using(crate::proofs::FaultLemmas::reported))]
pub fn report(found: Option<Fault>) -> Result<(), Fault>
    ensures { ReportsFirst found result }
{
    match found {
        Some(fault) => Err(fault),
        None => Ok(()),
    }
}

/// The fault of the first item that breaks the rule. The only other error is `NoMemory`.
pub fn check_items<R: ItemRule<Fault>>(alloc: Global, rule: &R, items: &[Item]) -> Result<(), Fault>
    ensures { ReportsFirst (first_fault (R.reports rule.now) (items_view items.now)) result }
{
    let found = first_reported(alloc, rule, items)?;
    report(found)
}
