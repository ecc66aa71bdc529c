//! Splitting a list at one item, and reversing a list.

ghost use Rattle.std.specs.Prelude.{◌≡◌, ◌∷◌, ◌++◌, ◌<◌, ◌≤◌, length, reverse, IfOk, OnOk};

use smv_ast::{List, NoMemory};
use std::alloc::Global;

/// Splits off the last `count` items of the list, in their order.
fn take_last<T: Drop>(alloc: Global, list: &mut List<T>, count: usize) -> Result<List<T>, NoMemory>
    requires { count ≤ length list.old }
    ensures split { IfOk result (λ last. list.old ≡ list.new ++ last) }
    ensures count { IfOk result (λ last. length last ≡ count) }
{
    let mut reversed = List::new(alloc);
    'taking: for _taken in 0..count {
        if let Some(item) = list.pop() {
            reversed.push(item)?;
        }
    }
    let mut last = List::new(alloc);
    'restoring: for _restored in 0..count {
        if let Some(item) = reversed.pop() {
            last.push(item)?;
        }
    }
    Ok(last)
}

/// Splits the list at `at`: the item there, and the suffix after it.
pub fn take_at<T: Drop>(
    alloc: Global,
    list: &mut List<T>,
    at: usize,
) -> Result<(T, List<T>), NoMemory>
    requires { at < length list.old }
    ensures split { IfOk result (λ taken. list.old ≡ list.new ++ taken.0 ∷ taken.1) }
    ensures index { OnOk result (length list.new ≡ at) }
{
    let count = list.len() - at - 1;
    let after_it = take_last(alloc, list, count)?;
    let item = list.pop().unwrap();
    Ok((item, after_it))
}

/// The items in the opposite order.
pub fn reversed<T: Drop>(alloc: Global, list: List<T>) -> Result<List<T>, NoMemory>
    ensures { IfOk result (λ backwards. backwards ≡ reverse list) }
{
    let mut left = list;
    let mut backwards = List::new(alloc);
    for _round in 0..left.len() {
        if let Some(item) = left.pop() {
            backwards.push(item)?;
        }
    }
    Ok(backwards)
}
