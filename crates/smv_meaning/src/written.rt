//! Written states, looked up by the texts of paths.

ghost use Rattle.std.specs.Prelude.{◌≡◌, ℕ, List, IfOk, OnOk, Some, slice_get, if◌then◌else◌};
ghost use Rattle.std.specs.Str.{bytes_eq};
ghost use Rattle.smv_meaning.specs.Runs.{written_value};
ghost use Rattle.smv_meaning.specs.Written.{value_by, IsValueIndex};

use crate::run::{Named, RunState};
use crate::value::Value;
use smv_ast::NoMemory;
use sqlite_items::at;
use std::alloc::Global;
use std::collections::HashMap;

/// A written state with the index of its values.
#[derive(Drop)]
pub struct WrittenState<'a> {
    pub state: &'a RunState,
    /// The number of the first value for each text of a path.
    numbers: HashMap<&'a str, usize>,
    ghost is_index: { IsValueIndex state.now.values numbers },
}

/// Inserts the number of a value under the text of its path.
fn put<'a>(
    numbers: &mut HashMap<&'a str, usize>,
    values: &[Named],
    k: usize,
    named: &'a Named,
) -> Result<(), NoMemory>
    requires { slice_get values.now k ≡ Some named.now }
    ensures { OnOk result ((text : List ℕ) → value_by values.now numbers.new text
        ≡ (if bytes_eq named.now.path text then Some named.now.value else
        value_by values.now numbers.old text)) }
{
    numbers.insert(named.path.as_str(), k)?;
    Ok(())
}

/// The number of the first value for each text of a path.
fn numbers_of<'a>(alloc: Global, values: &'a [Named]) -> Result<HashMap<&'a str, usize>, NoMemory>
    ensures { IfOk result (IsValueIndex values.now) }
{
    let mut numbers = HashMap::new(alloc);
    let mut left = values.len();
    // Of two values for one path the first takes precedence, so it is inserted last.
    while left > 0 {
        left -= 1;
        put(&mut numbers, values, left, &values[left])?;
    }
    Ok(numbers)
}

impl<'a> WrittenState<'a> {
    /// The written state with its index.
    pub fn of_state(alloc: Global, state: &'a RunState) -> Result<WrittenState<'a>, NoMemory>
        ensures { IfOk result (λ w. w.state.now ≡ state.now) }
    {
        let numbers = numbers_of(alloc, state.values.as_slice())?;
        Ok(WrittenState { state, numbers })
    }

    /// The value for the text of a path; of two values for one path the first takes precedence.
    pub fn value_of(&self, alloc: Global, text: &str) -> Result<Option<Value>, NoMemory>
        ensures { IfOk result (λ v. v ≡ written_value self.now.state.now.values text.now) }
    {
        match self.numbers.get(text).copied() {
            Some(k) => match at(self.state.values.as_slice(), k) {
                Some(named) => Ok(Some(named.value.try_clone(alloc)?)),
                None => Ok(None),
            },
            None => Ok(None),
        }
    }
}
