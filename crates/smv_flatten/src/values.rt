//! The numbers that stand for the values of types.

ghost use Rattle.std.specs.Prelude.{◌≡◌, IfOk, map};
ghost use Rattle.smv_flatten.specs.Variables as spec;

use crate::names::symbol_number;
use flat_model::Values;
use indexmap::IndexSet;
use smv_ast::{List, NoMemory, SmvType, Text};
use std::alloc::Global;

/// The numbers of these symbols.
fn symbol_numbers(
    alloc: Global,
    symbols: &IndexSet<&str>,
    names: &[Text],
) -> Result<List<i64>, NoMemory>
    ensures { IfOk result (λ numbers. numbers ≡ map (spec.symbol_value symbols.now) names.now) }
{
    let mut numbers = List::new(alloc);
    for name in names {
        match i64::try_from(symbol_number(symbols, name.as_str())) {
            Ok(number) => numbers.push(number)?,
            Err(_) => return Err(NoMemory),
        }
    }
    Ok(numbers)
}

/// The numbers of the values of a type, in their order.
pub fn values_of(
    alloc: Global,
    symbols: &IndexSet<&str>,
    type_: &SmvType,
) -> Result<Values, NoMemory>
    ensures { IfOk result (λ values. values ≡ spec.values_of symbols.now type_.now) }
{
    match type_ {
        SmvType::Boolean => Ok(Values::Boolean),
        SmvType::Range { low, .. } => Ok(Values::Range { low: *low }),
        SmvType::Numbers(numbers) => {
            Ok(Values::Table(List::from_slice(alloc, numbers.as_slice())?))
        }
        SmvType::Symbols(names) => {
            Ok(Values::Table(symbol_numbers(alloc, symbols, names.as_slice())?))
        }
    }
}

/// A length as a number of values. No list in memory is too long for it.
fn count_of_list(len: usize) -> Result<u32, NoMemory>
    ensures { IfOk result (λ count. count ≡ len) }
{
    match u32::try_from(len) {
        Ok(count) => Ok(count),
        Err(_) => Err(NoMemory),
    }
}

/// How many numbers go from `low` up to `high`. The checks refuse an empty interval, and within the
/// limit of magnitude the number fits.
fn count_of_range(low: i64, high: i64) -> Result<u32, NoMemory>
    ensures { IfOk result (λ count. count ≡ spec.count_of_range low high) }
{
    let Some(more) = high.checked_sub(low) else {
        return Err(NoMemory);
    };
    let Ok(more) = u32::try_from(more) else {
        return Err(NoMemory);
    };
    match more.checked_add(1) {
        Some(count) => Ok(count),
        None => Err(NoMemory),
    }
}

/// How many values a type has.
pub fn count_of(type_: &SmvType) -> Result<u32, NoMemory>
    ensures { IfOk result (λ count. count ≡ spec.count_of type_.now) }
{
    match type_ {
        SmvType::Boolean => Ok(2),
        SmvType::Range { low, high } => count_of_range(*low, *high),
        SmvType::Numbers(numbers) => count_of_list(numbers.len()),
        SmvType::Symbols(names) => count_of_list(names.len()),
    }
}

/// Whether the values of a type are symbols.
pub fn is_symbolic(type_: &SmvType) -> bool
    ensures { result ≡ spec.is_symbolic type_.now }
{
    matches!(type_, SmvType::Symbols(_))
}
