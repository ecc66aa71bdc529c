//! The first values of introduced variables, as expressions.

ghost use Rattle.std.specs.Prelude.{◌≡◌, IfOk};
ghost use Rattle.integrate_impose.specs.TypeValues.{number};
ghost use Rattle.fsmv_lift.specs.FirstValues as spec;

use crate::names::name;
use smv_ast::{Boxed, Expr, NoMemory, SmvType, Text};
use std::alloc::Global;

/// A number of a type as an expression. No number of a model exceeds `u32`.
fn number(alloc: Global, n: i64) -> Result<Expr, NoMemory>
    ensures { IfOk result (λ e. e ≡ number n) }
{
    let magnitude = Expr::Number(n.unsigned_abs().min(4_294_967_295) as u32);
    if n < 0 {
        return Ok(Expr::Neg(Boxed::new(alloc, magnitude)?));
    }
    Ok(magnitude)
}

fn first_number(alloc: Global, numbers: &[i64]) -> Result<Expr, NoMemory>
    ensures { IfOk result (λ e. e ≡ spec.first_number numbers.now) }
{
    match numbers {
        [first, ..] => number(alloc, *first),
        [] => Ok(Expr::False),
    }
}

fn first_symbol(alloc: Global, names: &[Text]) -> Result<Expr, NoMemory>
    ensures { IfOk result (λ e. e ≡ spec.first_symbol names.now) }
{
    match names {
        [first, ..] => name(alloc, first.as_str()),
        [] => Ok(Expr::False),
    }
}

/// The first value of the type: FALSE, the low end of a range, or what an enumeration lists first.
pub fn first_of(alloc: Global, values: &SmvType) -> Result<Expr, NoMemory>
    ensures { IfOk result (λ e. e ≡ spec.first_of values.now) }
{
    match values {
        SmvType::Boolean => Ok(Expr::False),
        SmvType::Range { low, .. } => number(alloc, *low),
        SmvType::Numbers(numbers) => first_number(alloc, numbers.as_slice()),
        SmvType::Symbols(names) => first_symbol(alloc, names.as_slice()),
    }
}
