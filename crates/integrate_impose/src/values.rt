//! The values of a type, as a choice in a right side.

ghost use Rattle.std.specs.Prelude.{◌≡◌, IfOk, map};
ghost use Rattle.integrate_impose.specs.TypeValues as spec;

use smv_ast::{Boxed, Choice, Expr, List, NoMemory, Path, SmvType, Span, Text};
use std::alloc::Global;

/// A number as an expression. No number of a model exceeds `u32`.
fn number(alloc: Global, n: i64) -> Result<Expr, NoMemory>
    ensures { IfOk result (λ e. e ≡ spec.number n) }
{
    let magnitude = n.unsigned_abs().min(4_294_967_295) as u32;
    if n >= 0 {
        return Ok(Expr::Number(magnitude));
    }
    Ok(Expr::Neg(Boxed::new(alloc, Expr::Number(magnitude))?))
}

fn symbol(alloc: Global, at: Span, name: &Text) -> Result<Expr, NoMemory>
    ensures { IfOk result (λ e. e ≡ spec.symbol at name.now) }
{
    let mut names = List::new(alloc);
    names.push(name.try_clone(alloc)?)?;
    Ok(Expr::Name(Path { names, at }))
}

fn all_numbers(alloc: Global, numbers: &[i64]) -> Result<List<Expr>, NoMemory>
    ensures { IfOk result (λ parts. parts ≡ map spec.number numbers.now) }
{
    let mut parts = List::new(alloc);
    for n in numbers {
        parts.push(number(alloc, *n)?)?;
    }
    Ok(parts)
}

fn all_symbols(alloc: Global, at: Span, names: &[Text]) -> Result<List<Expr>, NoMemory>
    ensures { IfOk result (λ parts. parts ≡ map (spec.symbol at) names.now) }
{
    let mut parts = List::new(alloc);
    for name in names {
        parts.push(symbol(alloc, at, name)?)?;
    }
    Ok(parts)
}

fn truth_values(alloc: Global) -> Result<List<Expr>, NoMemory>
    ensures { IfOk result (λ parts. parts ≡ spec.truth_values) }
{
    let mut parts = List::new(alloc);
    parts.push(Expr::False)?;
    parts.push(Expr::True)?;
    Ok(parts)
}

/// The set of all values of a type; the symbols have this span.
pub fn all_values(alloc: Global, at: Span, values: &SmvType) -> Result<Choice, NoMemory>
    ensures { IfOk result (λ choice. choice ≡ spec.all_values at values.now) }
{
    match values {
        SmvType::Boolean => Ok(Choice::Each(truth_values(alloc)?)),
        SmvType::Range { low, high } => Ok(Choice::Between {
            low: *low,
            high: *high,
        }),
        SmvType::Numbers(numbers) => Ok(Choice::Each(all_numbers(alloc, numbers.as_slice())?)),
        SmvType::Symbols(names) => Ok(Choice::Each(all_symbols(alloc, at, names.as_slice())?)),
    }
}
