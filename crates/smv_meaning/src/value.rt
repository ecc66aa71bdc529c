//! The values of variables and expressions.

ghost use Rattle.std.specs.Prelude.{◌≡◌, IfOk};
ghost use Rattle.smv_meaning.specs.Value as spec;

use smv_ast::{NoMemory, SmvType, Text};
use std::alloc::Global;

/// The value of a variable or an expression.
#[derive(Drop)]
pub enum Value {
    Boolean(bool),
    /// A whole number.
    Number(i64),
    /// A word of an enumeration.
    Symbol(Text),
}

impl Value {
    pub fn try_clone(&self, alloc: Global) -> Result<Value, NoMemory>
        ensures { IfOk result (λ v. v ≡ self.now) }
    {
        match self {
            Value::Boolean(truth) => Ok(Value::Boolean(*truth)),
            Value::Number(n) => Ok(Value::Number(*n)),
            Value::Symbol(name) => Ok(Value::Symbol(name.try_clone(alloc)?)),
        }
    }
}

/// The first value of a type, in the order of its values; none where it has no value.
pub fn first_value(alloc: Global, type_: &SmvType) -> Result<Option<Value>, NoMemory>
    ensures { IfOk result (λ v. v ≡ spec.first_value type_.now) }
{
    match type_ {
        SmvType::Boolean => Ok(Some(Value::Boolean(false))),
        SmvType::Range { low, high } => Ok(if *low <= *high {
            Some(Value::Number(*low))
        } else {
            None
        }),
        SmvType::Numbers(numbers) => Ok(numbers.get(0).map(|n| Value::Number(*n))),
        SmvType::Symbols(names) => match names.get(0) {
            Some(name) => Ok(Some(Value::Symbol(name.try_clone(alloc)?))),
            None => Ok(None),
        },
    }
}
