//! The rules of the text, in order.

ghost use Rattle.smv_meaning.specs.Faults.{ReportsFirst};
ghost use Rattle.smv_shape.specs.Shape as spec;

use crate::assigned::{check_doubles, check_targets};
use crate::rule::Rule;
use smv_ast::{Fault, Program};
use smv_meaning::items::program_items;
use smv_meaning::rules::check_items;
use std::alloc::Global;

/// The first fault of the text of all modules, with or without instances: EmptyRange anywhere comes
/// before ParameterAssign, then DoubleAssign, ChoicePlace and NextPlace, each in the order of the
/// text. Whether names are known and declared once is not checked here. The only other error is
/// `NoMemory`.
pub fn check_shape(alloc: Global, program: &Program) -> Result<(), Fault>
    ensures { ReportsFirst (spec.shape_fault program.now) result }
{
    let items = program_items(alloc, program)?;
    check_items(alloc, &Rule::Ranges, items.as_slice())?;
    check_targets(alloc, program)?;
    check_doubles(alloc, program)?;
    check_items(alloc, &Rule::Choices, items.as_slice())?;
    check_items(alloc, &Rule::Nexts, items.as_slice())
}
