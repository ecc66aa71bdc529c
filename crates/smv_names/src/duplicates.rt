//! The first duplicate name.

ghost use Rattle.std.specs.Prelude.{◌≡◌, OnOk, IfOk, map, string_bytes};
ghost use Rattle.std.specs.Fmt.{signed_decimal};
ghost use Rattle.smv_meaning.specs.Faults.{ReportsFirst};
ghost use Rattle.smv_names.specs.Duplicates as spec;
ghost use Rattle.smv_meaning.specs.NameSets.{in_set, no_name};
ghost use Rattle.smv_names.specs.NumberSets.{has_number, no_number};

use crate::declared_names::{DeclaredName, declared_names_of};
use crate::number_sets::{insert_number, no_numbers};
use itoa::Buffer;
use smv_ast::{Fault, Module, NoMemory, Program, SmvType, Span, Text};
use smv_meaning::name_sets::{insert_name, no_names};
use std::alloc::Global;
use std::collections::HashSet;

/// Refuses a name that is in the set.
fn report_name(alloc: Global, seen: &HashSet<&str>, at: Span, name: &Text) -> Result<(), Fault>
    ensures { ReportsFirst (spec.duplicate_name (in_set seen.now) at name.now) result }
{
    if seen.contains(name.as_str()) {
        return Err(Fault::DuplicateName {
            at: Some(at),
            name: name.try_clone(alloc)?,
        });
    }
    Ok(())
}

/// Refuses a symbol that is in one of the sets.
fn report_symbol(
    alloc: Global,
    declared: &HashSet<&str>,
    seen: &HashSet<&str>,
    at: Span,
    name: &Text,
) -> Result<(), Fault>
    ensures { ReportsFirst (spec.duplicate_symbol (in_set declared.now) (in_set seen.now) at
        name.now) result }
{
    if seen.contains(name.as_str()) || declared.contains(name.as_str()) {
        return Err(Fault::DuplicateName {
            at: Some(at),
            name: name.try_clone(alloc)?,
        });
    }
    Ok(())
}

/// The symbols of a type.
fn check_symbols(
    alloc: Global,
    declared: &HashSet<&str>,
    at: Span,
    names: &[Text],
) -> Result<(), Fault>
    ensures { ReportsFirst (spec.duplicate_among_symbols at (in_set declared.now) no_name
        names.now) result }
{
    let mut seen = no_names(alloc);
    for name in names {
        report_symbol(alloc, declared, &seen, at, name)?;
        insert_name(&mut seen, name)?;
    }
    Ok(())
}

/// A number in decimal, with its sign if it is below 0.
fn number_text(alloc: Global, n: i64) -> Result<Text, NoMemory>
    ensures { IfOk result (λ text. text ≡ signed_decimal n) }
{
    let mut buffer = Buffer::new();
    Text::from_str(alloc, buffer.format(n))
}

/// Refuses a number that is in the set.
fn report_number(alloc: Global, seen: &HashSet<i64>, at: Span, n: &i64) -> Result<(), Fault>
    ensures { ReportsFirst (spec.duplicate_number (has_number seen.now) at n.now) result }
{
    if seen.contains(n) {
        return Err(Fault::DuplicateName {
            at: Some(at),
            name: number_text(alloc, *n)?,
        });
    }
    Ok(())
}

/// The numbers of a type.
fn check_numbers(alloc: Global, at: Span, numbers: &[i64]) -> Result<(), Fault>
    ensures { ReportsFirst (spec.duplicate_among_numbers at no_number numbers.now) result }
{
    let mut seen = no_numbers(alloc);
    for n in numbers {
        report_number(alloc, &seen, at, n)?;
        insert_number(&mut seen, *n)?;
    }
    Ok(())
}

/// The values of the type of a name.
fn check_type(
    alloc: Global,
    declared: &HashSet<&str>,
    at: Span,
    type_: Option<&SmvType>,
) -> Result<(), Fault>
    ensures { ReportsFirst (spec.duplicate_in_type at (in_set declared.now)
        (spec.type_view type_.entry)) result }
{
    match type_ {
        Some(SmvType::Numbers(numbers)) => check_numbers(alloc, at, numbers.as_slice()),
        Some(SmvType::Symbols(names)) => check_symbols(alloc, declared, at, names.as_slice()),
        _ => Ok(()),
    }
}

/// A name, and then the values of its type.
fn check_declared_name(
    alloc: Global,
    declared: &HashSet<&str>,
    seen: &HashSet<&str>,
    one: DeclaredName,
) -> Result<(), Fault>
    ensures { ReportsFirst (spec.duplicate_declared (in_set declared.now) (in_set seen.now)
        (spec.declared_name_view one.entry)) result }
{
    report_name(alloc, seen, one.at, one.name)?;
    check_type(alloc, declared, one.at, one.type_)
}

/// The names of a module, given the set of all of them.
fn check_declared_names(
    alloc: Global,
    declared: &HashSet<&str>,
    names: &[DeclaredName],
) -> Result<(), Fault>
    ensures { ReportsFirst (spec.duplicate_among_names (in_set declared.now) no_name
        (map spec.declared_name_view names.now)) result }
{
    let mut seen = no_names(alloc);
    for one in names {
        check_declared_name(alloc, declared, &seen, *one)?;
        insert_name(&mut seen, one.name)?;
    }
    Ok(())
}

/// The set of these names.
fn declared_of<'a>(alloc: Global, names: &[DeclaredName<'a>]) -> Result<HashSet<&'a str>, NoMemory>
    ensures { IfOk result (λ declared. in_set declared
        ≡ spec.declares (map spec.declared_name_view names.now)) }
{
    let mut declared = no_names(alloc);
    for one in names {
        insert_name(&mut declared, one.name)?;
    }
    Ok(declared)
}

/// The names that a module declares.
fn check_within(alloc: Global, owner: &Module) -> Result<(), Fault>
    ensures { ReportsFirst (spec.duplicate_within (spec.declared_names owner.now)) result }
{
    let names = declared_names_of(alloc, owner)?;
    let declared = declared_of(alloc, names.as_slice())?;
    check_declared_names(alloc, &declared, names.as_slice())
}

/// A module's own name, then the names that it declares.
fn check_module(alloc: Global, seen: &HashSet<&str>, owner: &Module) -> Result<(), Fault>
    ensures { ReportsFirst (spec.duplicate_at (in_set seen.now) owner.now) result }
{
    report_name(alloc, seen, owner.at, &owner.name)?;
    check_within(alloc, owner)
}

/// The first duplicate name of a program.
pub fn check_duplicates(alloc: Global, program: &Program) -> Result<(), Fault>
    ensures { ReportsFirst (spec.duplicate_fault program.now) result }
{
    let mut seen = no_names(alloc);
    for owner in program.modules.as_slice() {
        check_module(alloc, &seen, owner)?;
        insert_name(&mut seen, &owner.name)?;
    }
    Ok(())
}
