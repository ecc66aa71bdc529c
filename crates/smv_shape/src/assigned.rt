//! Left sides of assignments.

ghost use Rattle.std.specs.Prelude.{◌≡◌, ◌&&◌, ◌||◌, [], List, ℕ, IfOk, OnOk, false};
ghost use Rattle.std.specs.Str.{bytes_eq};
ghost use Rattle.smv_ast.specs.declared.program.Left.{Left as LeftSide};
ghost use Rattle.smv_meaning.specs.Entries.{entries_view, entity_view, entity_among};
ghost use Rattle.smv_meaning.specs.Faults.{ReportsFirst};
ghost use Rattle.smv_meaning.specs.Items.{item_view, items_view};
ghost use Rattle.smv_meaning.specs.NameSets.{in_set};
ghost use Rattle.smv_shape.specs.Assigned as spec;

use crate::names::{has, put};
use smv_ast::{Fault, Left, Module, NoMemory, Program};
use smv_meaning::entries::{Entity, Entry, entries_of};
use smv_meaning::items::{Item, items_of};
use smv_meaning::rules::{ItemRule, check_items};
use std::alloc::Global;
use std::collections::HashSet;

/// Whether a name with this entity is no variable.
fn is_fixed(entity: &Entity) -> bool
    ensures { result ≡ spec.is_fixed (entity_view entity.now) }
{
    match entity {
        Entity::Variable(_) => false,
        _ => true,
    }
}

/// The set of these entries' names that are no variables.
fn fixed_names<'a>(alloc: Global, entries: &[Entry<'a>]) -> Result<HashSet<&'a str>, NoMemory>
    ensures { IfOk result (λ names. (name : List ℕ) → in_set names name
        ≡ spec.is_fixed_name (entity_among (entries_view entries.now) name)) }
{
    let mut names = HashSet::new(alloc);
    let mut left = entries.len();
    // The first entry of a name takes precedence, so it is inserted last.
    while left > 0 {
        left -= 1;
        let entry = entries[left];
        put(&mut names, entry.name.as_str(), is_fixed(&entry.entity))?;
    }
    Ok(names)
}

/// The rule that no assignment is to one of these names.
#[derive(Drop)]
struct NoTarget<'a> {
    names: HashSet<&'a str>,
}

impl<'a> ItemRule<Fault> for NoTarget<'a> {
    ghost use Rattle.smv_meaning.specs.NameSets.{in_set};
    ghost use Rattle.smv_shape.specs.Assigned.{target_fault};

    ghost reports = { λ me. target_fault (in_set me.names) };

    fn judge(&self, alloc: Global, item: Item) -> Result<Option<Fault>, NoMemory> {
        match item {
            Item::Assignment(assignment) => {
                if has(&self.names, assignment.name.as_str()) {
                    return Ok(Some(Fault::ParameterAssign {
                        at: Some(assignment.at),
                        name: assignment.name.try_clone(alloc)?,
                    }));
                }
                Ok(None)
            }
            _ => Ok(None),
        }
    }
}

fn check_targets_of(alloc: Global, owner: &Module) -> Result<(), Fault>
    ensures { ReportsFirst (spec.target_within owner.now) result }
{
    let entries = entries_of(alloc, owner)?;
    let names = fixed_names(alloc, entries.as_slice())?;
    let items = items_of(alloc, owner)?;
    check_items(alloc, &NoTarget { names }, items.as_slice())
}

/// The first assignment of the program whose left side is a formal, a definition or an instance.
pub fn check_targets(alloc: Global, program: &Program) -> Result<(), Fault>
    ensures { ReportsFirst (spec.parameter_fault program.now) result }
{
    for owner in program.modules.as_slice() {
        check_targets_of(alloc, owner)?;
    }
    Ok(())
}

/// The names with left sides, by form of the left side.
#[derive(Drop)]
struct Lefts<'a> {
    first: HashSet<&'a str>,
    next: HashSet<&'a str>,
    each: HashSet<&'a str>,
}

impl<'a> Lefts<'a> {
    fn new(alloc: Global) -> Lefts<'a>
        ensures { (left : LeftSide) (name : List ℕ) → spec.holds result left name ≡ false }
    {
        Lefts {
            first: HashSet::new(alloc),
            next: HashSet::new(alloc),
            each: HashSet::new(alloc),
        }
    }

    /// Whether a left side clashes with one of these.
    fn clash(&self, left: Left, name: &str) -> bool
        ensures { result ≡ spec.clash_by (spec.holds self.now) left name.now }
    {
        match left {
            Left::Init => self.first.contains(name) || self.each.contains(name),
            Left::Next => self.next.contains(name) || self.each.contains(name),
            Left::Now => {
                self.each.contains(name) || self.first.contains(name) || self.next.contains(name)
            }
        }
    }

    /// The fault of an assignment that clashes with one of these.
    fn fault(&self, alloc: Global, item: Item) -> Result<Option<Fault>, NoMemory>
        ensures { IfOk result (λ fault. fault
            ≡ spec.clash_fault (spec.clash_by (spec.holds self.now)) (item_view item.entry)) }
    {
        match item {
            Item::Assignment(assignment) => {
                if self.clash(assignment.left, assignment.name.as_str()) {
                    return Ok(Some(Fault::DoubleAssign {
                        at: Some(assignment.at),
                        name: assignment.name.try_clone(alloc)?,
                    }));
                }
                Ok(None)
            }
            _ => Ok(None),
        }
    }

    fn add(&mut self, left: Left, name: &'a str) -> Result<(), NoMemory>
        ensures { OnOk result ((other : LeftSide) (word : List ℕ) → spec.holds self.new other word
            ≡ ((spec.same_left left other && bytes_eq name.now word)
            || spec.holds self.old other word)) }
    {
        match left {
            Left::Init => put(&mut self.first, name, true),
            Left::Next => put(&mut self.next, name, true),
            Left::Now => put(&mut self.each, name, true),
        }
    }

    /// Inserts the left side of an assignment.
    fn add_item(&mut self, item: Item<'a>) -> Result<(), NoMemory>
        ensures { OnOk result ((other : LeftSide) (word : List ℕ) → spec.holds self.new other word
            ≡ (spec.assigns (item_view item.entry) other word || spec.holds self.old other word)) }
    {
        match item {
            Item::Assignment(assignment) => {
                self.add(assignment.left, assignment.name.as_str())?;
                Ok(())
            }
            _ => Ok(()),
        }
    }
}

/// The first of these items that clashes with an earlier one.
fn check_double(alloc: Global, items: &[Item]) -> Result<(), Fault>
    ensures { ReportsFirst (spec.double_after [] (items_view items.now)) result }
{
    let mut lefts = Lefts::new(alloc);
    for item in items {
        match lefts.fault(alloc, *item)? {
            Some(fault) => return Err(fault),
            None => {}
        }
        lefts.add_item(*item)?;
    }
    Ok(())
}

fn check_doubles_of(alloc: Global, owner: &Module) -> Result<(), Fault>
    ensures { ReportsFirst (spec.double_within owner.now) result }
{
    let items = items_of(alloc, owner)?;
    check_double(alloc, items.as_slice())
}

/// The first assignment of the program that clashes with an earlier one of its module.
pub fn check_doubles(alloc: Global, program: &Program) -> Result<(), Fault>
    ensures { ReportsFirst (spec.double_fault program.now) result }
{
    for owner in program.modules.as_slice() {
        check_doubles_of(alloc, owner)?;
    }
    Ok(())
}
