//! The instance table: the instances of a program by number, each before those that it declares,
//! and the bindings of their names.

ghost use Rattle.std.specs.Prelude.{◌≡◌, ◌<◌, ◌++◌, [], ◌∷◌, length, OnOk, IfOk, IfSome, OnSome, Some, true, slice_get, map};
ghost use Rattle.std.specs.Option.{option_map, option_copied};
ghost use Rattle.smv_ast.specs.declared.program.Program.{Program};
ghost use Rattle.smv_meaning.specs.Value.{and_then};
ghost use Rattle.smv_meaning.specs.Instances as spec;
ghost use Rattle.smv_meaning.specs.Entries.{entry_view, entries_view, entity_view, entity_among, first_index};
ghost use Rattle.smv_meaning.specs.Scopes.{scope_view, scopes_of, IsModuleIndex};
ghost use Rattle.smv_meaning.specs.InstanceTable as table;

use crate::entries::{Entity, Entry};
use crate::names::Names;
use crate::scope::{Scope, entries_found, modules_by_name, names_in};
use smv_ast::{Expr, List, NoMemory, Program, Text};
use sqlite_items::at;
use std::alloc::Global;
use std::collections::HashMap;

/// The declaration of an instance: the number of its outer instance, its name there, and its
/// module.
#[derive(Clone, Copy, Drop)]
pub struct Link<'a> {
    pub outer: usize,
    pub name: &'a Text,
    pub called: &'a Text,
}

/// The name of the module of the instance with this link.
pub fn called_of<'a>(link: Option<Link<'a>>) -> &'a str
    ensures { result.now ≡ table.called_of link.entry }
{
    match link {
        Some(link) => link.called.as_str(),
        None => "main",
    }
}

/// An instance, with the names of its module, if there is one. `main` has no link.
#[derive(Clone, Copy, Drop)]
pub struct Row<'s, 'a> {
    pub link: Option<Link<'a>>,
    pub names: Option<&'s Names<'a>>,
    /// The number of instances that enclose it.
    pub depth: usize,
}

impl<'s, 'a> Row<'s, 'a> {
    /// The names of the instance, in the order of the text.
    pub fn entries(&self) -> &'s [Entry<'a>]
        ensures entries { entries_view result.now ≡ table.row_names self.now }
        ensures count { length result.now ≡ length (table.row_names self.now) }
    {
        entries_found(self.names)
    }

    /// The index of its first entry of this name.
    pub fn index_of(&self, name: &str) -> Option<usize>
        ensures { result ≡ first_index name.now (table.row_names self.now) }
    {
        match self.names {
            Some(names) => names.index_of(name),
            None => None,
        }
    }

    /// The entity of a name; of equal names the first takes precedence.
    pub fn entity_of(&self, name: &str) -> Option<Entity<'a>>
        ensures { option_map entity_view result ≡ entity_among (table.row_names self.now) name.now }
    {
        match self.names {
            Some(names) => names.entity_of(name),
            None => None,
        }
    }
}

/// The binding of a name in an instance. Instances are given by number.
#[derive(Clone, Copy, Drop)]
pub enum Binding<'a> {
    Variable,
    Instance(usize),
    Define(&'a Expr),
    /// An alias of this expression, whose names are read in the instance of this number.
    Formal(usize, &'a Expr),
    /// A formal without an actual.
    Nothing,
}

/// A name of an instance, with its binding.
#[derive(Clone, Copy, Drop)]
pub struct Slot<'a> {
    pub row: usize,
    pub name: &'a Text,
    pub binding: Binding<'a>,
}

/// The binding of the k-th formal of an instance that the outer instance declares by this entity.
fn formal_by<'a>(outer: usize, entity: Option<Entity<'a>>, k: usize) -> Binding<'a>
    ensures { table.binding_view result
        ≡ spec.formal_by outer (option_map entity_view entity.entry) k }
{
    match entity {
        Some(Entity::Inner { actuals, .. }) => match actuals.get(k) {
            Some(actual) => Binding::Formal(outer, actual),
            None => Binding::Nothing,
        },
        _ => Binding::Nothing,
    }
}

/// The binding of the k-th formal of an instance with this link.
#[tactic(auto, using(crate::proofs::InstanceTableLemmas::entries_at_index))]
fn formal_of<'s, 'a>(rows: &[Row<'s, 'a>], link: Link<'a>, k: usize) -> Binding<'a>
    requires { link.outer < length rows.now }
    ensures { table.binding_view result ≡ table.formal_linked rows.now link.entry k }
{
    let outer = rows[link.outer];
    formal_by(link.outer, outer.entity_of(link.name.as_str()), k)
}

/// The binding of a name with this entity. An instance that it declares gets the number `next`, if
/// instances go `deeper`.
fn binding_in_row<'s, 'a>(
    rows: &[Row<'s, 'a>],
    row: Row<'s, 'a>,
    deeper: bool,
    next: usize,
    entity: Entity<'a>,
) -> Binding<'a>
    requires { IfSome row.link (λ link. link.outer < length rows.now) }
    ensures { table.binding_view result
        ≡ table.binding_in_row rows.now row.entry deeper next (entity_view entity.entry) }
{
    match entity {
        Entity::Variable(_) => Binding::Variable,
        Entity::Inner { .. } => {
            if deeper {
                Binding::Instance(next)
            } else {
                Binding::Nothing
            }
        }
        Entity::Defined(right) => Binding::Define(right),
        Entity::Formal(k) => match row.link {
            Some(link) => formal_of(rows, link, k),
            None => Binding::Nothing,
        },
    }
}

/// The name of the module of the instance that an entity declares, if it does and instances go
/// `deeper`.
fn called_by<'a>(deeper: bool, entity: Entity<'a>) -> Option<&'a Text>
    ensures called { option_copied result ≡ table.called_by deeper (entity_view entity.entry) }
    ensures deeper { OnSome result (deeper ≡ true) }
{
    match entity {
        Entity::Inner { called, .. } => { if deeper { Some(called) } else { None } }
        _ => None,
    }
}

/// Appends the slot of the next name of an instance, and the row of the instance that it declares,
/// if it does.
fn add_entry<'s, 'a>(
    program: &Program,
    scopes: &'s [Scope<'a>],
    numbers: &HashMap<&'a str, usize>,
    rows: &mut List<Row<'s, 'a>>,
    slots: &mut List<Slot<'a>>,
    r: usize,
    row: Row<'s, 'a>,
    entry: Entry<'a>,
) -> Result<(), NoMemory>
    requires scopes { map scope_view scopes.now ≡ scopes_of program.now }
    requires numbers { IsModuleIndex scopes.now numbers.now }
    requires rows { table.AreRowsOfProgram program.now rows.old }
    requires row { slice_get rows.old r ≡ Some row }
    ensures extends { OnOk result (table.Extends rows.old rows.new) }
    ensures rows { OnOk result (table.AreRowsOfProgram program.now rows.new) }
    ensures inner { OnOk result
        (table.AddsInner program.now r (entry_view entry.entry ∷ []) rows.old rows.new) }
    ensures slots { OnOk result
        (table.AddsSlot program.now rows.new r (entry_view entry.entry) slots.old slots.new) }
{
    let deeper = row.depth < program.modules.len();
    let Some(called) = called_by(deeper, entry.entity) else {
        let binding = binding_in_row(rows.as_slice(), row, deeper, rows.len(), entry.entity);
        slots.push(Slot {
            row: r,
            name: entry.name,
            binding,
        })?;
        return Ok(());
    };
    slots.push(Slot {
        row: r,
        name: entry.name,
        binding: Binding::Instance(rows.len()),
    })?;
    let link = Link {
        outer: r,
        name: entry.name,
        called,
    };
    rows.push(Row {
        link: Some(link),
        names: names_in(scopes, numbers, called.as_str()),
        depth: row.depth + 1,
    })?;
    Ok(())
}

/// Appends the slots of an instance, and the rows of the instances that it declares.
fn expand<'s, 'a>(
    program: &Program,
    scopes: &'s [Scope<'a>],
    numbers: &HashMap<&'a str, usize>,
    rows: &mut List<Row<'s, 'a>>,
    slots: &mut List<Slot<'a>>,
    r: usize,
    row: Row<'s, 'a>,
) -> Result<(), NoMemory>
    requires scopes { map scope_view scopes.now ≡ scopes_of program.now }
    requires numbers { IsModuleIndex scopes.now numbers.now }
    requires rows { table.AreRowsOfProgram program.now rows.old }
    requires row { slice_get rows.old r ≡ Some row }
    ensures extends { OnOk result (table.Extends rows.old rows.new) }
    ensures rows { OnOk result (table.AreRowsOfProgram program.now rows.new) }
    ensures inner { OnOk result
        (table.AddsInner program.now r (table.row_names row.entry) rows.old rows.new) }
    ensures appended { OnOk result
        (table.AppendsSlots (length (table.row_names row.entry)) slots.old slots.new) }
    ensures slots { OnOk result
        (table.AreSlotsUpTo program.now rows.new slots.new r (length slots.old)
        (table.row_names row.entry) (length (table.row_names row.entry))) }
{
    let entries = row.entries();
    for entry in entries {
        add_entry(program, scopes, numbers, rows, slots, r, row, *entry)?;
    }
    Ok(())
}

/// The instances of a program by number, and the bindings of their names.
#[derive(Drop)]
pub struct InstanceTable<'s, 'a> {
    pub rows: List<Row<'s, 'a>>,
    /// The number of the first slot of each row.
    pub firsts: List<usize>,
    pub slots: List<Slot<'a>>,
}

/// The instance table of a program; none where there are `most` instances or more.
pub fn instance_table<'s, 'a>(
    alloc: Global,
    program: &Program,
    scopes: &'s [Scope<'a>],
    most: usize,
) -> Result<Option<InstanceTable<'s, 'a>>, NoMemory>
    requires scopes { map scope_view scopes.now ≡ scopes_of program.now }
    ensures right { IfOk result
        (λ t. IfSome t (λ t. table.IsTableOf program.now t.rows t.firsts t.slots)) }
    ensures count { IfOk result (λ t. table.Counts program.now most (option_map (λ t. t.rows) t)) }
{
    let numbers = modules_by_name(alloc, scopes)?;
    let mut rows = List::new(alloc);
    let mut firsts = List::new(alloc);
    let mut slots = List::new(alloc);
    rows.push(Row {
        link: None,
        names: names_in(scopes, &numbers, "main"),
        depth: 0,
    })?;
    for r in 0..most {
        let Some(row) = at(rows.as_slice(), r).copied() else {
            return Ok(Some(InstanceTable {
                rows,
                firsts,
                slots,
            }));
        };
        firsts.push(slots.len())?;
        expand(program, scopes, &numbers, &mut rows, &mut slots, r, row)?;
    }
    Ok(None)
}

/// The instance table of a program, whatever the number of its instances.
pub fn whole_table<'s, 'a>(
    alloc: Global,
    program: &Program,
    scopes: &'s [Scope<'a>],
) -> Result<InstanceTable<'s, 'a>, NoMemory>
    requires { map scope_view scopes.now ≡ scopes_of program.now }
    ensures right { IfOk result (λ t. table.IsTableOf program.now t.rows t.firsts t.slots) }
    ensures count { IfOk result (λ t. length t.rows ≡ length (spec.instances program.now)) }
{
    match instance_table(alloc, program, scopes, usize::MAX)? {
        Some(table) => Ok(table),
        // No table in memory has that many instances.
        None => Err(NoMemory),
    }
}
