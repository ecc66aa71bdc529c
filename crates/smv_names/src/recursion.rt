//! Recursive modules: modules on a cycle of instance declarations.

ghost use Rattle.std.specs.Prelude.{◌≡◌, ◌++◌, IfOk, OnOk};
ghost use Rattle.smv_meaning.specs.Faults.{ReportsFirst};
ghost use Rattle.smv_meaning.specs.Items.{item_view};
ghost use Rattle.smv_names.specs.Recursion as spec;

use crate::modules::Modules;
use graph::Search;
use smv_ast::{Declared, Fault, List, Module, NoMemory};
use smv_meaning::items::{Item, items_of};
use std::alloc::Global;

/// Adds the number of the module of an instance, if the declaration is one.
fn push_declared(
    calls: &mut List<usize>,
    modules: &Modules,
    what: &Declared,
) -> Result<(), NoMemory>
    ensures { OnOk result (calls.new ≡ calls.old ++ spec.called_declared modules.now.program.now what.now) }
{
    match what {
        Declared::Plain(_) => Ok(()),
        Declared::Instance { module, .. } => match modules.number_of(module.as_str()) {
            Some(number) => {
                calls.push(number)?;
                Ok(())
            }
            None => Ok(()),
        },
    }
}

fn push_item(calls: &mut List<usize>, modules: &Modules, item: Item) -> Result<(), NoMemory>
    ensures { OnOk result (calls.new
        ≡ calls.old ++ spec.called_by modules.now.program.now (item_view item.entry)) }
{
    match item {
        Item::Declaration(declaration) => { push_declared(calls, modules, &declaration.what) }
        _ => Ok(()),
    }
}

/// The numbers of the modules whose instances a module declares.
fn calls_of(alloc: Global, modules: &Modules, owner: &Module) -> Result<List<usize>, NoMemory>
    ensures { IfOk result (λ calls. calls ≡ spec.called_within modules.now.program.now owner.now) }
{
    let items = items_of(alloc, owner)?;
    let mut calls = List::new(alloc);
    for item in items.as_slice() {
        push_item(&mut calls, modules, *item)?;
    }
    Ok(calls)
}

/// The graph of modules: the successors of a module are the modules of its instances.
fn graph_of(alloc: Global, modules: &Modules) -> Result<List<List<usize>>, NoMemory>
    ensures { IfOk result (λ graph. graph ≡ spec.graph modules.now.program.now) }
{
    let mut graph = List::new(alloc);
    for owner in modules.program.modules.as_slice() {
        graph.push(calls_of(alloc, modules, owner)?)?;
    }
    Ok(graph)
}

/// Refuses a module that is on a cycle.
fn check_module(alloc: Global, search: &Search, k: usize, owner: &Module) -> Result<(), Fault>
    ensures { ReportsFirst (spec.recursive_at search.now.graph.now k owner.now) result }
{
    if search.is_on_cycle(alloc, k)? {
        return Err(Fault::RecursiveModule {
            at: Some(owner.at),
            name: owner.name.try_clone(alloc)?,
        });
    }
    Ok(())
}

fn check_graph(alloc: Global, graph: &[List<usize>], modules: &[Module]) -> Result<(), Fault>
    ensures { ReportsFirst (spec.recursive_from graph.now 0 modules.now) result }
{
    let search = Search::of_graph(alloc, graph)?;
    let mut k = 0;
    for owner in modules {
        check_module(alloc, &search, k, owner)?;
        k += 1;
    }
    Ok(())
}

/// The first module that is on a cycle.
pub fn check_recursion(alloc: Global, modules: &Modules) -> Result<(), Fault>
    ensures { ReportsFirst (spec.recursion_fault modules.now.program.now) result }
{
    let graph = graph_of(alloc, modules)?;
    check_graph(alloc, graph.as_slice(), modules.program.modules.as_slice())
}
