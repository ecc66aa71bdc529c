//! Instances of unknown modules, and a missing `main`.

ghost use Rattle.std.specs.Prelude.{◌≡◌, IfOk};
ghost use Rattle.smv_meaning.specs.Faults.{ReportsFirst};
ghost use Rattle.smv_meaning.specs.Items.{program_items as items_of_program};
ghost use Rattle.smv_meaning.specs.Runs.{first_fault};
ghost use Rattle.smv_names.specs.Modules as spec;

use crate::modules::Modules;
use smv_ast::{Declared, Fault, NoMemory, Span, Text};
use smv_meaning::items::{Item, program_items};
use smv_meaning::rules::{ItemRule, check_items};
use std::alloc::Global;

/// The rule that the program has the module of an instance.
#[derive(Drop)]
struct IsOfModule<'p> {
    modules: &'p Modules<'p>,
}

impl<'p> IsOfModule<'p> {
    fn fault(&self, alloc: Global, at: Span, what: &Declared) -> Result<Option<Fault>, NoMemory>
        ensures { IfOk result (λ fault. fault
            ≡ spec.unknown_declared self.now.modules.now.program.now at what.now) }
    {
        match what {
            Declared::Plain(_) => Ok(None),
            Declared::Instance { module, .. } => {
                if self.modules.named(module.as_str()).is_some() {
                    return Ok(None);
                }
                Ok(Some(Fault::UnknownModule {
                    at: Some(at),
                    name: module.try_clone(alloc)?,
                }))
            }
        }
    }
}

impl<'p> ItemRule<Fault> for IsOfModule<'p> {
    ghost use Rattle.smv_names.specs.Modules.{unknown_instance};

    ghost reports = { λ me. unknown_instance me.modules.now.program.now };

    fn judge(&self, alloc: Global, item: Item) -> Result<Option<Fault>, NoMemory> {
        match item {
            Item::Declaration(declaration) => {
                self.fault(alloc, declaration.at, &declaration.what)
            }
            _ => Ok(None),
        }
    }
}

fn check_instances(alloc: Global, modules: &Modules) -> Result<(), Fault>
    ensures { ReportsFirst (first_fault (spec.unknown_instance modules.now.program.now)
        (items_of_program modules.now.program.now)) result }
{
    let items = program_items(alloc, modules.program)?;
    let rule = IsOfModule { modules: &*modules };
    check_items(alloc, &rule, items.as_slice())
}

fn check_main(alloc: Global, modules: &Modules) -> Result<(), Fault>
    ensures { ReportsFirst (spec.missing_main modules.now.program.now) result }
{
    if modules.named("main").is_some() {
        return Ok(());
    }
    Err(Fault::UnknownModule {
        at: None,
        name: Text::from_str(alloc, "main")?,
    })
}

/// The first instance of an unknown module; without one, a missing `main`.
pub fn check_known_modules(alloc: Global, modules: &Modules) -> Result<(), Fault>
    ensures { ReportsFirst (spec.unknown_module_fault modules.now.program.now) result }
{
    check_instances(alloc, modules)?;
    check_main(alloc, modules)
}
