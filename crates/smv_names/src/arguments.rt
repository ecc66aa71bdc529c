//! Instances whose actuals and formals differ in number.

ghost use Rattle.std.specs.Prelude.{◌≡◌, IfOk};
ghost use Rattle.smv_meaning.specs.Faults.{ReportsFirst};
ghost use Rattle.smv_names.specs.Modules as spec;

use crate::modules::Modules;
use smv_ast::{Declared, Fault, Module, NoMemory, Span, Text};
use smv_meaning::items::{Item, items_of};
use smv_meaning::rules::{ItemRule, check_items};
use std::alloc::Global;

/// The rule that an instance has as many actuals as its module has formals.
#[derive(Drop)]
struct HasActuals<'p> {
    modules: &'p Modules<'p>,
}

impl<'p> HasActuals<'p> {
    fn fault(&self, alloc: Global, at: Span, what: &Declared) -> Result<Option<Fault>, NoMemory>
        ensures { IfOk result (λ fault. fault
            ≡ spec.miscounted_declared self.now.modules.now.program.now at what.now) }
    {
        match what {
            Declared::Plain(_) => Ok(None),
            Declared::Instance { module, actuals } => {
                match self.modules.named(module.as_str()) {
                    Some(owner) => {
                        if actuals.len() == owner.formals.len() {
                            return Ok(None);
                        }
                        Ok(Some(Fault::ArgumentCount {
                            at: Some(at),
                            name: module.try_clone(alloc)?,
                        }))
                    }
                    None => Ok(None),
                }
            }
        }
    }
}

impl<'p> ItemRule<Fault> for HasActuals<'p> {
    ghost use Rattle.smv_names.specs.Modules.{miscounted_instance};

    ghost reports = { λ me. miscounted_instance me.modules.now.program.now };

    fn judge(&self, alloc: Global, item: Item) -> Result<Option<Fault>, NoMemory> {
        match item {
            Item::Declaration(declaration) => {
                self.fault(alloc, declaration.at, &declaration.what)
            }
            _ => Ok(None),
        }
    }
}

fn check_main(alloc: Global, owner: &Module) -> Result<(), Fault>
    ensures { ReportsFirst (spec.main_formals owner.now) result }
{
    if owner.name.as_str() == "main" && owner.formals.len() != 0 {
        return Err(Fault::ArgumentCount {
            at: Some(owner.at),
            name: Text::from_str(alloc, "main")?,
        });
    }
    Ok(())
}

fn check_module(alloc: Global, rule: &HasActuals, owner: &Module) -> Result<(), Fault>
    ensures { ReportsFirst (spec.miscounted_within rule.now.modules.now.program.now owner.now) result }
{
    check_main(alloc, owner)?;
    let items = items_of(alloc, owner)?;
    check_items(alloc, rule, items.as_slice())
}

/// The first wrong number of actuals, or `main` with formals.
pub fn check_arguments(alloc: Global, modules: &Modules) -> Result<(), Fault>
    ensures { ReportsFirst (spec.argument_fault modules.now.program.now) result }
{
    let rule = HasActuals { modules: &*modules };
    for owner in modules.program.modules.as_slice() {
        check_module(alloc, &rule, owner)?;
    }
    Ok(())
}
