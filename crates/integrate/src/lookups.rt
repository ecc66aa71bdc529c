//! A model with the tables by which its names are looked up.

ghost use Rattle.std.specs.Prelude.{◌≡◌, IfOk, map};
ghost use Rattle.std.specs.Option.{option_map};
ghost use Rattle.smv_meaning.specs.Entries.{entity_view};
ghost use Rattle.smv_meaning.specs.Instances.{lookup, module_named};
ghost use Rattle.smv_meaning.specs.NameSets.{in_set};
ghost use Rattle.smv_meaning.specs.Scopes.{scope_view, scopes_of, IsModuleIndex};
ghost use Rattle.smv_names.specs.Unknown.{declared_in};
ghost use Rattle.integrate.specs.Lookups as spec;
ghost use Rattle.integrate.specs.UsedNames.{missing_module, missing_target};

use crate::names::MissingName;
use smv_ast::{NoMemory, Program, Span, Text};
use smv_meaning::entries::Entity;
use smv_meaning::name_sets::{insert_name, no_names};
use smv_meaning::scope::{Scope, names_in};
use smv_names::known::Resolver;
use std::alloc::Global;
use std::collections::{HashMap, HashSet};

/// A model with the tables by which its names are looked up.
#[derive(Drop)]
pub struct Lookups<'p> {
    /// The tables by which paths are resolved.
    pub resolver: &'p Resolver<'p>,
    /// The modules with their names.
    pub scopes: &'p [Scope<'p>],
    /// The number of the first module of each name.
    pub numbers: &'p HashMap<&'p str, usize>,
    /// The names of all modules.
    pub modules: &'p HashSet<&'p str>,
}

/// The names of the modules of a model.
#[tactic(auto, using(crate::proofs::LookupLemmas::modules_are))]
pub fn module_set<'a>(alloc: Global, program: &'a Program) -> Result<HashSet<&'a str>, NoMemory>
    ensures { IfOk result (λ names. in_set names ≡ spec.has_module program.now) }
{
    let names = names_of_modules(alloc, program)?;
    Ok(names)
}

fn names_of_modules<'a>(alloc: Global, program: &'a Program) -> Result<HashSet<&'a str>, NoMemory>
    ensures { IfOk result (λ names. in_set names ≡ spec.among_modules program.now) }
{
    let mut names = no_names(alloc);
    for owner in program.modules.as_slice() {
        insert_name(&mut names, &owner.name)?;
    }
    Ok(names)
}

/// The entity of a name in the first module of a name.
pub fn entity_in<'a>(
    program: &Program,
    scopes: &[Scope<'a>],
    numbers: &HashMap<&'a str, usize>,
    called: &str,
    name: &str,
) -> Option<Entity<'a>>
    requires scopes { map scope_view scopes.now ≡ scopes_of program.now }
    requires numbers { IsModuleIndex scopes.now numbers.now }
    ensures { option_map entity_view result ≡ lookup (module_named program.now called.now) name.now }
{
    match names_in(scopes, numbers, called) {
        Some(names) => names.entity_of(name),
        None => None,
    }
}

/// Whether the first module of a name declares a name.
pub fn is_declared_in<'a>(
    program: &Program,
    scopes: &[Scope<'a>],
    numbers: &HashMap<&'a str, usize>,
    called: &str,
    name: &str,
) -> bool
    requires scopes { map scope_view scopes.now ≡ scopes_of program.now }
    requires numbers { IsModuleIndex scopes.now numbers.now }
    ensures { result ≡ declared_in program.now called.now name.now }
{
    entity_in(program, scopes, numbers, called, name).is_some()
}

impl<'p> Lookups<'p> {
    /// The entity of a name in a module.
    pub fn entity(&self, called: &str, name: &str) -> Option<Entity<'p>>
        requires { spec.AreLookups self.now }
        ensures { option_map entity_view result
            ≡ lookup (module_named (spec.program_of self.now) called.now) name.now }
    {
        entity_in(
            self.resolver.program,
            self.scopes,
            self.numbers,
            called,
            name,
        )
    }

    /// Whether the model has a module of this name.
    fn has_module(&self, called: &Text) -> bool
        requires { spec.AreLookups self.now }
        ensures { result ≡ spec.has_module (spec.program_of self.now) called.now }
    {
        self.modules.contains(called.as_str())
    }

    /// A module that the model does not have.
    pub fn missing_module(
        &self,
        alloc: Global,
        called: &Text,
        at: Span,
    ) -> Result<Option<MissingName>, NoMemory>
        requires { spec.AreLookups self.now }
        ensures { IfOk result (λ found. found
            ≡ missing_module (spec.program_of self.now) called.now at) }
    {
        if self.has_module(called) {
            return Ok(None);
        }
        Ok(Some(MissingName {
            name: called.try_clone(alloc)?,
            at,
        }))
    }

    /// A name that the module does not declare.
    pub fn missing_target(
        &self,
        alloc: Global,
        called: &str,
        at: Span,
        name: &Text,
    ) -> Result<Option<MissingName>, NoMemory>
        requires { spec.AreLookups self.now }
        ensures { IfOk result (λ found. found
            ≡ missing_target (spec.program_of self.now) called.now at name.now) }
    {
        if self.entity(called, name.as_str()).is_some() {
            return Ok(None);
        }
        Ok(Some(MissingName {
            name: name.try_clone(alloc)?,
            at,
        }))
    }
}
