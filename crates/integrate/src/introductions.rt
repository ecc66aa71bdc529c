//! What the features of a family introduce, and which of it clashes.

ghost use Rattle.std.specs.Prelude.{◌≡◌, IfOk};
ghost use Rattle.smv_meaning.specs.NameSets.{in_set};
ghost use Rattle.integrate.specs.Introductions.{clashes, is_family_symbol};
ghost use Rattle.integrate.specs.IntroductionTable as spec;

use crate::lookups::is_declared_in;
use crate::module_names::{ModuleNames, contains, introduced_names, repeated_of};
use crate::symbols::insert_features;
use smv_ast::{Feature, List, NoMemory, Program};
use smv_meaning::scope::{Scope, modules_by_name, scopes_of};
use smv_meaning::symbols::symbols_of;
use std::alloc::Global;
use std::collections::{HashMap, HashSet};

/// A family's base and features, with the tables of what they declare.
#[derive(Drop)]
pub struct Introductions<'a> {
    pub base: &'a Program,
    pub features: &'a [Feature],
    /// The modules of the base with their names.
    pub scopes: List<Scope<'a>>,
    /// The number of the first module of each name.
    pub numbers: HashMap<&'a str, usize>,
    /// The names that the features introduce more than once.
    pub repeated: ModuleNames<'a>,
    /// The symbols of all types of the family.
    pub symbols: HashSet<&'a str>,
}

/// The symbols of all types of a family.
#[tactic(auto, using(crate::proofs::LookupLemmas::family_symbols_are))]
fn family_symbols<'a>(
    alloc: Global,
    base: &'a Program,
    features: &'a [Feature],
) -> Result<HashSet<&'a str>, NoMemory>
    ensures { IfOk result (λ names. in_set names ≡ is_family_symbol base.now features.now) }
{
    let mut names = symbols_of(alloc, base)?;
    insert_features(&mut names, features)?;
    Ok(names)
}

impl<'a> Introductions<'a> {
    /// The tables of a family.
    pub fn of_family(
        alloc: Global,
        base: &'a Program,
        features: &'a [Feature],
    ) -> Result<Introductions<'a>, NoMemory>
        ensures tables { IfOk result spec.AreIntroductions }
        ensures base { IfOk result (λ t. t.base.now ≡ base.now) }
        ensures features { IfOk result (λ t. t.features.now ≡ features.now) }
    {
        let scopes = scopes_of(alloc, base)?;
        let numbers = modules_by_name(alloc, scopes.as_slice())?;
        let names = introduced_names(alloc, features)?;
        Ok(Introductions {
            base,
            features,
            scopes,
            numbers,
            repeated: repeated_of(alloc, names.as_slice())?,
            symbols: family_symbols(alloc, base, features)?,
        })
    }

    /// Whether the name is a symbol of a type in the family.
    fn is_symbol(&self, name: &str) -> bool
        requires { spec.AreIntroductions self.now }
        ensures { result ≡ is_family_symbol self.now.base.now self.now.features.now name.now }
    {
        self.symbols.contains(name)
    }

    /// Whether the family may not introduce the name into the module: the base declares it there, the
    /// family introduces it there more than once, or it is a symbol.
    pub fn clashes(&self, called: &str, name: &str) -> bool
        requires { spec.AreIntroductions self.now }
        ensures { result ≡ clashes self.now.base.now self.now.features.now called.now name.now }
    {
        is_declared_in(
            self.base,
            self.scopes.as_slice(),
            &self.numbers,
            called,
            name,
        ) || contains(&self.repeated, called, name)
            || self.is_symbol(name)
    }
}
