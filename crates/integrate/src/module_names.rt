//! Names in modules: lists of those that are introduced, and sets.

ghost use Rattle.std.specs.Prelude.{◌≡◌, ◌++◌, IfOk, OnOk};
ghost use Rattle.smv_meaning.specs.Value.{Name};
ghost use Rattle.integrate.specs.Introductions as spec;
ghost use Rattle.integrate.specs.ModuleNames.{in_names, name_view, names_view, no_name, and_name, and_names, met_again, all_met};

use smv_ast::{Declaration, Declared, Feature, Joined, List, NoMemory, Section, Text};
use std::alloc::Global;
use std::collections::HashSet;

/// The name of a module, and a name in it.
pub type ModuleName<'a> = (&'a str, &'a str);

/// A set of names in modules.
pub type ModuleNames<'a> = HashSet<ModuleName<'a>>;

// ---- lists

/// Appends the names that the section declares in the module.
fn push_section<'a>(
    names: &mut List<ModuleName<'a>>,
    called: &'a Text,
    section: &'a Section,
) -> Result<(), NoMemory>
    ensures { OnOk result (names_view names.new
        ≡ names_view names.old ++ spec.section_names called.now section.now) }
{
    match section {
        Section::Vars(declarations) => {
            for declaration in declarations.as_slice() {
                names.push((called.as_str(), declaration.name.as_str()))?;
            }
        }
        Section::Defines(definitions) => {
            for definition in definitions.as_slice() {
                names.push((called.as_str(), definition.name.as_str()))?;
            }
        }
        _ => {}
    }
    Ok(())
}

/// Appends the names that the joined part declares.
fn push_part<'a>(names: &mut List<ModuleName<'a>>, part: &'a Joined) -> Result<(), NoMemory>
    ensures { OnOk result (names_view names.new
        ≡ names_view names.old ++ spec.part_names part.now) }
{
    for section in part.sections.as_slice() {
        push_section(names, &part.module, section)?;
    }
    Ok(())
}

/// Appends the names that the feature introduces.
fn push_feature<'a>(names: &mut List<ModuleName<'a>>, feature: &'a Feature) -> Result<(), NoMemory>
    ensures { OnOk result (names_view names.new
        ≡ names_view names.old ++ spec.feature_names feature.now) }
{
    for part in feature.joins.as_slice() {
        push_part(names, part)?;
    }
    Ok(())
}

/// The names that the features introduce, one for each declaration.
pub fn introduced_names<'a>(
    alloc: Global,
    features: &'a [Feature],
) -> Result<List<ModuleName<'a>>, NoMemory>
    ensures { IfOk result (λ names. names_view names ≡ spec.introduced_names features.now) }
{
    let mut names = List::new(alloc);
    for feature in features {
        push_feature(&mut names, feature)?;
    }
    Ok(names)
}

/// Appends the variables that the section declares in the module.
fn push_section_variables<'a>(
    names: &mut List<ModuleName<'a>>,
    called: &'a Text,
    section: &'a Section,
) -> Result<(), NoMemory>
    ensures { OnOk result (names_view names.new
        ≡ names_view names.old ++ spec.section_variables called.now section.now) }
{
    let Section::Vars(declarations) = section else {
        return Ok(());
    };
    for declaration in declarations.as_slice() {
        push_variable(names, called, declaration)?;
    }
    Ok(())
}

/// Appends the variable that the declaration declares in the module, if it does.
fn push_variable<'a>(
    names: &mut List<ModuleName<'a>>,
    called: &'a Text,
    declaration: &'a Declaration,
) -> Result<(), NoMemory>
    ensures { OnOk result (names_view names.new ≡ names_view names.old
        ++ spec.variable_of called.now declaration.now.name declaration.now.what) }
{
    match &declaration.what {
        Declared::Plain(_) => names.push((called.as_str(), declaration.name.as_str()))?,
        Declared::Instance { .. } => {}
    }
    Ok(())
}

/// Appends the variables that the joined part declares.
fn push_part_variables<'a>(
    names: &mut List<ModuleName<'a>>,
    part: &'a Joined,
) -> Result<(), NoMemory>
    ensures { OnOk result (names_view names.new
        ≡ names_view names.old ++ spec.part_variables part.now) }
{
    for section in part.sections.as_slice() {
        push_section_variables(names, &part.module, section)?;
    }
    Ok(())
}

/// The variables that the joined parts declare.
pub fn introduced_variables<'a>(
    alloc: Global,
    parts: &'a [Joined],
) -> Result<List<ModuleName<'a>>, NoMemory>
    ensures { IfOk result (λ names. names_view names ≡ spec.introduced_variables parts.now) }
{
    let mut names = List::new(alloc);
    for part in parts {
        push_part_variables(&mut names, part)?;
    }
    Ok(names)
}

// ---- sets

/// The empty set.
#[tactic(auto, using(crate::proofs::ModuleNameLemmas::in_names_empty))]
fn no_names<'a>(alloc: Global) -> ModuleNames<'a>
    ensures { in_names result ≡ no_name }
{
    HashSet::new(alloc)
}

/// Inserts a name.
fn insert<'a>(names: &mut ModuleNames<'a>, name: ModuleName<'a>) -> Result<(), NoMemory>
    ensures { OnOk result (in_names names.new ≡ and_name (in_names names.old) (name_view name.entry)) }
{
    names.insert(name)?;
    Ok(())
}

/// Whether the set has the name in the module.
pub fn contains(names: &ModuleNames, called: &str, name: &str) -> bool
    ensures { result ≡ in_names names.now called.now name.now }
{
    names.contains(&(called, name))
}

/// Inserts a name if it was met before.
fn insert_again<'a>(
    again: &mut ModuleNames<'a>,
    met: &ModuleNames<'a>,
    name: ModuleName<'a>,
) -> Result<(), NoMemory>
    ensures { OnOk result (in_names again.new
        ≡ met_again (in_names met.now, in_names again.old) (name_view name.entry)) }
{
    if contains(met, name.0, name.1) {
        return insert(again, name);
    }
    Ok(())
}

fn inserted<'a>(alloc: Global, names: &[ModuleName<'a>]) -> Result<ModuleNames<'a>, NoMemory>
    ensures { IfOk result (λ set. in_names set ≡ and_names no_name (names_view names.now)) }
{
    let mut set = no_names(alloc);
    for name in names {
        insert(&mut set, *name)?;
    }
    Ok(set)
}

/// The set of the names in the list.
pub fn set_of<'a>(alloc: Global, names: &[ModuleName<'a>]) -> Result<ModuleNames<'a>, NoMemory>
    ensures { IfOk result (λ set. (called name : Name) → in_names set called name
        ≡ spec.is_among (names_view names.now) called name) }
{
    let set = inserted(alloc, names)?;
    Ok(set)
}

/// The names that were met, and those that were met again.
#[derive(Drop)]
struct Occurrences<'a> {
    met: ModuleNames<'a>,
    again: ModuleNames<'a>,
}

fn occurrences_of<'a>(alloc: Global, names: &[ModuleName<'a>]) -> Result<Occurrences<'a>, NoMemory>
    ensures { IfOk result (λ o. (in_names o.met, in_names o.again)
        ≡ all_met (no_name, no_name) (names_view names.now)) }
{
    let mut met = no_names(alloc);
    let mut again = no_names(alloc);
    for name in names {
        insert_again(&mut again, &met, *name)?;
        insert(&mut met, *name)?;
    }
    Ok(Occurrences { met, again })
}

/// The set of the names that stand in the list more than once.
pub fn repeated_of<'a>(alloc: Global, names: &[ModuleName<'a>]) -> Result<ModuleNames<'a>, NoMemory>
    ensures { IfOk result (λ set. (called name : Name) → in_names set called name
        ≡ spec.is_repeated (names_view names.now) called name) }
{
    let occurrences = occurrences_of(alloc, names)?;
    Ok(occurrences.again)
}
