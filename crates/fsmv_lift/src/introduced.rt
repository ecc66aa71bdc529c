//! The variables that a feature introduces, and their types by module and name.

ghost use Rattle.std.specs.Prelude.{◌≡◌, ◌≤◌, ◌++◌, length, IfOk, OnOk};
ghost use Rattle.std.specs.Option.{option_copied};
ghost use Rattle.smv_meaning.specs.Value.{Name};
ghost use Rattle.fsmv_lift.specs.IntroducedVariables as spec;
ghost use Rattle.fsmv_lift.specs.IntroducedTypes.{introduced_view, introduced_views, type_in, types_and, value_of};

use smv_ast::{Declaration, Declared, Joined, List, NoMemory, Section, SmvType, Text};
use std::alloc::Global;
use std::collections::HashMap;

/// A variable of a module, with its type.
#[derive(Drop)]
pub struct Introduced<'a> {
    pub module: &'a Text,
    pub name: &'a Text,
    pub values: &'a SmvType,
}

/// The types of variables, by module and name.
pub type Types<'a> = HashMap<(&'a str, &'a str), &'a SmvType>;

// ---- the variables

/// Appends the variable that the declaration declares in the module; an instance is none.
fn push_variable<'a>(
    variables: &mut List<Introduced<'a>>,
    module: &'a Text,
    declaration: &'a Declaration,
) -> Result<(), NoMemory>
    ensures { OnOk result (introduced_views variables.new ≡ introduced_views variables.old
        ++ spec.declared_variable «module».now declaration.now.name declaration.now.what) }
{
    match &declaration.what {
        Declared::Plain(values) => variables.push(Introduced {
            module,
            name: &declaration.name,
            values,
        })?,
        Declared::Instance { .. } => {}
    }
    Ok(())
}

/// Appends the variables that the section declares in the module.
fn push_section<'a>(
    variables: &mut List<Introduced<'a>>,
    module: &'a Text,
    section: &'a Section,
) -> Result<(), NoMemory>
    ensures { OnOk result (introduced_views variables.new
        ≡ introduced_views variables.old ++ spec.section_introduces «module».now section.now) }
{
    let Section::Vars(declarations) = section else {
        return Ok(());
    };
    for declaration in declarations.as_slice() {
        push_variable(variables, module, declaration)?;
    }
    Ok(())
}

/// Appends the variables that the joined part declares.
fn push_part<'a>(variables: &mut List<Introduced<'a>>, part: &'a Joined) -> Result<(), NoMemory>
    ensures { OnOk result (introduced_views variables.new
        ≡ introduced_views variables.old ++ spec.part_introduces part.now) }
{
    for section in part.sections.as_slice() {
        push_section(variables, &part.module, section)?;
    }
    Ok(())
}

/// The variables that joined parts declare, in written order.
pub fn introduces<'a>(alloc: Global, joins: &'a [Joined]) -> Result<List<Introduced<'a>>, NoMemory>
    ensures { IfOk result (λ variables. introduced_views variables ≡ spec.introduces joins.now) }
{
    let mut variables = List::new(alloc);
    for part in joins {
        push_part(&mut variables, part)?;
    }
    Ok(variables)
}

// ---- their types

/// Inserts the type of a variable.
fn put<'a>(types: &mut Types<'a>, variable: &Introduced<'a>) -> Result<(), NoMemory>
    ensures { OnOk result ((called name : Name) → type_in types.new called name
        ≡ types_and (introduced_view variable.now) (type_in types.old) called name) }
{
    let key = (variable.module.as_str(), variable.name.as_str());
    types.insert(key, variable.values)?;
    Ok(())
}

/// The type of each variable; where several have the name in the module, that of the first.
pub fn types_of<'a>(alloc: Global, variables: &[Introduced<'a>]) -> Result<Types<'a>, NoMemory>
    ensures { IfOk result (λ types. (called name : Name) → type_in types called name
        ≡ spec.type_among (introduced_views variables.now) called name) }
{
    let mut types = HashMap::new(alloc);
    let mut left = variables.len();
    // The first variable of a name takes precedence, so it is inserted last.
    while left > 0 {
        left -= 1;
        put(&mut types, &variables[left])?;
    }
    Ok(types)
}

/// The type of a variable, if it has one.
pub fn type_of<'t, 'a>(types: &'t Types<'a>, called: &str, name: &str) -> Option<&'a SmvType>
    ensures { value_of result ≡ type_in types.now called.now name.now }
{
    types.get(&(called, name)).copied()
}
