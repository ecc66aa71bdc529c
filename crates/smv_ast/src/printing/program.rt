//! The canonical text of models.

ghost use Rattle.std.specs.Prelude.{◌≡◌, ◌++◌, IfOk, OnOk, string_bytes, map, codes};
ghost use Rattle.std.specs.Fmt.{signed_decimal};
ghost use Rattle.smv_ast.specs.PrintedExpr as expr;
ghost use Rattle.smv_ast.specs.PrintedProgram as spec;
ghost use Rattle.smv_ast.specs.IgnoringSpans.{SameProgram};
ghost use Rattle.smv_ast.specs.declared.program.Program.{Program};

use crate::printing::expr::{
    print_expr, print_joined, print_listed, print_range, print_signed, print_text,
};
use crate::program::{
    Assignment, Declaration, Declared, Definition, Left, Module, Program, Section,
};
use crate::syntax::{Expr, SmvType};
use fsmv_base::{NoMemory, Text};
use std::alloc::{AllocError, Global};

fn print_numbers(out: &mut String, numbers: &[i64]) -> Result<(), AllocError>
    ensures { OnOk result (string_bytes out.new
        ≡ string_bytes out.old ++ expr.listed (map signed_decimal numbers.now)) }
{
    let [first, remaining @ ..] = numbers else {
        return Ok(());
    };
    print_signed(out, *first)?;
    for number in remaining {
        out.push_str(", ")?;
        print_signed(out, *number)?;
    }
    Ok(())
}

fn print_type(out: &mut String, values: &SmvType) -> Result<(), AllocError>
    ensures { OnOk result (string_bytes out.new ≡ string_bytes out.old
        ++ spec.printed_type values.now) }
{
    match values {
        SmvType::Boolean => out.push_str("boolean"),
        SmvType::Range { low, high } => print_range(out, *low, *high),
        SmvType::Numbers(numbers) => {
            out.push_str("{")?;
            print_numbers(out, numbers.as_slice())?;
            out.push_str("}")
        }
        SmvType::Symbols(names) => {
            out.push_str("{")?;
            print_joined(out, ", ", names.as_slice())?;
            out.push_str("}")
        }
    }
}

fn print_actuals(out: &mut String, actuals: &[Expr]) -> Result<(), AllocError>
    ensures { OnOk result (string_bytes out.new
        ≡ string_bytes out.old ++ spec.in_parentheses
        (expr.texts (map expr.piece_of actuals.now))) }
{
    if actuals.is_empty() {
        return Ok(());
    }
    out.push_str("(")?;
    print_listed(out, actuals)?;
    out.push_str(")")
}

fn print_formals(out: &mut String, formals: &[Text]) -> Result<(), AllocError>
    ensures { OnOk result (string_bytes out.new ≡ string_bytes out.old
        ++ spec.in_parentheses formals.now) }
{
    if formals.is_empty() {
        return Ok(());
    }
    out.push_str("(")?;
    print_joined(out, ", ", formals)?;
    out.push_str(")")
}

fn print_declaration(out: &mut String, declaration: &Declaration) -> Result<(), AllocError>
    ensures { OnOk result (string_bytes out.new ≡ string_bytes out.old
        ++ spec.declaration_line declaration.now) }
{
    out.push_str("  ")?;
    print_text(out, &declaration.name)?;
    out.push_str(" : ")?;
    match &declaration.what {
        Declared::Plain(values) => print_type(out, values)?,
        Declared::Instance { module, actuals } => {
            print_text(out, module)?;
            print_actuals(out, actuals.as_slice())?;
        }
    }
    out.push_str(";\n")
}

fn print_left(out: &mut String, left: Left, name: &Text) -> Result<(), AllocError>
    ensures { OnOk result (string_bytes out.new ≡ string_bytes out.old
        ++ spec.printed_left left name.now) }
{
    match left {
        Left::Init => out.push_str("init(")?,
        Left::Next => out.push_str("next(")?,
        Left::Now => return print_text(out, name),
    }
    print_text(out, name)?;
    out.push_str(")")
}

fn print_assignment(out: &mut String, assignment: &Assignment) -> Result<(), AllocError>
    ensures { OnOk result (string_bytes out.new ≡ string_bytes out.old
        ++ spec.assignment_line assignment.now) }
{
    out.push_str("  ")?;
    print_left(out, assignment.left, &assignment.name)?;
    out.push_str(" := ")?;
    print_expr(out, &assignment.right)?;
    out.push_str(";\n")
}

fn print_definition(out: &mut String, definition: &Definition) -> Result<(), AllocError>
    ensures { OnOk result (string_bytes out.new ≡ string_bytes out.old
        ++ spec.definition_line definition.now) }
{
    out.push_str("  ")?;
    print_text(out, &definition.name)?;
    out.push_str(" := ")?;
    print_expr(out, &definition.right)?;
    out.push_str(";\n")
}

fn print_constraint(out: &mut String, word: &str, e: &Expr) -> Result<(), AllocError>
    ensures { OnOk result (string_bytes out.new
        ≡ string_bytes out.old ++ spec.constraint_line word.now (expr.printed_expr e.now)) }
{
    out.push_str(word)?;
    print_expr(out, e)?;
    out.push_str(";\n")
}

fn print_declarations(out: &mut String, declarations: &[Declaration]) -> Result<(), AllocError>
    ensures { OnOk result (string_bytes out.new
        ≡ string_bytes out.old ++ (codes "VAR\n"
        ++ expr.concatenated (map spec.declaration_line declarations.now))) }
{
    out.push_str("VAR\n")?;
    for declaration in declarations {
        print_declaration(out, declaration)?;
    }
    Ok(())
}

fn print_assignments(out: &mut String, assignments: &[Assignment]) -> Result<(), AllocError>
    ensures { OnOk result (string_bytes out.new
        ≡ string_bytes out.old ++ (codes "ASSIGN\n"
        ++ expr.concatenated (map spec.assignment_line assignments.now))) }
{
    out.push_str("ASSIGN\n")?;
    for assignment in assignments {
        print_assignment(out, assignment)?;
    }
    Ok(())
}

fn print_definitions(out: &mut String, definitions: &[Definition]) -> Result<(), AllocError>
    ensures { OnOk result (string_bytes out.new
        ≡ string_bytes out.old ++ (codes "DEFINE\n"
        ++ expr.concatenated (map spec.definition_line definitions.now))) }
{
    out.push_str("DEFINE\n")?;
    for definition in definitions {
        print_definition(out, definition)?;
    }
    Ok(())
}

fn print_section(out: &mut String, section: &Section) -> Result<(), AllocError>
    ensures { OnOk result (string_bytes out.new ≡ string_bytes out.old
        ++ spec.printed_section section.now) }
{
    match section {
        Section::Vars(declarations) => print_declarations(out, declarations.as_slice()),
        Section::Assigns(assignments) => print_assignments(out, assignments.as_slice()),
        Section::Defines(definitions) => print_definitions(out, definitions.as_slice()),
        Section::Init(e, _) => print_constraint(out, "INIT ", e),
        Section::Invar(e, _) => print_constraint(out, "INVAR ", e),
        Section::Trans(e, _) => print_constraint(out, "TRANS ", e),
        Section::InvarSpec(e, _) => print_constraint(out, "INVARSPEC ", e),
    }
}

fn print_sections(out: &mut String, sections: &[Section]) -> Result<(), AllocError>
    ensures { OnOk result (string_bytes out.new
        ≡ string_bytes out.old ++ expr.concatenated (map spec.printed_section sections.now)) }
{
    for section in sections {
        print_section(out, section)?;
    }
    Ok(())
}

fn print_module(out: &mut String, module: &Module) -> Result<(), AllocError>
    ensures { OnOk result (string_bytes out.new ≡ string_bytes out.old
        ++ spec.printed_module «module».now) }
{
    out.push_str("MODULE ")?;
    print_text(out, &module.name)?;
    print_formals(out, module.formals.as_slice())?;
    out.push_str("\n")?;
    print_sections(out, module.sections.as_slice())
}

fn print_modules(out: &mut String, modules: &[Module]) -> Result<(), AllocError>
    ensures { OnOk result (string_bytes out.new
        ≡ string_bytes out.old ++ expr.concatenated (map spec.printed_module modules.now)) }
{
    for module in modules {
        print_module(out, module)?;
    }
    Ok(())
}

/// The canonical text of a model: its modules one after another, each line ended by a line feed.
///
/// The text is independent of spans. The only error is `NoMemory`.
pub fn print_program(alloc: Global, program: &Program) -> Result<String, NoMemory>
    ensures text { IfOk result (λ text. string_bytes text ≡ spec.printed_program program.now) }
    ensures ignoring_spans { IfOk result (λ text. (other : Program) →
        SameProgram program.now other → string_bytes text ≡ spec.printed_program other) }
{
    let mut out = String::new(alloc);
    print_modules(&mut out, program.modules.as_slice())?;
    Ok(out)
}
