//! Whole models.

ghost use Rattle.std.specs.Prelude.{◌≡◌, ◌<◌, ◌^◌, length, IfOk, OnOk};
ghost use Rattle.smv_ast.specs.declared.program.Program.{Program};
ghost use Rattle.smv_ast.specs.PrintedProgram.{printed_program};
ghost use Rattle.smv_expr.specs.Reading.{Gives};
ghost use Rattle.smv_parse.specs.Grammar.{single_module, with_module};
ghost use Rattle.smv_parse.specs.Readers as spec;
ghost use Rattle.smv_parse.specs.Readers.{the_limit};
ghost use Rattle.smv_parse.specs.Answer.{ProgramAnswer, Reads};
ghost use Rattle.smv_expr.specs.Answer.{IsAnswered};
ghost use Rattle.smv_parse.specs.RoundTrip.{PrintableProgram, IsProgramRoundTrip};

use crate::names::some_formals;
use crate::sections::{Parts, all_parts};
use smv_ast::{Fault, List, Module, NoMemory, Program, Skipped};
use smv_expr::answer::answer;
use smv_expr::cursor::Cursor;
use smv_expr::error::ReadError;
use smv_expr::kind::Kind;
use std::alloc::Global;

/// A model, and the sections that were skipped, in the order of the text.
#[derive(Drop)]
pub struct Reading {
    pub program: Program,
    pub skipped: List<Skipped>,
}

/// A module, and the sections of it that were skipped.
#[derive(Drop)]
pub struct ModuleReading {
    pub module: Module,
    pub skipped: List<Skipped>,
}

impl Reading {
    /// The model that is this module alone.
    fn single_module(alloc: Global, first: ModuleReading) -> Result<Reading, NoMemory>
        ensures { IfOk result (λ r. r ≡ single_module first) }
    {
        let mut modules = List::new(alloc);
        modules.push(first.module)?;
        Ok(Reading {
            program: Program { modules },
            skipped: first.skipped,
        })
    }

    /// Adds a module after the others.
    fn push(&mut self, next: ModuleReading) -> Result<(), NoMemory>
        ensures { OnOk result (self.new ≡ with_module self.old next) }
    {
        self.program.modules.push(next.module)?;
        self.skipped.append(next.skipped)?;
        Ok(())
    }
}

/// A module with its sections.
#[tactic(auto, unfolding(crate::specs::Readers::read_module))]
pub fn module(alloc: Global, tokens: &mut Cursor<'_>) -> Result<ModuleReading, ReadError>
    ensures { Gives (spec.read_module the_limit tokens.old) result tokens.new }
{
    let at = tokens.expect(Kind::Module)?;
    let (name, _) = tokens.name(alloc)?;
    let formals = some_formals(alloc, tokens)?;
    let Parts { sections, skipped } = all_parts(alloc, tokens)?;
    Ok(ModuleReading {
        module: Module {
            name,
            formals,
            sections,
            at,
        },
        skipped,
    })
}

/// A model of the module that comes.
#[tactic(auto, unfolding(crate::specs::Readers::read_first_module))]
fn first_module(alloc: Global, tokens: &mut Cursor<'_>) -> Result<Reading, ReadError>
    ensures { Gives (spec.read_first_module the_limit tokens.old) result tokens.new }
{
    let first = module(alloc, tokens)?;
    Ok(Reading::single_module(alloc, first)?)
}

/// The modules that come, after those that are there.
fn more_modules(
    alloc: Global,
    tokens: &mut Cursor<'_>,
    first: Reading,
) -> Result<Reading, ReadError>
    ensures { Gives (spec.read_more_modules the_limit first tokens.old) result tokens.new }
{
    let mut found = first;
    'rounds: while tokens.sees(Kind::Module) {
        let one = module(alloc, tokens)?;
        found.push(one)?;
    }
    Ok(found)
}

/// A model: one module or more.
#[tactic(auto, unfolding(crate::specs::Readers::read_program))]
fn program(alloc: Global, tokens: &mut Cursor<'_>) -> Result<Reading, ReadError>
    ensures { Gives (spec.read_program the_limit tokens.old) result tokens.new }
{
    let first = first_module(alloc, tokens)?;
    more_modules(alloc, tokens, first)
}

/// The model that the bytes of a file are, and its skipped sections. Each text within the limits is answered Ok.
///
/// The end of the file counts as a token. The errors, each at the token with which it is first met:
///
/// - `Syntax`: no model begins with the tokens up to this one, whatever the size of its numerals. `LeftOut` where the token
///   is a word or a mark of SMV that is left out here.
/// - `WideNumber`: a numeral over 2,147,483,647 that a model may have there.
/// - `TooNested`: before the token more than 1,000 constructs of an expression are open, or with it an expression ends whose
///   tree is higher than 1,000. A model with numerals within the limit begins with the tokens up to this one, but none within
///   the limits of nesting does. Each beginning of the text that ends before it, and is a model, is within them.
/// - `NoMemory`: memory ran out.
///
/// Where the bytes are the canonical text of a printable model, the same model is answered, ignoring spans, or TooNested
/// or NoMemory.
/// Each model that is answered is printable: its names are identifiers, which have no dot, and its numbers are within the limit.
pub fn read_program(alloc: Global, file: u32, bytes: &[u8]) -> Result<Reading, Fault>
    requires { length bytes.now < 2 ^ 32 }
    ensures answer { ProgramAnswer file bytes.now result }
    ensures complete { (r : Reading) → Reads file bytes.now r → IsAnswered r result }
    ensures round_trip { (p : Program) → PrintableProgram p → bytes.now ≡ printed_program p
        → IsProgramRoundTrip file bytes.now p result }
    ensures printable { IfOk result (λ r. PrintableProgram r.program) }
{
    let mut tokens = Cursor::new(file, bytes);
    let found = program(alloc, &mut tokens);
    answer(alloc, found, &tokens, file, bytes)
}
