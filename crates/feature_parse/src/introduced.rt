//! What a feature introduces into the modules.

ghost use Rattle.std.specs.Prelude.{◌≡◌, OnOk};
ghost use Rattle.smv_expr.specs.Reading.{Gives};
ghost use Rattle.smv_parse.specs.Readers.{the_limit};
ghost use Rattle.feature_parse.specs.Grammar.{no_introduced, with_joined};
ghost use Rattle.feature_parse.specs.Readers as spec;

use smv_ast::{Joined, List, NoMemory, Skipped};
use smv_expr::cursor::Cursor;
use smv_expr::error::ReadError;
use smv_expr::kind::Kind;
use smv_parse::sections::{Parts, all_parts};
use std::alloc::Global;

/// The sections that a module gets, and those of them that were skipped.
#[derive(Drop)]
pub struct JoinedModule {
    pub joined: Joined,
    pub skipped: List<Skipped>,
}

/// The sections that modules get, and those that were skipped, each in their order.
#[derive(Drop)]
pub struct IntroducedModules {
    pub joins: List<Joined>,
    pub skipped: List<Skipped>,
}

impl IntroducedModules {
    fn new(alloc: Global) -> IntroducedModules
        ensures { result ≡ no_introduced }
    {
        IntroducedModules {
            joins: List::new(alloc),
            skipped: List::new(alloc),
        }
    }

    /// Adds the sections of one more module after the others.
    fn push(&mut self, next: JoinedModule) -> Result<(), NoMemory>
        ensures { OnOk result (self.new ≡ with_joined self.old next) }
    {
        self.joins.push(next.joined)?;
        self.skipped.append(next.skipped)?;
        Ok(())
    }
}

/// MODULE with its name, and the sections that it gets.
#[tactic(auto, unfolding(crate::specs::Readers::read_joined_module))]
fn joined_module(alloc: Global, tokens: &mut Cursor<'_>) -> Result<JoinedModule, ReadError>
    ensures { Gives (spec.read_joined_module the_limit tokens.old) result tokens.new }
{
    let at = tokens.expect(Kind::Module)?;
    let (module, _) = tokens.name(alloc)?;
    let Parts { sections, skipped } = all_parts(alloc, tokens)?;
    Ok(JoinedModule {
        joined: Joined {
            module,
            sections,
            at,
        },
        skipped,
    })
}

fn more_introduced(alloc: Global, tokens: &mut Cursor<'_>) -> Result<IntroducedModules, ReadError>
    ensures { Gives (spec.read_more_introduced the_limit tokens.old) result tokens.new }
{
    let mut found = IntroducedModules::new(alloc);
    'rounds: while tokens.sees(Kind::Module) {
        let one = joined_module(alloc, tokens)?;
        found.push(one)?;
    }
    Ok(found)
}

/// INTRODUCE, and the modules after it.
#[tactic(auto, unfolding(crate::specs::Readers::read_introduced))]
fn introduced(alloc: Global, tokens: &mut Cursor<'_>) -> Result<IntroducedModules, ReadError>
    ensures { Gives (spec.read_introduced the_limit tokens.old) result tokens.new }
{
    tokens.expect(Kind::Introduce)?;
    more_introduced(alloc, tokens)
}

/// What a feature introduces, if it introduces anything.
#[tactic(auto, unfolding(crate::specs::Readers::read_some_introduced))]
pub fn some_introduced(
    alloc: Global,
    tokens: &mut Cursor<'_>,
) -> Result<IntroducedModules, ReadError>
    ensures { Gives (spec.read_some_introduced the_limit tokens.old) result tokens.new }
{
    if tokens.sees(Kind::Introduce) {
        introduced(alloc, tokens)
    } else {
        Ok(IntroducedModules::new(alloc))
    }
}
