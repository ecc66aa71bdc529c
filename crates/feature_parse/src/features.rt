//! Whole files of features.

ghost use Rattle.std.specs.Prelude.{◌≡◌, ◌<◌, ◌^◌, length, IfOk, OnOk};
ghost use Rattle.smv_expr.specs.Answer.{IsAnswered};
ghost use Rattle.smv_expr.specs.Reading.{Gives};
ghost use Rattle.smv_parse.specs.Readers.{the_limit};
ghost use Rattle.feature_parse.specs.Answer.{FeaturesAnswer, ReadsFeatures};
ghost use Rattle.feature_parse.specs.Grammar.{no_features, with_feature};
ghost use Rattle.feature_parse.specs.Printable.{PrintableFeatures};
ghost use Rattle.feature_parse.specs.Readers as spec;

use crate::changes::some_changes;
use crate::introduced::{IntroducedModules, some_introduced};
use crate::needs::some_needs;
use smv_ast::{Fault, Feature, List, NoMemory, Skipped};
use smv_expr::answer::answer;
use smv_expr::cursor::Cursor;
use smv_expr::error::ReadError;
use smv_expr::kind::Kind;
use std::alloc::Global;

/// The features of a file, and the sections that were skipped, in the order of the text.
#[derive(Drop)]
pub struct FeatureReading {
    pub features: List<Feature>,
    pub skipped: List<Skipped>,
}

/// A feature, and the sections of it that were skipped.
#[derive(Drop)]
pub struct SingleFeature {
    pub feature: Feature,
    pub skipped: List<Skipped>,
}

impl FeatureReading {
    fn new(alloc: Global) -> FeatureReading
        ensures { result ≡ no_features }
    {
        FeatureReading {
            features: List::new(alloc),
            skipped: List::new(alloc),
        }
    }

    /// Adds a feature after the others.
    fn push(&mut self, next: SingleFeature) -> Result<(), NoMemory>
        ensures { OnOk result (self.new ≡ with_feature self.old next) }
    {
        self.features.push(next.feature)?;
        self.skipped.append(next.skipped)?;
        Ok(())
    }
}

/// A feature: its needs, what it introduces, and its changes.
#[tactic(auto, unfolding(crate::specs::Readers::read_feature))]
fn feature(alloc: Global, tokens: &mut Cursor<'_>) -> Result<SingleFeature, ReadError>
    ensures { Gives (spec.read_feature the_limit tokens.old) result tokens.new }
{
    let at = tokens.expect(Kind::Feature)?;
    let (name, _) = tokens.name(alloc)?;
    let needs = some_needs(alloc, tokens)?;
    let IntroducedModules { joins, skipped } = some_introduced(alloc, tokens)?;
    let changes = some_changes(alloc, tokens)?;
    tokens.expect(Kind::End)?;
    Ok(SingleFeature {
        feature: Feature {
            name,
            needs,
            joins,
            changes,
            at,
        },
        skipped,
    })
}

/// All features that come.
fn features(alloc: Global, tokens: &mut Cursor<'_>) -> Result<FeatureReading, ReadError>
    ensures { Gives (spec.read_features the_limit tokens.old) result tokens.new }
{
    let mut found = FeatureReading::new(alloc);
    'rounds: while tokens.sees(Kind::Feature) {
        let one = feature(alloc, tokens)?;
        found.push(one)?;
    }
    Ok(found)
}

/// The features that the bytes of a file are, none in an empty file. Each text within the limits is answered Ok.
///
/// The end of the file counts as a token. The errors, each at the token with which it is first met:
///
/// - `Syntax`: no features begin with the tokens up to this one, whatever the size of their numerals. `LeftOut` where the
///   token is a word or a mark of SMV that is left out here.
/// - `WideNumber`: a numeral over 2,147,483,647 that features may have there.
/// - `TooNested`: before the token more than 1,000 constructs of an expression are open, or with it an expression ends whose
///   tree is higher than 1,000. Features with numerals within the limit begin with the tokens up to this one, but none within
///   the limits of nesting do. Each beginning of the text that ends before it, and is a list of features, is within them.
/// - `NoMemory`: memory ran out.
///
/// All that is answered is printable: names are identifiers, which have no dot, and numbers are within the limit.
pub fn read_features(alloc: Global, file: u32, bytes: &[u8]) -> Result<FeatureReading, Fault>
    requires { length bytes.now < 2 ^ 32 }
    ensures answer { FeaturesAnswer file bytes.now result }
    ensures complete { (r : FeatureReading) → ReadsFeatures file bytes.now r → IsAnswered r result }
    ensures printable { IfOk result PrintableFeatures }
{
    let mut tokens = Cursor::new(file, bytes);
    let found = features(alloc, &mut tokens);
    answer(alloc, found, &tokens, file, bytes)
}
