//! Reads feature models.

ghost use Rattle.std.specs.Prelude.{◌≡◌, ◌<◌, ◌^◌, length, IfOk};
ghost use Rattle.smv_ast.specs.declared.model.FeatureModel.{FeatureModel};
ghost use Rattle.smv_expr.specs.Answer.{IsAnswered};
ghost use Rattle.smv_expr.specs.Reading.{Outcome, Gives};
ghost use Rattle.smv_expr.specs.Reading.Outcome.{Read};
ghost use Rattle.feature_model.specs.ModelAnswer as spec;
ghost use Rattle.feature_model.specs.NameFaults.{text_fault};
ghost use Rattle.feature_model.specs.WellFormed.{IsFeatureModel};
ghost use Rattle.feature_model.specs.declared.text.TextReading.{TextReading};

use crate::names::check_names;
use crate::numbering::model_of;
use crate::reading::text;
use crate::text::{ModelText, TextReading};
use smv_ast::{Fault, FeatureModel};
use smv_expr::answer::answer;
use smv_expr::cursor::Cursor;
use smv_expr::error::ReadError;
use std::alloc::Global;

/// What is answered of a file of which this was read, from the first token on, and these tokens were left.
fn whole_reading(
    alloc: Global,
    reading: TextReading,
    tokens: &Cursor<'_>,
    file: u32,
    bytes: &[u8],
) -> Result<ModelText, Fault>
    requires { length bytes.now < 2 ^ 32 }
    ensures { spec.Is (spec.text_result file bytes.now (Read reading tokens.now)) result }
{
    let TextReading { text, refused } = reading;
    match refused {
        Some(at) => Err(Fault::Syntax { at: Some(at) }),
        None => answer(alloc, Ok(text), tokens, file, bytes),
    }
}

/// What is answered of a file in which this was found, from the first token on, and these tokens were left.
fn whole_text(
    alloc: Global,
    found: Result<TextReading, ReadError>,
    tokens: &Cursor<'_>,
    file: u32,
    bytes: &[u8],
) -> Result<ModelText, Fault>
    requires { length bytes.now < 2 ^ 32 }
    ensures { (o : Outcome TextReading) → Gives o found tokens.now
        → spec.Is (spec.text_result file bytes.now o) result }
{
    match found {
        Err(error) => answer(alloc, Err(error), tokens, file, bytes),
        Ok(reading) => whole_reading(alloc, reading, tokens, file, bytes),
    }
}

/// The feature model of a text, or its first fault.
fn checked_model(alloc: Global, text: &ModelText) -> Result<FeatureModel, Fault>
    ensures { spec.Is (spec.numbered_result text.now (text_fault text.now)) result }
{
    check_names(alloc, text)?;
    model_of(alloc, text)
}

/// The feature model that the bytes of a file are. Each text within the limits, without a fault of its names, is answered Ok.
///
/// Features are numbered in the order in which they are declared, the root 0. What is answered has at most 64 features,
/// with different names; each line uses only features that are declared before it.
///
/// The errors, of which the one at the smallest offset is reported:
///
/// - `Syntax`: the tokens up to this one, the end of the file counted as a token, begin no text of a feature model.
///   `LeftOut` where the token is a word or a mark of SMV that is left out here. An expression of a constraint that is not
///   made of TRUE, FALSE, single names, `!`, `&`, `|`, `xor`, `xnor`, `<->`, `->` and parentheses is `Syntax` at its start,
///   once it is read.
/// - `WideNumber`, `TooNested`: a limit of expressions is passed, as in models.
///
/// Where the whole text is read, with the span of the name:
///
/// - `ReservedName`: a declared feature begins with `fsmv_`.
/// - `DuplicateFeature`: the second declaration of a feature.
/// - `UnknownFeature`: a parent or a name in a constraint that no earlier line declares, and that is not the root.
/// - `TooManyFeatures`, without a span and where none of these comes: more than 64 features are declared.
///
/// `NoMemory`: memory ran out.
pub fn read_model(alloc: Global, file: u32, bytes: &[u8]) -> Result<FeatureModel, Fault>
    requires { length bytes.now < 2 ^ 32 }
    ensures answer { spec.ModelAnswer file bytes.now result }
    ensures complete { (m : FeatureModel) → spec.ReadsModel file bytes.now m → IsAnswered m result }
    ensures model { IfOk result IsFeatureModel }
{
    let mut tokens = Cursor::new(file, bytes);
    let found = text(alloc, &mut tokens);
    let text = whole_text(alloc, found, &tokens, file, bytes)?;
    checked_model(alloc, &text)
}
