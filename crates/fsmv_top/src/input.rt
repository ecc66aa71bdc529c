//! Reading the files of a family.

ghost use Rattle.std.specs.Prelude.{◌≡◌, ◌+◌, ◌≤◌, ◌<◌, ◌^◌, ◌++◌, All, IsTrue, IfOk, IfErr, OnOk, map, length, string_bytes};
ghost use Rattle.smv_parse.specs.Answer.{Refuses};
ghost use Rattle.feature_model.specs.WellFormed.{IsFeatureModel};
ghost use Rattle.feature_parse.specs.Answer.{RefusesFeatures};
ghost use Rattle.smv_ast.specs.declared.feature.Feature.{Feature as FeatureTree};
ghost use Rattle.std.specs.Prelude.{List as ListOf};
ghost use Rattle.fsmv_top.specs.Input as spec;
ghost use Rattle.fsmv_top.specs.InputErrors as fails;
ghost use Rattle.fsmv_top.specs.Words.{weave_view};

use crate::words::WeaveWords;
use feature_model::read_model;
use feature_parse::read_features;
use fsmv_outside::{Files, FilesFault};
use smv_ast::{Family, Fault, Feature, FeatureModel, List, NoMemory, Program, Span};
use smv_parse::read_program;
use std::alloc::{AllocError, Global};

/// The greatest length of a file of a model or a feature, in bytes.
const MOST_BYTES: u64 = 16_777_216;

/// The number of the first feature file, after the base and the feature model.
const FIRST_FEATURES: usize = 2;

/// The reason for which files are not those of a family.
#[derive(Drop)]
pub enum InputError {
    /// A file is refused.
    Refused(Fault),
    /// The file of this number cannot be read.
    Unread { file: u32 },
    /// Memory ran out.
    NoMemory,
}

impl From<NoMemory> for InputError {
    ghost use Rattle.std.specs.Prelude.{◌≡◌};
    ghost use Rattle.fsmv_top.specs.declared.input.InputError.TheVariants as variants;

    ghost from_gives = { λ _ s. s ≡ variants.NoMemory };

    fn from(_: NoMemory) -> InputError {
        InputError::NoMemory
    }
}

/// The whole content of a file.
fn read_file<F: Files>(
    alloc: Global,
    files: &mut F,
    file: u32,
    name: &str,
) -> Result<Vec<u8>, InputError>
    requires { IsTrue (F.may_read files.old name.now) }
    ensures held_stays { F.held files.new ≡ F.held files.old }
    ensures may_read_stays { F.may_read files.new ≡ F.may_read files.old }
    ensures faults_never_fall { F.faults files.old ≤ F.faults files.new }
    ensures ok { IfOk result (λ bytes. fails.IsRead (F.held files.old name.now) bytes.items) }
    ensures failed { IfErr result
        (fails.FailsReading file (F.held files.old name.now) (F.faults files.old)
        (F.faults files.new)) }
{
    let mut bytes = Vec::new(alloc);
    match files.read_all(alloc, name, MOST_BYTES, &mut bytes) {
        Ok(()) => Ok(bytes),
        Err(FilesFault::Failed) => Err(InputError::Unread { file }),
        Err(FilesFault::TooLong) => Err(InputError::Refused(Fault::TooLong {
            at: Some(Span { file, at: 0 }),
        })),
        Err(FilesFault::NoMemory) => Err(InputError::NoMemory),
    }
}

fn base_of(alloc: Global, file: u32, bytes: &[u8]) -> Result<Program, InputError>
    requires { length bytes.now ≤ 16777216 }
    ensures ok { IfOk result (spec.IsBase file bytes.now) }
    ensures failed { IfErr result (fails.FailsBytes Refuses file bytes.now) }
{
    match read_program(alloc, file, bytes) {
        Ok(reading) => Ok(reading.program),
        Err(Fault::NoMemory) => Err(InputError::NoMemory),
        Err(fault) => Err(InputError::Refused(fault)),
    }
}

fn model_of(alloc: Global, file: u32, bytes: &[u8]) -> Result<FeatureModel, InputError>
    requires { length bytes.now ≤ 16777216 }
    ensures ok { IfOk result (spec.IsModel file bytes.now) }
    ensures sound { IfOk result IsFeatureModel }
    ensures failed { IfErr result (fails.FailsBytes spec.RefusesModel file bytes.now) }
{
    match read_model(alloc, file, bytes) {
        Ok(model) => Ok(model),
        Err(Fault::NoMemory) => Err(InputError::NoMemory),
        Err(fault) => Err(InputError::Refused(fault)),
    }
}

fn features_of(alloc: Global, file: u32, bytes: &[u8]) -> Result<List<Feature>, InputError>
    requires { length bytes.now ≤ 16777216 }
    ensures ok { IfOk result (spec.AreFeatures file bytes.now) }
    ensures failed { IfErr result (fails.FailsBytes RefusesFeatures file bytes.now) }
{
    match read_features(alloc, file, bytes) {
        Ok(reading) => Ok(reading.features),
        Err(Fault::NoMemory) => Err(InputError::NoMemory),
        Err(fault) => Err(InputError::Refused(fault)),
    }
}

fn read_base<F: Files>(alloc: Global, files: &mut F, name: &str) -> Result<Program, InputError>
    requires { IsTrue (F.may_read files.old name.now) }
    ensures held_stays { F.held files.new ≡ F.held files.old }
    ensures may_read_stays { F.may_read files.new ≡ F.may_read files.old }
    ensures faults_never_fall { F.faults files.old ≤ F.faults files.new }
    ensures ok { IfOk result (spec.Holds spec.IsBase 0 (F.held files.old name.now)) }
    ensures failed { IfErr result
        (fails.FailsFile Refuses 0 (F.held files.old name.now) (F.faults files.old)
        (F.faults files.new)) }
{
    let bytes = read_file(alloc, files, 0, name)?;
    base_of(alloc, 0, bytes.as_slice())
}

fn read_feature_model<F: Files>(
    alloc: Global,
    files: &mut F,
    name: &str,
) -> Result<FeatureModel, InputError>
    requires { IsTrue (F.may_read files.old name.now) }
    ensures held_stays { F.held files.new ≡ F.held files.old }
    ensures may_read_stays { F.may_read files.new ≡ F.may_read files.old }
    ensures faults_never_fall { F.faults files.old ≤ F.faults files.new }
    ensures ok { IfOk result (spec.Holds spec.IsModel 1 (F.held files.old name.now)) }
    ensures sound { IfOk result IsFeatureModel }
    ensures failed { IfErr result
        (fails.FailsFile spec.RefusesModel 1 (F.held files.old name.now) (F.faults files.old)
        (F.faults files.new)) }
{
    let bytes = read_file(alloc, files, 1, name)?;
    model_of(alloc, 1, bytes.as_slice())
}

/// The features of the file at this index of the feature files.
fn read_feature_file<F: Files>(
    alloc: Global,
    files: &mut F,
    index: usize,
    name: &str,
) -> Result<List<Feature>, InputError>
    requires { IsTrue (F.may_read files.old name.now) }
    ensures held_stays { F.held files.new ≡ F.held files.old }
    ensures may_read_stays { F.may_read files.new ≡ F.may_read files.old }
    ensures faults_never_fall { F.faults files.old ≤ F.faults files.new }
    ensures ok { IfOk result (spec.Holds spec.AreFeatures (2 + index) (F.held files.old name.now)) }
    ensures failed { IfErr result
        (fails.FailsFile RefusesFeatures (2 + index) (F.held files.old name.now)
        (F.faults files.old) (F.faults files.new)) }
{
    // No machine holds that many words.
    if index > u32::MAX as usize - FIRST_FEATURES {
        return Err(InputError::NoMemory);
    }
    let file = (FIRST_FEATURES + index) as u32;
    let bytes = read_file(alloc, files, file, name)?;
    features_of(alloc, file, bytes.as_slice())
}

/// Appends the features of the file at this index.
fn add_feature_file<F: Files>(
    alloc: Global,
    files: &mut F,
    index: usize,
    name: &str,
    features: &mut List<Feature>,
) -> Result<(), InputError>
    requires { IsTrue (F.may_read files.old name.now) }
    ensures held_stays { F.held files.new ≡ F.held files.old }
    ensures may_read_stays { F.may_read files.new ≡ F.may_read files.old }
    ensures faults_never_fall { F.faults files.old ≤ F.faults files.new }
    ensures ok { OnOk result ((more : ListOf FeatureTree)
        × spec.Holds spec.AreFeatures (2 + index) (F.held files.old name.now) more
        × (features.new ≡ features.old ++ more)) }
    ensures failed { IfErr result
        (fails.FailsFile RefusesFeatures (2 + index) (F.held files.old name.now)
        (F.faults files.old) (F.faults files.new)) }
{
    let more = read_feature_file(alloc, files, index, name)?;
    match features.append(more) {
        Ok(()) => Ok(()),
        Err(AllocError) => Err(InputError::NoMemory),
    }
}

/// The features of all these files, in order.
fn read_feature_files<F: Files>(
    alloc: Global,
    files: &mut F,
    names: &[String],
) -> Result<List<Feature>, InputError>
    requires { All (λ name. IsTrue (F.may_read files.old name)) (map string_bytes names.now) }
    ensures held_stays { F.held files.new ≡ F.held files.old }
    ensures may_read_stays { F.may_read files.new ≡ F.may_read files.old }
    ensures faults_never_fall { F.faults files.old ≤ F.faults files.new }
    ensures ok { IfOk result
        (spec.HoldFeatures (F.held files.old) 2 (map string_bytes names.now)) }
    ensures failed { IfErr result (λ e. spec.EndsAmong (F.held files.old) 2
        (map string_bytes names.now)
        (fails.fails_at (F.held files.old) (F.faults files.old) (F.faults files.new) e)) }
{
    let mut features = List::new(alloc);
    for (index, name) in names.iter().enumerate() {
        match add_feature_file(alloc, files, index, name.as_str(), &mut features) {
            Ok(()) => {}
            Err(error) => return Err(error),
        }
    }
    Ok(features)
}

/// The family of the files that the words name, each read before the next is opened.
pub fn read_family<F: Files>(
    alloc: Global,
    words: WeaveWords<'_>,
    files: &mut F,
) -> Result<Family, InputError>
    requires allowed { spec.MayRead (F.may_read files.old) (weave_view words) }
    ensures held_stays { F.held files.new ≡ F.held files.old }
    ensures may_read_stays { F.may_read files.new ≡ F.may_read files.old }
    ensures faults_never_fall { F.faults files.old ≤ F.faults files.new }
    ensures ok { IfOk result (spec.HoldsFamily (F.held files.old) (weave_view words.entry)) }
    ensures sound { IfOk result (λ family. IsFeatureModel family.model) }
    ensures failed { IfErr result (λ e. spec.EndsReading (F.held files.old) (weave_view words.entry)
        (fails.fails_at (F.held files.old) (F.faults files.old) (F.faults files.new) e)) }
{
    let base = read_base(alloc, files, words.base)?;
    match read_feature_model(alloc, files, words.model) {
        Ok(model) => match read_feature_files(alloc, files, words.features) {
            Ok(features) => Ok(Family {
                base,
                model,
                features,
            }),
            Err(error) => Err(error),
        },
        Err(error) => Err(error),
    }
}
