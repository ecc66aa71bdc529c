//! The lines that report faults.

ghost use Rattle.std.specs.Prelude.{◌≡◌, ◌++◌, codes, IfOk, OnOk, string_bytes};
ghost use Rattle.std.specs.Fmt.{decimal};
ghost use Rattle.smv_ast.specs.PrintedExpr.{each_after};
ghost use Rattle.feature_model.specs.NamedProducts.{printed_product};
ghost use Rattle.fsmv_top.specs.Refusals as spec;

use feature_model::product_names;
use itoa::Buffer;
use smv_ast::{Fault, NoMemory, Product, Span, Text, print_joined};
use std::alloc::{AllocError, Global};

fn fault_name(fault: &Fault) -> &'static str
    ensures { result.now ≡ spec.fault_name fault.now }
{
    match fault {
        Fault::Syntax { .. } => "Syntax",
        Fault::LeftOut { .. } => "LeftOut",
        Fault::WideNumber { .. } => "WideNumber",
        Fault::TooNested { .. } => "TooNested",
        Fault::TooLong { .. } => "TooLong",
        Fault::ReservedName { .. } => "ReservedName",
        Fault::DuplicateFeature { .. } => "DuplicateFeature",
        Fault::UnknownFeature { .. } => "UnknownFeature",
        Fault::TooManyFeatures { .. } => "TooManyFeatures",
        Fault::DuplicateText { .. } => "DuplicateText",
        Fault::FeatureNotInModel { .. } => "FeatureNotInModel",
        Fault::NoProduct { .. } => "NoProduct",
        Fault::NotValid { .. } => "NotValid",
        Fault::RequireMissing { .. } => "RequireMissing",
        Fault::RequireType { .. } => "RequireType",
        Fault::IntroduceClash { .. } => "IntroduceClash",
        Fault::IntroducedInstance { .. } => "IntroducedInstance",
        Fault::IntroducedAssign { .. } => "IntroducedAssign",
        Fault::ImposeTarget { .. } => "ImposeTarget",
        Fault::ImposeKind { .. } => "ImposeKind",
        Fault::TreatTarget { .. } => "TreatTarget",
        Fault::UnknownName { .. } => "UnknownName",
        Fault::UnknownModule { .. } => "UnknownModule",
        Fault::RecursiveModule { .. } => "RecursiveModule",
        Fault::ArgumentCount { .. } => "ArgumentCount",
        Fault::DuplicateName { .. } => "DuplicateName",
        Fault::KindMismatch { .. } => "KindMismatch",
        Fault::EmptyRange { .. } => "EmptyRange",
        Fault::NegativeMod { .. } => "NegativeMod",
        Fault::ChoicePlace { .. } => "ChoicePlace",
        Fault::NextPlace { .. } => "NextPlace",
        Fault::DoubleAssign { .. } => "DoubleAssign",
        Fault::ParameterAssign { .. } => "ParameterAssign",
        Fault::CyclicDefine { .. } => "CyclicDefine",
        Fault::TooLarge { .. } => "TooLarge",
        Fault::NoSpec { .. } => "NoSpec",
        Fault::TooDeep { .. } => "TooDeep",
        Fault::NoMemory => "NoMemory",
    }
}

fn fault_span(fault: &Fault) -> Option<Span>
    ensures { result ≡ spec.fault_span fault.now }
{
    match fault {
        Fault::Syntax { at }
        | Fault::LeftOut { at, .. }
        | Fault::WideNumber { at }
        | Fault::TooNested { at }
        | Fault::TooLong { at }
        | Fault::ReservedName { at, .. }
        | Fault::DuplicateFeature { at, .. }
        | Fault::UnknownFeature { at, .. }
        | Fault::TooManyFeatures { at, .. }
        | Fault::DuplicateText { at, .. }
        | Fault::FeatureNotInModel { at, .. }
        | Fault::NoProduct { at }
        | Fault::NotValid { at, .. }
        | Fault::RequireMissing { at, .. }
        | Fault::RequireType { at, .. }
        | Fault::IntroduceClash { at, .. }
        | Fault::IntroducedInstance { at, .. }
        | Fault::IntroducedAssign { at, .. }
        | Fault::ImposeTarget { at, .. }
        | Fault::ImposeKind { at, .. }
        | Fault::TreatTarget { at, .. }
        | Fault::UnknownName { at, .. }
        | Fault::UnknownModule { at, .. }
        | Fault::RecursiveModule { at, .. }
        | Fault::ArgumentCount { at, .. }
        | Fault::DuplicateName { at, .. }
        | Fault::KindMismatch { at }
        | Fault::EmptyRange { at }
        | Fault::NegativeMod { at }
        | Fault::ChoicePlace { at }
        | Fault::NextPlace { at }
        | Fault::DoubleAssign { at, .. }
        | Fault::ParameterAssign { at, .. }
        | Fault::CyclicDefine { at, .. }
        | Fault::TooLarge { at }
        | Fault::NoSpec { at }
        | Fault::TooDeep { at, .. } => *at,
        Fault::NoMemory => None,
    }
}

fn push_number(out: &mut String, n: u64) -> Result<(), AllocError>
    ensures { OnOk result (string_bytes out.new ≡ string_bytes out.old ++ decimal n) }
{
    let mut buffer = Buffer::new();
    out.push_str(buffer.format(n))
}

fn push_word(out: &mut String, word: &str) -> Result<(), AllocError>
    ensures { OnOk result (string_bytes out.new ≡ string_bytes out.old ++ (codes " " ++ word.now)) }
{
    out.push_str(" ")?;
    out.push_str(word)
}

fn push_product(
    out: &mut String,
    alloc: Global,
    names: &[Text],
    product: Product,
) -> Result<(), NoMemory>
    ensures { OnOk result (string_bytes out.new
        ≡ string_bytes out.old ++ (codes " " ++ printed_product names.now product)) }
{
    let chosen = product_names(alloc, names, product)?;
    out.push_str(" ")?;
    print_joined(out, ",", chosen.as_slice())?;
    Ok(())
}

fn push_kept(out: &mut String, alloc: Global, names: &[Text], fault: &Fault) -> Result<(), NoMemory>
    ensures { OnOk result (string_bytes out.new
        ≡ string_bytes out.old ++ each_after (codes " ") (spec.fault_kept names.now fault.now)) }
{
    match fault {
        Fault::RequireMissing {
            feature,
            name,
            product,
            ..
        } => {
            push_word(out, feature.as_str())?;
            push_word(out, name.as_str())?;
            push_product(out, alloc, names, *product)
        }
        Fault::RequireType { feature, name, .. }
        | Fault::IntroduceClash { feature, name, .. }
        | Fault::IntroducedInstance { feature, name, .. }
        | Fault::IntroducedAssign { feature, name, .. } => {
            push_word(out, feature.as_str())?;
            push_word(out, name.as_str())?;
            Ok(())
        }
        Fault::LeftOut { word: name, .. }
        | Fault::ReservedName { name, .. }
        | Fault::DuplicateFeature { name, .. }
        | Fault::UnknownFeature { name, .. }
        | Fault::DuplicateText { name, .. }
        | Fault::FeatureNotInModel { name, .. }
        | Fault::NotValid { word: name, .. }
        | Fault::ImposeTarget { name, .. }
        | Fault::ImposeKind { name, .. }
        | Fault::TreatTarget { path: name, .. }
        | Fault::UnknownName { path: name, .. }
        | Fault::UnknownModule { name, .. }
        | Fault::RecursiveModule { name, .. }
        | Fault::ArgumentCount { name, .. }
        | Fault::DuplicateName { name, .. }
        | Fault::DoubleAssign { name, .. }
        | Fault::ParameterAssign { name, .. }
        | Fault::CyclicDefine { cycle: name, .. } => Ok(push_word(out, name.as_str())?),
        Fault::TooManyFeatures { count, .. } | Fault::TooDeep { cost: count, .. } => {
            out.push_str(" ")?;
            Ok(push_number(out, *count)?)
        }
        Fault::Syntax { .. }
        | Fault::WideNumber { .. }
        | Fault::TooNested { .. }
        | Fault::TooLong { .. }
        | Fault::NoProduct { .. }
        | Fault::KindMismatch { .. }
        | Fault::EmptyRange { .. }
        | Fault::NegativeMod { .. }
        | Fault::ChoicePlace { .. }
        | Fault::NextPlace { .. }
        | Fault::TooLarge { .. }
        | Fault::NoSpec { .. }
        | Fault::NoMemory => Ok(()),
    }
}

fn push_span(out: &mut String, span: Option<Span>) -> Result<(), AllocError>
    ensures { OnOk result (string_bytes out.new ≡ string_bytes out.old ++ spec.printed_span span) }
{
    let Some(at) = span else {
        return out.push_str("- -");
    };
    push_number(out, at.file as u64)?;
    out.push_str(" ")?;
    push_number(out, at.at as u64)
}

/// The line of a refusal, where the feature model's features have these names.
pub fn refusal_line(alloc: Global, names: &[Text], fault: &Fault) -> Result<String, NoMemory>
    ensures { IfOk result (λ line. string_bytes line ≡ spec.refusal_line names.now fault.now) }
{
    let mut out = String::from_str(alloc, "refused ")?;
    out.push_str(fault_name(fault))?;
    out.push_str(" ")?;
    push_span(&mut out, fault_span(fault))?;
    push_kept(&mut out, alloc, names, fault)?;
    out.push_str("\n")?;
    Ok(out)
}

/// The line that reports a file that cannot be read, by its number.
pub fn read_fault_line(alloc: Global, file: u32) -> Result<String, NoMemory>
    ensures { IfOk result (λ line. string_bytes line ≡ spec.read_fault_line file) }
{
    let mut out = String::from_str(alloc, "fault read ")?;
    push_number(&mut out, file as u64)?;
    out.push_str("\n")?;
    Ok(out)
}
