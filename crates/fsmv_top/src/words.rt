//! The words of a command.

ghost use Rattle.std.specs.Prelude.{◌≡◌, ℕ, List, map, string_bytes, IfOk, MatchOption};
ghost use Rattle.std.specs.Str.{bytes_eq};
ghost use Rattle.feature_model.specs.NamedProducts.{names_at};
ghost use Rattle.fsmv_top.specs.Words as spec;

use smv_ast::NoMemory;
use std::alloc::Global;

/// The files and the product that the words of `weave` name.
#[derive(Clone, Copy)]
pub struct WeaveWords<'a> {
    pub base: &'a str,
    pub model: &'a str,
    pub features: &'a [String],
    pub product: &'a str,
}

fn is_word(word: &String, text: &str) -> bool
    ensures { result ≡ bytes_eq (string_bytes word.now) text.now }
{
    word.as_str() == text
}

/// The words of `weave`, if these are of its form.
pub fn weave_words(words: &[String]) -> Option<WeaveWords<'_>>
    ensures { MatchOption result
        ((w : spec.Weave) → map string_bytes words.entry.now ≡ spec.weave_words w → ⊥)
        (λ w. map string_bytes words.entry.now ≡ spec.weave_words (spec.weave_view w)) }
{
    let [command, base, model, features @ .., option, product] = words else {
        return None;
    };
    if !is_word(command, "weave") {
        return None;
    }
    if !is_word(option, "--product") {
        return None;
    }
    Some(WeaveWords {
        base: base.as_str(),
        model: model.as_str(),
        features,
        product: product.as_str(),
    })
}

/// The names of a list, which commas separate.
pub fn listed_names<'a>(alloc: Global, list: &'a str) -> Result<Vec<&'a str>, NoMemory>
    ensures { IfOk result (λ names. names_at names.items ≡ spec.listed_names list.now) }
{
    Ok(list.split(',').collect(alloc)?)
}
