//! Words: the literals of a number, the lowest bit first. The highest one is the sign.
ghost use Rattle.std.specs.Prelude.{◌≡◌, ◌<◌, ◌≤◌, IfOk, All, length};
ghost use Rattle.gate_build.specs.Circuits.{IsMade, falsity};
ghost use Rattle.bit_encode.specs.Numbers as numbers;
ghost use Rattle.bit_encode.specs.Words as spec;

use fsmv_base::NoMemory;
use sat_lits::Lit;
use std::alloc::Global;

/// The highest bit.
pub fn sign_of(word: &[Lit]) -> Lit
    ensures { result ≡ spec.sign_of falsity word.now }
{
    match word {
        [] => Lit::new(1, false),
        [.., last] => *last,
    }
}

/// A word at another width: cut, or widened by its sign.
pub fn resize(alloc: Global, word: &[Lit], width: usize) -> Result<Vec<Lit>, NoMemory>
    ensures { IfOk result (λ made. made.items ≡ spec.resized width word.now) }
{
    let mut resized = Vec::from_slice(alloc, word)?;
    resized.resize(width, sign_of(word))?;
    Ok(resized)
}

/// Each bit negated.
pub fn negate(alloc: Global, word: &[Lit]) -> Result<Vec<Lit>, NoMemory>
    ensures { IfOk result (λ made. made.items ≡ spec.negated word.now) }
{
    let mut negated = Vec::new(alloc);
    for lit in word {
        negated.push(lit.negate())?;
    }
    Ok(negated)
}

/// Twice the number and a bit, at the same width.
pub fn shift(alloc: Global, low: Lit, word: &[Lit]) -> Result<Vec<Lit>, NoMemory>
    ensures { IfOk result (λ made. made.items ≡ spec.shifted low word.now) }
{
    let mut shifted = vec![in alloc; low]?;
    shifted.extend_from_slice(word)?;
    shifted.truncate(word.len());
    Ok(shifted)
}

/// Half of a number, rounded down.
fn half(number: i64) -> i64
    ensures { result ≡ numbers.half number }
{
    if number < 0 {
        -1 - (-1 - number) / 2
    } else {
        number / 2
    }
}

/// Whether a number is odd.
fn is_odd(number: i64) -> bool
    ensures { result ≡ numbers.odd number }
{
    number % 2 != 0
}

/// So many bits of a number.
pub fn constant_word(alloc: Global, width: usize, number: i64) -> Result<Vec<Lit>, NoMemory>
    ensures { IfOk result (λ made. made.items ≡ spec.constant_word width number) }
{
    let mut word = Vec::new(alloc);
    let mut rest = number;
    for _ in 0..width {
        word.push(Lit::new(1, is_odd(rest)))?;
        rest = half(rest);
    }
    Ok(word)
}
