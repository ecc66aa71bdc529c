//! Words of the variables of a flat model, from the bits that number their places.
ghost use Rattle.std.specs.Prelude.{◌≡◌, ◌≤◌, ◌+◌, ◌++◌, ◌∷◌, [], IfOk, length, pos};
ghost use Rattle.gate_build.specs.Circuits.{IsMade, Extends, falsity};
ghost use Rattle.bit_encode.specs.Made.{AreMade};
ghost use Rattle.bit_encode.specs.Places as spec;

use crate::pairwise::{PairGate, pairwise};
use crate::sums::add;
use crate::words::{constant_word, resize};
use fsmv_base::NoMemory;
use gate_build::Gates;
use sat_lits::Lit;
use std::alloc::Global;

/// The place of a variable as a number: its bits, below a sign that is false.
fn place_word(alloc: Global, bits: &[Lit]) -> Result<Vec<Lit>, NoMemory>
    ensures { IfOk result (λ word. word.items ≡ spec.place_word bits.now) }
{
    let mut word = Vec::from_slice(alloc, bits)?;
    word.push(Lit::new(1, false))?;
    Ok(word)
}

/// The bit where the place has it, and otherwise its negation.
fn wanted(bit: Lit, place: usize) -> Lit
    ensures { result ≡ spec.wanted place bit }
{
    if place % 2 == 1 { bit } else { bit.negate() }
}

/// The literals that are all true where a variable stands at a place: its bits or their negations.
fn at_place(alloc: Global, bits: &[Lit], place: usize) -> Result<Vec<Lit>, NoMemory>
    ensures { IfOk result (λ lits. lits.items ≡ spec.at_place place bits.now) }
{
    let mut lits = Vec::new(alloc);
    let mut rest = place;
    for bit in bits {
        lits.push(wanted(*bit, rest))?;
        rest /= 2;
    }
    Ok(lits)
}

/// Whether a variable stands at a place.
#[tactic(auto, using(crate::proofs::MadeLemmas::made_steps), unfolding(crate::specs::Places::place_test_of))]
fn place_test(alloc: Global, gates: &mut Gates, bits: &[Lit], place: usize) -> Result<Lit, NoMemory>
    requires made_bits { AreMade gates.old bits.now }
    ensures numbered { IfOk result (λ l. (l, gates.new) ≡ spec.place_test_of place bits.now gates.old) }
    ensures made { IfOk result (λ l. IsMade gates.new l) }
    ensures extends { Extends gates.old gates.new }
{
    let lits = at_place(alloc, bits, place)?;
    gates.all(&lits)
}

/// For each of the first places, whether a variable stands at it.
#[tactic(auto, using(crate::proofs::MadeLemmas::made_steps))]
fn place_tests(
    alloc: Global,
    gates: &mut Gates,
    bits: &[Lit],
    places: usize,
) -> Result<Vec<Lit>, NoMemory>
    requires made_bits { AreMade gates.old bits.now }
    ensures numbered { IfOk result (λ tests. (tests.items, gates.new) ≡ spec.place_tests_of places 0 bits.now gates.old) }
    ensures width { IfOk result (λ tests. length tests.items ≡ places) }
    ensures made { IfOk result (λ tests. AreMade gates.new tests.items) }
    ensures extends { Extends gates.old gates.new }
{
    let mut tests = Vec::new(alloc);
    for place in 0..places {
        let test = place_test(alloc, gates, bits, place)?;
        tests.push(test)?;
    }
    Ok(tests)
}

/// The number of the first test that is true, and the last number where none is.
#[tactic(auto, using(crate::proofs::MadeLemmas::made_steps))]
fn choose_number(
    alloc: Global,
    gates: &mut Gates,
    tests: &[Lit],
    numbers: &[i64],
    width: usize,
) -> Result<Vec<Lit>, NoMemory>
    requires one_more { length numbers.now ≡ length tests.now + 1 }
    requires made_tests { AreMade gates.old tests.now }
    ensures numbered { IfOk result (λ word. (word.items, gates.new) ≡ spec.choose_of width tests.now numbers.now gates.old) }
    ensures width { IfOk result (λ word. length word.items ≡ width) }
    ensures made { IfOk result (λ word. AreMade gates.new word.items) }
    ensures extends { Extends gates.old gates.new }
{
    let mut next = tests.len();
    let mut word = constant_word(alloc, width, numbers[next])?;
    while next > 0 {
        next -= 1;
        let number = constant_word(alloc, width, numbers[next])?;
        word = pairwise(alloc, gates, &PairGate::Choose(tests[next]), &number, &word)?;
    }
    Ok(word)
}

/// The number at a place, counted from the lowest number.
#[tactic(auto, using(crate::proofs::MadeLemmas::made_steps), unfolding(crate::specs::Places::range_of))]
fn range_word(
    alloc: Global,
    gates: &mut Gates,
    low: i64,
    bits: &[Lit],
    width: usize,
) -> Result<Vec<Lit>, NoMemory>
    requires made_bits { AreMade gates.old bits.now }
    ensures numbered { IfOk result (λ word. (word.items, gates.new) ≡ spec.range_of width low bits.now gates.old) }
    ensures width { IfOk result (λ word. length word.items ≡ width) }
    ensures made { IfOk result (λ word. AreMade gates.new word.items) }
    ensures extends { Extends gates.old gates.new }
{
    let place = place_word(alloc, bits)?;
    let place = resize(alloc, &place, width)?;
    let low = constant_word(alloc, width, low)?;
    add(alloc, gates, &place, &low, gates.constant(false))
}

/// The number at a place of a table of numbers.
#[tactic(auto, using(crate::proofs::MadeLemmas::made_steps), unfolding(crate::specs::Places::table_of))]
fn table_word(
    alloc: Global,
    gates: &mut Gates,
    numbers: &[i64],
    bits: &[Lit],
    width: usize,
) -> Result<Vec<Lit>, NoMemory>
    requires some { 1 ≤ length numbers.now }
    requires made_bits { AreMade gates.old bits.now }
    ensures numbered { IfOk result (λ word. (word.items, gates.new) ≡ spec.table_of width numbers.now bits.now gates.old) }
    ensures width { IfOk result (λ word. length word.items ≡ width) }
    ensures made { IfOk result (λ word. AreMade gates.new word.items) }
    ensures extends { Extends gates.old gates.new }
{
    let tests = place_tests(alloc, gates, bits, numbers.len() - 1)?;
    choose_number(alloc, gates, &tests, numbers, width)
}
