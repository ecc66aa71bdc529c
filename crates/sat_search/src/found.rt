//! A whole search: its answer, with the values of a model.
ghost use Rattle.std.specs.Prelude.{◌≡◌, ℕ, ◌≤◌, ◌<◌, ◌^◌, All, Some, None, IfOk, OnOk, OnErr, true};
ghost use Rattle.std.specs.Option.{option_map};
ghost use Rattle.sat_lits.specs.Literals.{literal};
ghost use Rattle.sat_arena.specs.Trails.{true_in, marked, IsGrown};
ghost use Rattle.sat_search.specs.Assumed.{assumed};
ghost use Rattle.sat_search.specs.Clashes.{HasClash};
ghost use Rattle.sat_search.specs.Solvers.{IsSolver};
ghost use Rattle.sat_search.specs.Additions.{HasVariables};
ghost use Rattle.sat_search.specs.Sessions.{AddsLines};
ghost use Rattle.sat_search.specs.Founds.{HasValues, IsFound};

use crate::answer::Answer;
use crate::solver::Solver;
use fsmv_base::NoMemory;
use sat_analyze::Analyzer;
use sat_arena::Trail;
use sat_lits::Lit;
use std::alloc::Global;

/// An answer, with the values of the variables by their numbers where it is a model.
#[derive(Drop)]
pub struct Found {
    pub answer: Answer,
    pub values: Option<Vec<bool>>,
}

impl Solver {
    /// Searches for values that satisfy all clauses and the assumptions.
    pub fn find(
        &mut self,
        alloc: Global,
        analyzer: &mut Analyzer,
        assumptions: &[Lit],
        literal_set: &[bool],
        most: u32,
        vars: u32,
    ) -> Result<Found, NoMemory>
        requires solver { IsSolver self.old }
        requires variables { HasVariables self.old.log }
        requires vars { vars ≡ self.old.propagator.vars }
        requires small { vars < 2 ^ 30 }
        requires grown { All (IsGrown vars) assumptions.now }
        requires no_clash { HasClash assumptions.now → ⊥ }
        requires literal_set { (l : ℕ) → marked literal_set.now l ≡ assumed assumptions.now l }
        ensures vars { self.new.propagator.vars ≡ self.old.propagator.vars }
        ensures solver { OnOk result (IsSolver self.new) }
        ensures variables { HasVariables self.new.log }
        ensures ok { IfOk result (IsFound assumptions.now self.old.log self.new.log most) }
        ensures err { OnErr result (AddsLines assumptions.now self.old.log self.new.log most None) }
    {
        let answer = self.run(analyzer, assumptions, literal_set, most)?;
        with_values(alloc, self.propagator.trail(), vars, answer)
    }
}

/// The answer, with the values of the variables where it is a model.
fn with_values(alloc: Global, trail: &Trail, vars: u32, answer: Answer) -> Result<Found, NoMemory>
    requires vars { vars ≤ trail.now.vars }
    requires small { vars < 2 ^ 30 }
    ensures answer { IfOk result (λ found. found.answer ≡ answer) }
    ensures cause { OnErr result (answer ≡ Answer.Model) }
    ensures values { IfOk result
        (λ found. HasValues trail.now.entries vars answer
        (option_map (λ values. values.items) found.values)) }
{
    let Answer::Model = answer else {
        return Ok(Found {
            answer,
            values: None,
        });
    };
    let values = values_of(alloc, trail, vars)?;
    Ok(Found {
        answer,
        values: Some(values),
    })
}

/// Whether each variable up to this one is true, by their numbers.
fn values_of(alloc: Global, trail: &Trail, vars: u32) -> Result<Vec<bool>, NoMemory>
    requires vars { vars ≤ trail.now.vars }
    requires small { vars < 2 ^ 30 }
    ensures { IfOk result (λ values. (var : ℕ) → 1 ≤ var → var ≤ vars → marked values.items var
        ≡ true_in trail.now.entries (literal var true)) }
{
    let mut values = vec![in alloc; false; vars as usize + 1]?;
    for before in 0..vars {
        let var = before + 1;
        values[var as usize] = trail.is_true(Lit::new(var, true));
    }
    Ok(values)
}
