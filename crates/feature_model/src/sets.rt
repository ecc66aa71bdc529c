//! Sets of features, as 64 bits.

ghost use Rattle.std.specs.Prelude.{◌≡◌, ◌≢◌, ℕ, ◌<◌, ◌≤◌, true, false, not, MatchOption};
ghost use Rattle.feature_model.specs.Products as spec;

/// Whether feature `f` is in the set.
#[tactic(auto, using(crate::proofs::SetLemmas::has_beyond))]
pub fn has(features: u64, f: u8) -> bool
    ensures { result ≡ spec.has features f }
{
    f < 64 && (features >> f) & 1 == 1
}

/// The same, of a feature by any number.
#[tactic(auto, using(crate::proofs::SetLemmas::has_beyond))]
pub fn has_number(features: u64, f: usize) -> bool
    ensures { result ≡ spec.has features f }
{
    f < 64 && has(features, f as u8)
}

/// The set with feature `f`.
pub fn with(features: u64, f: u8) -> u64
    requires { f < 64 }
    ensures there { spec.has result f ≡ true }
    ensures others { (g : ℕ) → g ≢ f → spec.has result g ≡ spec.has features g }
    ensures more { spec.has features f ≡ false → features < result }
{
    features | (1 << f)
}

/// The set without feature `f`.
pub fn without(features: u64, f: u8) -> u64
    requires { f < 64 }
    ensures gone { spec.has result f ≡ false }
    ensures others { (g : ℕ) → g ≢ f → spec.has result g ≡ spec.has features g }
{
    features & !(1 << f)
}

/// The features from this number on.
pub fn features_from(count: usize) -> u64
    ensures { (f : ℕ) → spec.has result f ≡ true → count ≤ f }
{
    if count < 64 { u64::MAX << count } else { 0 }
}

/// The features that are not in the set.
pub fn complement(features: u64) -> u64
    ensures { (f : ℕ) → f < 64 → spec.has result f ≡ not (spec.has features f) }
{
    !features
}

/// The first feature of the set.
pub fn first_feature(features: u64) -> Option<u8>
    ensures { MatchOption result ((f : ℕ) → spec.has features f ≡ false) (spec.IsFirstOf features) }
{
    if features == 0 {
        return None;
    }
    Some(features.trailing_zeros() as u8)
}

/// The first feature that is in both sets.
pub fn first_common(one: u64, two: u64) -> Option<u8>
    ensures { MatchOption result ((f : ℕ) → spec.has one f ≡ true → spec.has two f ≡ false)
        (λ f. (f < 64) × (spec.has one f ≡ true) × (spec.has two f ≡ true)) }
{
    first_feature(one & two)
}
