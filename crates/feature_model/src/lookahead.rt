//! What a rule on products may be, where one more feature is decided: 64 cases at once, one for each feature.

ghost use Rattle.std.specs.Prelude.{◌≡◌, ℕ, ◌<◌, ◌&&◌, ◌||◌, not, Bool, true, false};
ghost use Rattle.std.specs.Bool.{beq};
ghost use Rattle.smv_ast.specs.declared.model.Product.{Product as ProductSeen};
ghost use Rattle.feature_model.specs.declared.partial_product.PartialProduct.{PartialProduct as Partial};
ghost use Rattle.feature_model.specs.Lookaheads as spec;
ghost use Rattle.feature_model.specs.Products as products;

use crate::partial_product::PartialProduct;
use crate::sets::{has, with, without};

/// Of 64 cases those in which a rule may be true, and those in which it may be false.
#[derive(Clone, Copy)]
pub struct Possible {
    pub true_in: u64,
    pub false_in: u64,
}

/// What a rule may be: in case f one more feature is decided, which is f, unless it is decided already.
#[derive(Clone, Copy)]
pub struct Lookahead {
    pub if_chosen: Possible,
    pub if_left_out: Possible,
    /// The features of which the rule speaks.
    pub features: u64,
}

impl Possible {
    /// A rule with this value.
    fn constant(value: bool) -> Possible
        ensures { (f : ℕ) → f < 64 → spec.allows result f value ≡ true }
    {
        if value {
            Possible {
                true_in: u64::MAX,
                false_in: 0,
            }
        } else {
            Possible {
                true_in: 0,
                false_in: u64::MAX,
            }
        }
    }

    /// The feature, in the cases in which one more feature is chosen.
    fn if_chosen(f: u8) -> Possible
        requires { f < 64 }
        ensures { spec.HasValueOf f true result }
    {
        Possible {
            true_in: u64::MAX,
            false_in: without(u64::MAX, f),
        }
    }

    /// The feature, in the cases in which one more feature is left out.
    fn if_left_out(f: u8) -> Possible
        requires { f < 64 }
        ensures { spec.HasValueOf f false result }
    {
        Possible {
            true_in: without(u64::MAX, f),
            false_in: u64::MAX,
        }
    }

    /// The negation of a rule.
    fn negated(self) -> Possible
        ensures { (f : ℕ) (a : Bool) → spec.allows self f a ≡ true → spec.allows result f (not a) ≡ true }
    {
        Possible {
            true_in: self.false_in,
            false_in: self.true_in,
        }
    }

    /// The conjunction of two rules.
    fn and(self, other: Possible) -> Possible
        ensures { (f : ℕ) (a b : Bool) → spec.allows self f a ≡ true → spec.allows other f b ≡ true
            → spec.allows result f (a && b) ≡ true }
    {
        Possible {
            true_in: self.true_in & other.true_in,
            false_in: self.false_in | other.false_in,
        }
    }
}

impl Lookahead {
    /// A rule with this value.
    pub fn constant(value: bool) -> Lookahead
        ensures { (partial : Partial) → spec.IsLookahead partial (λ p. value) result }
    {
        Lookahead {
            if_chosen: Possible::constant(value),
            if_left_out: Possible::constant(value),
            features: 0,
        }
    }

    /// A rule of which nothing is known.
    pub fn unknown() -> Lookahead
        ensures { (partial : Partial) (rule : ProductSeen → Bool) → spec.IsLookahead partial rule result }
    {
        let unknown = Possible {
            true_in: u64::MAX,
            false_in: u64::MAX,
        };
        Lookahead {
            if_chosen: unknown,
            if_left_out: unknown,
            features: 0,
        }
    }

    /// The rule that a product has the feature.
    pub fn of_feature(partial: PartialProduct, f: u8) -> Lookahead
        requires { f < 64 }
        ensures { spec.IsLookahead partial (λ p. products.has p.bits f) result }
    {
        let features = with(0, f);
        if has(partial.decided(), f) {
            let known = Possible::constant(has(partial.chosen, f));
            return Lookahead {
                if_chosen: known,
                if_left_out: known,
                features,
            };
        }
        Lookahead {
            if_chosen: Possible::if_chosen(f),
            if_left_out: Possible::if_left_out(f),
            features,
        }
    }

    /// The negation of the rule.
    pub fn negated(self) -> Lookahead
        ensures { (partial : Partial) (rule : ProductSeen → Bool) → spec.IsLookahead partial rule self
            → spec.IsLookahead partial (λ p. not (rule p)) result }
    {
        Lookahead {
            if_chosen: self.if_chosen.negated(),
            if_left_out: self.if_left_out.negated(),
            features: self.features,
        }
    }

    /// The conjunction of both rules.
    pub fn and(self, other: Lookahead) -> Lookahead
        ensures { (partial : Partial) (one two : ProductSeen → Bool) → spec.IsLookahead partial one self
            → spec.IsLookahead partial two other → spec.IsLookahead partial (λ p. one p && two p) result }
    {
        Lookahead {
            if_chosen: self.if_chosen.and(other.if_chosen),
            if_left_out: self.if_left_out.and(other.if_left_out),
            features: self.features | other.features,
        }
    }

    /// The disjunction of both rules.
    pub fn or(self, other: Lookahead) -> Lookahead
        ensures { (partial : Partial) (one two : ProductSeen → Bool) → spec.IsLookahead partial one self
            → spec.IsLookahead partial two other → spec.IsLookahead partial (λ p. one p || two p) result }
    {
        self.negated().and(other.negated()).negated()
    }

    /// The rule that the second rule is true where the first is.
    pub fn implies(self, other: Lookahead) -> Lookahead
        ensures { (partial : Partial) (one two : ProductSeen → Bool) → spec.IsLookahead partial one self
            → spec.IsLookahead partial two other → spec.IsLookahead partial (λ p. not (one p) || two p) result }
    {
        self.negated().or(other)
    }

    /// The rule that both rules have one value.
    pub fn iff(self, other: Lookahead) -> Lookahead
        ensures { (partial : Partial) (one two : ProductSeen → Bool) → spec.IsLookahead partial one self
            → spec.IsLookahead partial two other → spec.IsLookahead partial (λ p. beq (one p) (two p)) result }
    {
        self.implies(other).and(other.implies(self))
    }
}
