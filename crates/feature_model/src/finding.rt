//! What a rule says of a partial product.

ghost use Rattle.std.specs.Prelude.{◌≡◌, Bool, true};
ghost use Rattle.smv_ast.specs.declared.model.Product.{Product as ProductSeen};
ghost use Rattle.feature_model.specs.Findings as spec;
ghost use Rattle.feature_model.specs.Lookaheads.{IsLookahead};

use crate::lookahead::Lookahead;
use crate::partial_product::PartialProduct;
use crate::sets::{complement, first_common, first_feature};

/// What a rule says of a partial product, and the features that show it.
#[derive(Clone, Copy)]
pub enum Finding {
    Open,
    /// No product keeps the rule.
    Refuted {
        features: u64,
    },
    /// Products that keep the rule all have the feature, or all lack it.
    Forced {
        feature: u8,
        chosen: bool,
        features: u64,
    },
}

impl Finding {
    /// Whether the rule says nothing more.
    pub fn is_open(self) -> bool
        ensures { result ≡ spec.is_open self }
    {
        matches!(self, Finding::Open)
    }

    /// What the rule says of the partial product, as far as it can be seen one feature ahead.
    pub fn of_rule(partial: PartialProduct, rule: Lookahead) -> Finding
        ensures { (test : ProductSeen → Bool) → IsLookahead partial test rule
            → spec.IsFinding partial (λ p. test p ≡ true) result }
    {
        let features = rule.features;
        let decided = partial.decided();
        let barred = complement(rule.if_chosen.true_in);
        let needed = complement(rule.if_left_out.true_in);
        if let Some(_) = first_common(barred, decided) {
            return Finding::Refuted { features };
        }
        if let Some(_) = first_common(needed, decided) {
            return Finding::Refuted { features };
        }
        if let Some(feature) = first_feature(barred) {
            return Finding::Forced {
                feature,
                chosen: false,
                features,
            };
        }
        if let Some(feature) = first_feature(needed) {
            return Finding::Forced {
                feature,
                chosen: true,
                features,
            };
        }
        Finding::Open
    }
}
