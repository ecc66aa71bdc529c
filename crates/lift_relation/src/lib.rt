//! The lift of a family beside the text of one of its products: how the two are related, and the laws
//! that follow from the relation alone. Nothing here runs: a crate above, which makes lifts, shows that
//! each of its lifts is related to the text of each product, and has its runs by the law.
#![tactic(auto)]

ghost use Rattle.lift_relation.specs.Correspondence as correspondence;

/// The law: where a lift and the text of a product are related, the runs of the lift at the product,
/// projected, are the runs of the text, one to one.
pub fn runs_correspond()
    ensures { correspondence.RunsCorrespond }
{}
