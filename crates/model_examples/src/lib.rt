//! The definitions of models, their meaning and their static checks, evaluated on small models. The
//! crate has no code: `specs` has the models, `proofs` an equation for each value, worked out by hand.
#![tactic(auto)]
