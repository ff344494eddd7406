//! What a condition gives to its two sides.

use crate::environments::Environment;
use srb_terms::Ty;

/// A condition's type, and the environments for truth and for falsehood. The environment of the state after a condition is left open.
#[derive(Drop)]
pub struct Tested {
    pub ty: Ty,
    pub truth: Environment,
    pub falsehood: Environment,
}
