// Terms.
use fm_gfp::Gf;
use fm_mono::Mono;

/// A coefficient times a monomial.
#[derive(Clone, Copy, Debug, PartialEq, Eq)]
pub struct Term {
    pub mono: Mono,
    pub coeff: Gf,
}
