// Head reductions.
use fm_gfp::Gf;
use fm_mono::Mono;

/// A head reduction: the number of the member, from 1, and the term by which it is multiplied.
#[derive(Clone, Copy, Debug, PartialEq, Eq)]
pub struct Step {
    pub number: u32,
    pub mono: Mono,
    pub coeff: Gf,
}
