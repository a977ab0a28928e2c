// Polynomial rings.
use fm_gfp::Prime;
use fm_mono::Order;

/// The ring GF(p)[x1 .. xn] with a monomial order; `vars` is from 1 to 8 wherever a ring is handed to a call.
#[derive(Clone, Copy, Debug, PartialEq, Eq)]
pub struct Ring {
    pub prime: Prime,
    pub vars: u8,
    pub order: Order,
}
