// The algebra that all contracts cite: commutative rings, polynomials over GF(p), Frobenius twists, matrices, images and kernels.
// It has no program: definitions stand in specs/, and each law is a function of `laws` with an empty body.
#![tactic(auto)]

pub mod laws;
