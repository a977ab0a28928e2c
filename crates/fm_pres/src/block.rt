// The matrices that lines have named for one ideal.

/// The numbers of the parts that lines have named for one ideal in one degree, each kind in its order: d_1, d_2, ..; theta_0, theta_1, ..; Z; the kernels
/// K_0, K_1, .., of which the first is N; and U.
#[derive(Drop)]
pub struct Block {
    pub ideal: u32,
    pub degree: u8,
    pub differentials: Vec<u32>,
    pub lift: Vec<u32>,
    pub cocycles: Vec<u32>,
    pub kernels: Vec<u32>,
    pub morphism: Vec<u32>,
}
