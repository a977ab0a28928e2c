// What a certificate is to show.
use crate::Aim;
use fm_pres::Block;

/// The source of a map: the number of its ideal, the matrices that are named for it, and the place of its first repeat.
#[derive(Drop)]
pub struct MapSource {
    pub ideal: u32,
    pub block: Block,
    pub repeat: u64,
}

/// An ideal of the problem by its number from 0, the degree, and what is said of them.
#[derive(Drop)]
pub struct Goal {
    pub ideal: u32,
    pub degree: u8,
    pub aim: Aim,
}
