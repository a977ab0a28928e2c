// What is said of an ideal in a degree.
use crate::MapSource;
use fm_poly::Poly;

/// What an answer says of an ideal in a degree; `None` stands for `no`.
#[derive(Drop)]
pub enum Aim {
    Membership {
        f: Poly,
        inside: bool,
    },
    Resolution {
        ranks: Vec<u64>,
    },
    Ext {
        generators: u64,
        relations: u64,
    },
    Root {
        rank: u64,
        moves: u64,
    },
    Vanishing {
        is_zero: bool,
        moves: u64,
    },
    Dying {
        e: u8,
        z: Vec<Poly>,
        moves: u64,
    },
    Living {
        e: u8,
        z: Vec<Poly>,
    },
    Inverting {
        f: Poly,
        power: Option<u64>,
    },
    Support {
        ideal: Vec<Poly>,
    },
    /// The map to the module of the target, an ideal by its number from 0.
    Outgoing {
        target: u32,
        is_zero: bool,
        is_one: bool,
        onto: Option<u64>,
    },
    /// The map from the module of the source.
    Incoming {
        source: MapSource,
        is_zero: bool,
        is_one: bool,
        onto: Option<u64>,
    },
}
