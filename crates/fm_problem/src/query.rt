// Queries.
use fm_poly::Poly;
use sqlite_items::Items;

/// A query of a problem. `i` is the degree of the local cohomology module; ideals count from 0.
#[derive(Drop)]
pub enum Query {
    /// Is the module zero?
    Zero {
        i: u8,
        ideal: u32,
    },
    /// Is the class of `z` at stage `e` zero in the limit?
    Class {
        i: u8,
        ideal: u32,
        e: u8,
        z: Items<Poly>,
    },
    /// A root of the module.
    Root {
        i: u8,
        ideal: u32,
    },
    /// Does the module vanish after inverting `f`?
    Invert {
        i: u8,
        ideal: u32,
        f: Poly,
    },
    /// The ideal of the support of the module.
    Support {
        i: u8,
        ideal: u32,
    },
    /// The map from the source's module to the target's.
    Map {
        i: u8,
        source: u32,
        target: u32,
    },
    /// Is `f` in the ideal?
    Member {
        ideal: u32,
        f: Poly,
    },
    /// A resolution of the ideal's quotient through this degree.
    Resolution {
        i: u8,
        ideal: u32,
    },
    /// The Ext module and its generating morphism.
    ExtOf {
        i: u8,
        ideal: u32,
    },
}
