// How queries end, as lines say it.
use fm_poly::Poly;

/// How a query ends: with an answer, without one in a task, or refused. `None` stands for `no`; a task is told by its words.
#[derive(Drop)]
pub enum Ending<'a> {
    Zero {
        yes: bool,
        stable: u64,
    },
    Class {
        stage: Option<u64>,
    },
    Invert {
        power: Option<u64>,
    },
    Support {
        ideal: Vec<Poly>,
    },
    Root {
        rank: u64,
        stable: u64,
    },
    Ranks {
        ranks: Vec<u64>,
    },
    ExtOf {
        generators: u64,
        relations: u64,
    },
    Map {
        zero: bool,
        one: bool,
        onto: Option<u64>,
    },
    Member {
        yes: bool,
    },
    Budget {
        task: &'a [u8],
    },
    Exponents {
        task: &'a [u8],
    },
    WrongLength {
        found: u64,
        needed: u64,
    },
    NotCocycle {
        component: u64,
    },
    NotContained {
        generator: u64,
    },
}
