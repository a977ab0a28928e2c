// How queries end.
use fm_poly::Poly;
use fm_run::Task;

/// How a query ends: with an answer, without one in a task, or refused. `None` stands for `no`.
#[derive(Drop)]
pub enum End {
    /// Whether the module is zero, and the stable index.
    Zero {
        yes: bool,
        stable: u64,
    },
    /// The first stage at which the class is zero.
    Class {
        stage: Option<u64>,
    },
    /// The least power that annihilates.
    Invert {
        power: Option<u64>,
    },
    /// Generators of the ideal of the support.
    Support {
        ideal: Vec<Poly>,
    },
    Root {
        rank: u64,
        stable: u64,
    },
    /// The ranks of a resolution, from that in degree 0 on.
    Ranks {
        ranks: Vec<u64>,
    },
    ExtOf {
        generators: u64,
        relations: u64,
    },
    /// Whether the map is zero, whether it is one to one, and the first stage at which it is onto.
    Map {
        zero: bool,
        one: bool,
        onto: Option<u64>,
    },
    Member {
        yes: bool,
    },
    /// No unit was left in the task.
    Budget {
        task: Task,
    },
    /// An exponent passes the bound in the task.
    Exponents {
        task: Task,
    },
    WrongLength {
        found: u64,
        needed: u64,
    },
    NotCocycle {
        component: u64,
    },
    NotContained {
        generator: u64,
    },
}
