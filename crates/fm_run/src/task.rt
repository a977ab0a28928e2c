// Tasks of plans, and calls that stop in one.
ghost use Rattle.std.specs.Prelude.{◌≡◌};
ghost use Rattle.fm_run.specs.Tasks.{stopped_in};

use crate::Stop;

/// Which ideal a task belongs to, where a plan has two.
#[derive(Clone, Copy, Debug, PartialEq, Eq)]
pub enum Side {
    Alone,
    Source,
    Target,
}

/// The word that begins a task's name.
#[derive(Clone, Copy, Debug, PartialEq, Eq)]
pub enum Name {
    Resolve,
    Lift,
    Cocycles,
    Relations,
    Morphism,
    Chain,
    Whole,
    Member,
    Test,
    Coordinates,
    Stage,
    Annihilator,
    Colon,
    Power,
    Contained,
    Lambda,
    Phi,
    Null,
    One,
    Onto,
}

/// A task of a plan. `number` is the number in its name, 0 where the name has none.
#[derive(Clone, Copy, Debug, PartialEq, Eq)]
pub struct Task {
    pub side: Side,
    pub name: Name,
    pub number: u64,
}

/// A task that stopped, and why.
#[derive(Clone, Copy, Debug, PartialEq, Eq)]
pub struct Stopped {
    pub task: Task,
    pub stop: Stop,
}

/// What the work of a task answered, a stop being told of the task.
pub fn in_task<T>(task: Task, answer: Result<T, Stop>) -> Result<T, Stopped>
    ensures { result ≡ stopped_in task answer }
{
    match answer {
        Ok(value) => Ok(value),
        Err(stop) => Err(Stopped { task, stop }),
    }
}
