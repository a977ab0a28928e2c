// Runs that spend units of work: what a run is, how runs stand in a row and in turns, what it means that a call follows one, and the
// tasks of plans. Spending a unit, and reading what is left, cost one comparison.
//
// The notions (specs/Runs, specs/Turns, specs/Tasks):
// - a run maps the units that are there to its end, a value or a halt (budget or exponent), and the units left;
// - `ready`, `halted`, `bounded`: runs that spend nothing; `run >>= f`: one after the other; `each`: one for each of a list;
// - `repeated`: turns of a state up to the last one;
// - `Spends`: no unit is made;
// - `Follows`: a call ends as its run; after want of memory what was spent is spent;
// - `in_task`: the run of a task, whose halts carry its name.
// The laws (src/laws.rt): calls in a row follow the run of all of them, and so do calls in turns.
#![tactic(auto)]

pub mod laws;
pub mod stop;
pub mod task;
#[cfg(test)]
mod tests;
pub mod work;

pub use stop::Stop;
pub use task::{Name, Side, Stopped, Task, in_task};
pub use work::Work;
