// What the second side of a map is to show.
ghost use Rattle.std.specs.Prelude.{List, ◌≡◌};
ghost use Rattle.fm_problem.specs.declared.problem.Problem.{Problem as ProblemValue};
ghost use Rattle.fm_report.specs.Parts.{Part};
ghost use Rattle.fm_judge.specs.Goals as goals;
ghost use Rattle.fm_places.specs.Meanings.{AreIdealsOver};
ghost use Rattle.fm_pres.specs.Blocks.{AreBlockParts, block_of};
ghost use Rattle.fm_places.specs.Meanings.{IsGoal, goal_of};

use crate::{Aim, Goal, MapSource};
use fm_pres::Block;

/// The goal on the side of the target of a map, by what was named on that of the source, whose first repeat is at t; another goal stays.
pub fn beyond(goal: Goal, block: Block, t: u64) -> Goal
    ensures goal { (q : ProblemValue) (ps : List Part) → goal_of q ps result ≡ goals.target_goal (goal_of q ps goal) (block_of ps block) t }
    ensures sound { (q : ProblemValue) (ps : List Part) → AreIdealsOver q.ring q.ideals → IsGoal q ps goal → AreBlockParts ps block → IsGoal q ps result }
{
    match goal.aim {
        Aim::Outgoing {
            target,
            is_zero,
            is_one,
            onto,
        } => {
            let source = MapSource {
                ideal: goal.ideal,
                block,
                repeat: t,
            };
            Goal {
                ideal: target,
                degree: goal.degree,
                aim: Aim::Incoming {
                    source,
                    is_zero,
                    is_one,
                    onto,
                },
            }
        }
        aim => Goal {
            ideal: goal.ideal,
            degree: goal.degree,
            aim,
        },
    }
}
