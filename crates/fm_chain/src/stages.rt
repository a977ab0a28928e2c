// After how many moves a class is a coboundary.
ghost use Rattle.std.specs.Prelude.{IfOk, None, length, map, ◌≡◌};
ghost use Rattle.fm_chain.specs.Stages.{AreGraphsOf, IsKilledOver, IsLeast, killed_value};
ghost use Rattle.fm_mat.specs.Matrices.{column_meaning, matrix_meaning};
ghost use Rattle.fm_plan.specs.Following.{FollowsPlan};
ghost use Rattle.fm_plan.specs.Queries as plans;
ghost use Rattle.fm_syz.specs.GraphValues.{graph_meaning};
ghost use Rattle.fm_vec.specs.Components.{AreOver};

use crate::lifting_at::lift_at;
use fm_poly::{Poly, Ring};
use fm_run::{Name, Side, Stopped, Task, Work, in_task};
use fm_syz::{Graph, Lifted, Outside};
use std::alloc::Global;

/// A class is a coboundary after so many moves, by the solution w, and not after one move less; or it never is.
#[derive(Drop)]
pub enum Killed {
    At {
        moves: u64,
        w: Vec<Poly>,
        before: Option<Outside>,
    },
    Never {
        before: Option<Outside>,
    },
}

/// The least number of moves that kill the class of stage e with the coordinates w, from the graphs of K_0, K_1, ..: the tasks `stage 0`,
/// `stage 1`, ..
pub fn kill_stage(
    alloc: Global,
    ring: Ring,
    e: u8,
    w: &[Poly],
    graphs: &[&Graph],
    work: &mut Work,
) -> Result<Killed, Stopped>
    requires over { AreOver ring w.now }
    requires graphs { AreGraphsOf ring (length w.now) (map (λ g. g.now) graphs.now) }
    ensures follows { FollowsPlan (killed_value ring) result work.old work.new
        (plans.stages ring e (column_meaning ring w.now) 0 None (map (λ g. graph_meaning ring g.now) graphs.now) work.old) }
    ensures least { IfOk result (IsLeast ring e (column_meaning ring w.now) (map (λ g. matrix_meaning ring g.now.matrix) graphs.now)) }
    ensures over { IfOk result (IsKilledOver ring) }
{
    let mut before = None;
    let mut moves = 0;
    for g in graphs {
        let lifted = in_task(stage_task(moves), lift_at(alloc, g, e, w, work))?;
        match lifted {
            Lifted::InImage(v) => {
                return Ok(Killed::At {
                    moves,
                    w: v,
                    before,
                });
            }
            Lifted::NotInImage(outside) => before = Some(outside),
        }
        moves += 1;
    }
    Ok(Killed::Never { before })
}

fn stage_task(moves: u64) -> Task
    ensures { result ≡ record { side = Side.Alone; name = Name.Stage; number = moves } }
{
    Task {
        side: Side::Alone,
        name: Name::Stage,
        number: moves,
    }
}
