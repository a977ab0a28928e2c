// Ext of a resolution.
ghost use Rattle.std.specs.Prelude.{IfOk, length, ◌≡◌, ◌≤◌};
ghost use Rattle.fm_ext.specs.Exts.{IsExt, ext_meaning};
ghost use Rattle.fm_plan.specs.Base.{ext_plan};
ghost use Rattle.fm_plan.specs.Following.{FollowsPlan};
ghost use Rattle.fm_resolve.specs.Resolutions.{resolution_value};

use crate::cocycles::cocycles;
use crate::exts::Ext;
use crate::lifting::lift_along;
use crate::morphism::{matrix_of, morphism};
use crate::relations::relations;
use fm_resolve::Resolution;
use fm_run::{Name, Side, Stopped, Task, Work, in_task};
use std::alloc::Global;

/// Ext in this degree, by the tasks `lift 1` .. `lift i`, `cocycles`, `relations` and `morphism`. It takes over the resolution, which goes
/// through the degree.
pub fn ext(
    alloc: Global,
    side: Side,
    resolution: Resolution,
    degree: u8,
    work: &mut Work,
) -> Result<Ext, Stopped>
    requires some { 1 ≤ resolution.first.matrix.ring.vars }
    requires few { resolution.first.matrix.ring.vars ≤ 8 }
    requires degree { length resolution.next ≡ degree }
    ensures follows { let r = resolution.first.matrix.ring in FollowsPlan (ext_meaning r) result work.old work.new
        (ext_plan r side degree (resolution_value r resolution) work.old) }
    ensures resolution { IfOk result (λ y. y.resolution ≡ resolution) }
    ensures presents { IfOk result IsExt }
{
    let lift = lift_along(alloc, side, &resolution, degree, work)?;
    let cocycles = in_task(
        task(side, Name::Cocycles),
        cocycles(alloc, &resolution, degree, work),
    )?;
    let z = cocycles.generators().graph();
    let relations = in_task(
        task(side, Name::Relations),
        relations(alloc, &resolution, degree, z.matrix(), work),
    )?;
    let theta = matrix_of(&lift, degree);
    let u = in_task(task(side, Name::Morphism), morphism(alloc, theta, z, work))?;
    Ok(Ext::new(resolution, lift, cocycles, relations, u))
}

fn task(side: Side, name: Name) -> Task
    ensures { result ≡ record { side = side; name = name; number = 0 } }
{
    Task {
        side,
        name,
        number: 0,
    }
}
