// Which generators of an ideal another ideal contains.
ghost use Rattle.std.specs.Prelude.{IfOk, length, map, ◌+◌, ◌<◌, ◌^◌, ◌∷◌, ◌≡◌, []};
ghost use Rattle.fm_complete.specs.Divisions as divisions;
ghost use Rattle.fm_complete.specs.Divisions.{AreMembers};
ghost use Rattle.fm_complete.specs.Standing.{AreOfShape};
ghost use Rattle.fm_graphs.specs.Listing.{terms_of};
ghost use Rattle.fm_mat.specs.Matrices.{column_meaning};
ghost use Rattle.fm_plan.specs.Following.{FollowsPlan};
ghost use Rattle.fm_plan.specs.Queries.{contained_from, contained_work};
ghost use Rattle.fm_plan.specs.Tasks.{task};
ghost use Rattle.fm_poly.specs.Polys.{meaning};
ghost use Rattle.fm_run.specs.Runs.{Follows};
ghost use Rattle.fm_run.specs.declared.task.Name.TheVariants as names;
ghost use Rattle.fm_run.specs.declared.task.Side.TheVariants as sides;
ghost use Rattle.fm_vec.specs.Components.{AreOver};

use fm_complete::{complete_all, rest_of};
use fm_poly::{Poly, Ring};
use fm_run::{Name, Side, Stop, Stopped, Task, Work, in_task};
use fm_vec::Vector;
use std::alloc::{AllocError, Global};
use std::slice;

/// The number, from 1, of the first generator of the target that does not lie in the ideal of the source's generators, if there is one, by the
/// task `contained`. It costs a completion of the source's generators, and one division for each generator of the target up to that one.
pub fn first_not_contained(
    alloc: Global,
    ring: Ring,
    source: &[Poly],
    target: &[Poly],
    work: &mut Work,
) -> Result<Option<u32>, Stopped>
    requires source { AreOver ring source.now }
    requires target { AreOver ring target.now }
    requires few { length source.now < 2 ^ 32 }
    requires room { length target.now < 2 ^ 32 }
    ensures follows { FollowsPlan (λ k. k) result work.old work.new
        (task sides.Alone names.Contained 0 (contained_work ring (column_meaning ring source.now) (column_meaning ring target.now)) work.old) }
{
    let task = Task {
        side: Side::Alone,
        name: Name::Contained,
        number: 0,
    };
    in_task(task, completed_first(alloc, ring, source, target, work))
}

// The completion of the source, and then the divisions.
fn completed_first(
    alloc: Global,
    ring: Ring,
    source: &[Poly],
    target: &[Poly],
    work: &mut Work,
) -> Result<Option<u32>, Stop>
    requires source { AreOver ring source.now }
    requires target { AreOver ring target.now }
    requires few { length source.now < 2 ^ 32 }
    requires room { length target.now < 2 ^ 32 }
    ensures follows { Follows (λ k. k) result work.old work.new
        (contained_work ring (column_meaning ring source.now) (column_meaning ring target.now) work.old) }
{
    let inputs = generator_vectors(alloc, ring, source)?;
    let basis = complete_all(alloc, ring, 1, &inputs, work)?;
    first_undivided(alloc, ring, &basis.members, target, work)
}

// The number, from 1, of the first of these polynomials that the members do not divide.
fn first_undivided(
    alloc: Global,
    ring: Ring,
    members: &[Vector],
    generators: &[Poly],
    work: &mut Work,
) -> Result<Option<u32>, Stop>
    requires members { AreMembers ring 1 members.now }
    requires few { length members.now < 2 ^ 32 }
    requires over { AreOver ring generators.now }
    requires room { length generators.now < 2 ^ 32 }
    ensures follows { Follows (λ k. k) result work.old work.new
        (contained_from ring (divisions.terms_of members.now) 1 (column_meaning ring generators.now) work.old) }
{
    let mut left = generators;
    let mut number = 0;
    'generators: loop {
        let Some((f, later)) = left.split_first() else {
            return Ok(None);
        };
        number += 1;
        let v = vector(alloc, ring, f)?;
        let x = rest_of(alloc, members, &v, work)?;
        if x.rest.head().is_some() {
            return Ok(Some(number));
        }
        left = later;
    }
}

// The polynomials as vectors of one component.
fn generator_vectors(
    alloc: Global,
    ring: Ring,
    generators: &[Poly],
) -> Result<Vec<Vector>, AllocError>
    requires over { AreOver ring generators.now }
    ensures terms { IfOk result (λ out.
        divisions.terms_of out.items ≡ map (λ f. terms_of ring (f ∷ [])) (column_meaning ring generators.now)) }
    ensures shape { IfOk result (λ out. AreOfShape ring 1 out.items) }
    ensures count { IfOk result (λ out. length out.items ≡ length generators.now) }
{
    let mut out = Vec::with_capacity(alloc, generators.len())?;
    let mut left = generators;
    'generators: loop {
        let Some((f, later)) = left.split_first() else {
            return Ok(out);
        };
        out.push(vector(alloc, ring, f)?)?;
        left = later;
    }
}

// The vector whose one component is f.
fn vector(alloc: Global, ring: Ring, f: &Poly) -> Result<Vector, AllocError>
    requires { f.now.ring ≡ ring }
    ensures ring { IfOk result (λ v. v.ring ≡ ring) }
    ensures rows { IfOk result (λ v. v.rows ≡ 1) }
    ensures terms { IfOk result (λ v. v.terms ≡ terms_of ring (meaning ring f.now.terms ∷ [])) }
{
    let v = Vector::from_column(alloc, ring, slice::from_ref(f))?;
    let _head = v.head();
    Ok(v)
}
