// Whether a vector is a class.
ghost use Rattle.std.specs.Prelude.{length, ◌<◌, ◌^◌, ◌≡◌, ℕ};
ghost use Rattle.fm_mat.specs.Matrices.{column_meaning, matrix_meaning};
ghost use Rattle.fm_plan.specs.Queries as plans;
ghost use Rattle.fm_poly.specs.declared.ring.Ring.{Ring};
ghost use Rattle.fm_queries.specs.Founds.{FollowsQuery, class_test};
ghost use Rattle.fm_run.specs.Runs.{Follows};
ghost use Rattle.fm_vec.specs.Components.{AreOver};

use crate::duals::dual_image;
use crate::unanswered::{Refusal, Unanswered};
use fm_mat::Matrix;
use fm_poly::{Poly, PolyError};
use fm_run::{Name, Side, Stop, Task, in_task};
use std::alloc::Global;

/// Whether z is a cocycle of stage e, by the matrix d = d_(i+1): its length, which is the number of rows of d, and the task `test`. It costs
/// a twist, a flip and a product, and spends no unit.
pub fn test_class(alloc: Global, d: &Matrix, e: u8, z: &[Poly]) -> Result<(), Unanswered>
    requires over { AreOver d.now.ring z.now }
    requires room { length z.now < 2 ^ 32 }
    ensures { (units : ℕ) → let r = d.now.ring in
        FollowsQuery (λ u. u) result units units (class_test r e (matrix_meaning r d.now) (column_meaning r z.now) units) }
{
    let found = z.len() as u32;
    let needed = d.rows();
    if found != needed {
        return Err(Unanswered::Refused(Refusal::WrongLength { found, needed }));
    }
    let task = Task {
        side: Side::Alone,
        name: Name::Test,
        number: 0,
    };
    match in_task(task, first_component(alloc, d, e, z))? {
        Some(component) => Err(Unanswered::Refused(Refusal::NotCocycle { component })),
        None => Ok(()),
    }
}

// The number of the first entry of `flip(d^[q]) * z` that is not zero.
fn first_component(alloc: Global, d: &Matrix, e: u8, z: &[Poly]) -> Result<Option<u32>, Stop>
    requires over { AreOver d.now.ring z.now }
    requires rows { length z.now ≡ d.now.rows }
    requires room { length z.now < 2 ^ 32 }
    ensures { (units : ℕ) → let r = d.now.ring in Follows (λ o. o) result units units
        (plans.cocycle_work r e (matrix_meaning r d.now) (column_meaning r z.now) units) }
{
    match dual_image(alloc, d, e, z) {
        Ok(image) => {
            let columns = image.columns();
            Ok(first_nonzero(image.rows(), columns[0].entries()))
        }
        Err(PolyError::Exponent) => Err(Stop::Exponent),
        Err(PolyError::Memory) => Err(Stop::Memory),
    }
}

// The number, from 1, of the first entry that is not zero.
fn first_nonzero(rows: u32, entries: &[Poly]) -> Option<u32>
    requires { length entries.now ≡ rows }
    ensures { (r : Ring) → AreOver r entries.now → result ≡ plans.first_nonzero r 1 (column_meaning r entries.now) }
{
    for k in 0..rows {
        if !entries[k as usize].terms().is_empty() {
            return Some(k + 1);
        }
    }
    None
}
