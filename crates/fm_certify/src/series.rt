// The lines of matrices in a row.
ghost use Rattle.std.specs.Prelude.{OnOk, length, ◌+◌, ◌<◌, ◌^◌, ◌≡◌};
ghost use Rattle.fm_certify.specs.Claims.{HasClaims};
ghost use Rattle.fm_certify.specs.Series.{series_claims, series_kind};
ghost use Rattle.fm_lift.specs.Lifts.{AreMatricesOver, matrices_meaning};
ghost use Rattle.fm_poly.specs.declared.ring.Ring.{Ring as RingValue};

use crate::appending::push_matrix;
use fm_mat::Matrix;
use fm_writer::{Claim, Named};
use std::alloc::AllocError;

/// The lift of Frobenius, or that of the identity.
#[derive(Clone, Copy)]
pub(crate) enum Series {
    Frobenius,
    Identity,
}

impl Series {
    // The kind of the line with this number.
    fn kind(self, j: u64) -> Named
        ensures { result ≡ series_kind self j }
    {
        match self {
            Series::Frobenius => Named::Theta(j),
            Series::Identity => Named::Lambda(j),
        }
    }
}

/// A line for each matrix, with the numbers 0, 1, ..
pub(crate) fn push_series<'a>(
    series: Series,
    matrices: &'a [Matrix],
    claims: &mut Vec<Claim<'a>>,
) -> Result<(), AllocError>
    ensures { (r : RingValue) → AreMatricesOver r matrices.now → OnOk result (HasClaims r.vars claims.old.items
        (series_claims r series 0 (matrices_meaning r matrices.now)) claims.new.items) }
{
    let mut number = 0;
    let mut left = matrices;
    'matrices: loop {
        let Some((m, later)) = left.split_first() else {
            return Ok(());
        };
        push_matrix(series.kind(number), m, claims)?;
        number += 1;
        left = later;
    }
}
