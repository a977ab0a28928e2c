// The sum of terms in any order: halves are summed and then merged.
ghost use Rattle.std.specs.Prelude.{All, IfOk, ◌≡◌};
ghost use Rattle.fm_poly.specs.Polys.{IsCanonical, IsTermOf, meaning};

use crate::merging::{merge, push_kept};
use crate::{Ring, Term};
use std::alloc::{AllocError, Global};

pub(crate) fn collect(alloc: Global, ring: Ring, terms: &[Term]) -> Result<Vec<Term>, AllocError>
    requires { All (IsTermOf ring) terms.now }
    ensures canonical { IfOk result (λ f. IsCanonical ring f.items) }
    ensures sum { IfOk result (λ f. meaning ring f.items ≡ meaning ring terms.now) }
{
    let Some((t, later)) = terms.split_first() else {
        return Ok(Vec::new(alloc));
    };
    if later.is_empty() {
        let mut out = Vec::new(alloc);
        push_kept(&mut out, t)?;
        return Ok(out);
    }
    let (left, right) = terms.split_at(terms.len() / 2);
    let f = collect(alloc, ring, left)?;
    let g = collect(alloc, ring, right)?;
    let sum = merge(alloc, ring, &f, &g)?;
    Ok(sum)
}
