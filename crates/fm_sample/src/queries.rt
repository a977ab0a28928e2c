// The queries of a sample.
ghost use Rattle.std.specs.Prelude.{◌≡◌, IfOk};
ghost use Rattle.fm_sample.specs.Samples.{queries_on, x as x_value};

use crate::ideals::IDEALS;
use crate::monomials::monomial;
use fm_poly::Poly;
use fm_problem::Query;
use sqlite_items::Items;
use std::alloc::{AllocError, Global};

fn x(alloc: Global) -> Result<Poly, AllocError>
    ensures { IfOk result (λ f. f ≡ x_value) }
{
    monomial(alloc, &[1, 0, 0, 0])
}

/// Three queries on each ideal.
pub fn queries(alloc: Global) -> Result<Items<Query>, AllocError>
    ensures { IfOk result (λ zs. zs ≡ queries_on IDEALS) }
{
    let mut queries = Items::new(alloc);
    for ideal in 0..IDEALS {
        queries.push(Query::Zero { i: 2, ideal })?;
        queries.push(Query::Zero { i: 3, ideal })?;
        let f = x(alloc)?;
        queries.push(Query::Invert { i: 2, ideal, f })?;
    }
    Ok(queries)
}
