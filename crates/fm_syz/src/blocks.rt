// The lower block of a vector: its components below the first m.
ghost use Rattle.std.specs.Prelude.{IfOk, suc, ◌+◌, ◌≡◌, ◌≤◌, ℕ};
ghost use Rattle.fm_graphs.specs.Graphs as runs;
ghost use Rattle.fm_poly.specs.declared.ring.Ring.{Ring};
ghost use Rattle.fm_vec.specs.Components.{column_from};

use fm_mat::Column;
use fm_poly::Poly;
use fm_vec::Vector;
use std::alloc::{AllocError, Global};

/// Whether the head, if there is one, stands below the first m components.
pub(crate) fn is_below(m: u32, v: &Vector) -> bool
    ensures { result ≡ runs.is_below m v.now.terms }
{
    match v.head() {
        Some(t) => m < t.component,
        None => true,
    }
}

/// The components below the first m.
pub(crate) fn lower_part(alloc: Global, m: u32, v: &Vector) -> Result<Column, AllocError>
    requires { m ≤ v.now.rows }
    ensures { (r : Ring) (c : ℕ) → v.now.ring ≡ r → v.now.rows ≡ m + c → IfOk result (λ w. w ≡ column_from r c (suc m) v.now.terms) }
{
    let lower = lower_entries(alloc, m, v)?;
    Ok(Column::new(lower))
}

pub(crate) fn lower_entries(alloc: Global, m: u32, v: &Vector) -> Result<Vec<Poly>, AllocError>
    requires { m ≤ v.now.rows }
    ensures { (r : Ring) (c : ℕ) → v.now.ring ≡ r → v.now.rows ≡ m + c → IfOk result (λ w. w.items ≡ column_from r c (suc m) v.now.terms) }
{
    let mut column = v.to_column(alloc)?;
    let lower = column.split_off(m as usize)?;
    Ok(lower)
}
