// Vectors that are not zero.
ghost use Rattle.std.specs.Prelude.{IfOk, [], get_or, length, map, not, ◌-◌, ◌<◌, ◌^◌, ◌≡◌, ℕ};
ghost use Rattle.std.specs.List.{filter};
ghost use Rattle.fm_complete.specs.Divisions.{terms_of};
ghost use Rattle.fm_complete.specs.Standing.{AreOfShape, values};
ghost use Rattle.fm_graphs.specs.Trims.{is_zero};
ghost use Rattle.fm_poly.specs.declared.ring.Ring.{Ring};
ghost use Rattle.fm_syz.specs.Numbers.{numbers_from};

use fm_vec::Vector;
use std::alloc::{AllocError, Global};

/// Some of a list of vectors, by their numbers from 1.
#[derive(Drop)]
pub(crate) struct Chosen<'a> {
    pub numbers: Vec<u32>,
    pub vectors: Vec<&'a Vector>,
}

/// The vectors that are not zero.
pub(crate) fn nonzero<'a>(alloc: Global, vectors: &'a [Vector]) -> Result<Chosen<'a>, AllocError>
    requires few { length vectors.now < 2 ^ 32 }
    ensures numbers { IfOk result (λ out. out.numbers.items
        ≡ filter (λ k. not (is_zero (get_or (terms_of vectors.entry.now) (k - 1) []))) (numbers_from 1 (length vectors.entry.now))) }
    ensures terms { IfOk result (λ out. terms_of (values out.vectors.items)
        ≡ map (λ k. get_or (terms_of vectors.entry.now) (k - 1) []) out.numbers.items) }
    ensures shape { (r : Ring) (rows : ℕ) → AreOfShape r rows vectors.entry.now
        → IfOk result (λ out. AreOfShape r rows (values out.vectors.items)) }
{
    let mut numbers = Vec::new(alloc);
    let mut chosen = Vec::new(alloc);
    let mut number = 0;
    let mut left = vectors;
    'search: loop {
        let Some((v, later)) = left.split_first() else {
            return Ok(Chosen {
                numbers,
                vectors: chosen,
            });
        };
        number += 1;
        if v.head().is_some() {
            numbers.push(number)?;
            chosen.push(v)?;
        }
        left = later;
    }
}
