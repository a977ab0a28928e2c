// Vectors by their numbers, which count from 1.
ghost use Rattle.std.specs.Prelude.{IfSome, MatchOption, false, true, ◌≡◌};
ghost use Rattle.fm_complete.specs.Divisions.{terms_of};
ghost use Rattle.fm_complete.specs.Standing.{AreOfShape};
ghost use Rattle.fm_complete.specs.Trails.{member_at};
ghost use Rattle.fm_parts.specs.Replays as definitions;

use fm_poly::Ring;
use fm_vec::Vector;

/// The vector of a number.
pub(crate) fn numbered<'a>(
    ring: Ring,
    rows: u32,
    vectors: &'a [Vector],
    k: u32,
) -> Option<&'a Vector>
    requires { AreOfShape ring rows vectors.now }
    ensures there { MatchOption result (definitions.is_number (terms_of vectors.entry.now) k ≡ false)
        (λ v. definitions.is_number (terms_of vectors.entry.now) k ≡ true) }
    ensures terms { IfSome result (λ v. v.now.terms ≡ member_at (terms_of vectors.entry.now) k) }
    ensures shape { IfSome result (λ v. (v.now.ring ≡ ring) × (v.now.rows ≡ rows)) }
{
    if k == 0 || k as usize > vectors.len() {
        return None;
    }
    let (_before, from) = vectors.split_at(k as usize - 1);
    let Some((v, _later)) = from.split_first() else {
        unreachable!();
    };
    Some(v)
}

/// Whether these are numbers of vectors.
pub(crate) fn are_numbers(vectors: &[Vector], numbers: &[u32]) -> bool
    ensures { result ≡ definitions.are_numbers (terms_of vectors.now) numbers.now }
{
    let count = vectors.len();
    let mut left = numbers;
    'numbers: loop {
        let Some((k, later)) = left.split_first() else {
            return true;
        };
        if *k == 0 || *k as usize > count {
            return false;
        }
        left = later;
    }
}
