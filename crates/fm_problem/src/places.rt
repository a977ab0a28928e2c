// Places of ideals.
ghost use Rattle.std.specs.Prelude.{◌≡◌, ◌<◌, IfSome, length, map};
ghost use Rattle.fm_words.specs.Steps.{place};

use crate::Ideal;

/// The place of an ideal, from 0.
pub fn ideal_place(ideals: &[Ideal], name: &[u8]) -> Option<usize>
    ensures place { result ≡ place 0 name.now (map (λ i. i.name) ideals.now) }
    ensures within { IfSome result (λ k. k < length ideals.now) }
{
    let mut rest = ideals;
    let mut k = 0usize;
    'ideals: loop {
        let Some((first, later)) = rest.split_first() else {
            return None;
        };
        if first.name.as_str().as_bytes() == name {
            return Some(k);
        }
        k += 1;
        rest = later;
    }
}
