// Places of variables.
ghost use Rattle.std.specs.Prelude.{◌≡◌, ◌<◌, IfSome, length, map, string_bytes};
ghost use Rattle.fm_words.specs.Steps.{place};

/// The place of a variable, from 0.
pub fn variable_place(names: &[String], name: &[u8]) -> Option<usize>
    ensures place { result ≡ place 0 name.now (map string_bytes names.now) }
    ensures within { IfSome result (λ k. k < length names.now) }
{
    let mut rest = names;
    let mut k = 0usize;
    'names: loop {
        let Some((first, later)) = rest.split_first() else {
            return None;
        };
        if first.as_bytes() == name {
            return Some(k);
        }
        k += 1;
        rest = later;
    }
}
