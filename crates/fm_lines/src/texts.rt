// Texts in lines.
ghost use Rattle.std.specs.Prelude.{◌≡◌, option_map};
ghost use Rattle.fm_lines.specs.Left.{left};
ghost use Rattle.fm_lines.specs.Plain.{plain_row};
ghost use Rattle.fm_lines.specs.Ends.{task as task_row, task_said};

use crate::words::Words;

/// The words that are left, of which there is one at least.
pub(crate) fn task(words: Words<'_>) -> Option<&[u8]>
    ensures { option_map (λ t. task_said t.now) result ≡ plain_row task_row (left words.entry) }
{
    words.rest
}
