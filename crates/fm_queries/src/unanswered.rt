// Plans that end without an answer.
use fm_run::Stopped;

/// Why a query is refused: a class with another number of entries than is needed; a vector whose image has this nonzero component first; or
/// a generator of the target that the source does not have. All are counted from 1.
#[derive(Clone, Copy)]
pub enum Refusal {
    WrongLength { found: u32, needed: u32 },
    NotCocycle { component: u32 },
    NotContained { generator: u32 },
}

/// A task that stopped, or a refusal.
#[derive(Clone, Copy)]
pub enum Unanswered {
    Stopped(Stopped),
    Refused(Refusal),
}

impl From<Stopped> for Unanswered {
    ghost use Rattle.std.specs.Prelude.{◌≡◌};
    ghost use Rattle.fm_queries.specs.declared.unanswered.Unanswered.TheVariants as ends;

    ghost from_gives = { λ stopped e. e ≡ ends.Stopped stopped };

    fn from(stopped: Stopped) -> Unanswered {
        Unanswered::Stopped(stopped)
    }
}
