// The law of accepted reports.
ghost use Rattle.std.specs.Prelude.{Ok, length, ◌≡◌};
ghost use Rattle.fm_judge.specs.Judging.{Counts, judgement};
ghost use Rattle.fm_words.specs.Parts.{Bytes};
ghost use Rattle.fm_check.specs.Counted.{verdicts_stated};

/// A valid text states as many verdicts, each at the end of a query, as its judgement counts.
pub fn valid_texts_state_as_many_verdicts_as_are_counted()
    ensures { (text : Bytes) (counts : Counts) → judgement text ≡ Ok counts → length (verdicts_stated text) ≡ counts.verdicts }
{}
