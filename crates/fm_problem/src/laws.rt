// Laws of problem texts.
ghost use Rattle.std.specs.Prelude.{Err, Ok, ◌++◌, ◌<◌, ◌∷◌, ◌⊎◌, ◌≡◌};
ghost use Rattle.fm_words.specs.Words.{AreNames};
ghost use Rattle.fm_words.specs.Lines.{end_of};
ghost use Rattle.fm_words.specs.Parts.{Bytes};
ghost use Rattle.fm_problem.specs.Faults.{Fault};
ghost use Rattle.fm_problem.specs.Problems.{problem_of, query_of};
ghost use Rattle.fm_problem.specs.Sound.{HasSmallExponents, IsProblem, IsQueryOf};
ghost use Rattle.fm_problem.specs.declared.problem.Problem.{Problem};
ghost use Rattle.fm_problem.specs.declared.query.Query.{Query};

/// A text has a reading or a first fault, never both, and never two of either.
pub fn a_text_has_one_reading_or_one_first_fault()
    ensures some { (text : Bytes) → ((q : Problem) × (problem_of text ≡ Ok q)) ⊎ ((f : Fault) × (problem_of text ≡ Err f)) }
    ensures not_both { (text : Bytes) (q : Problem) (f : Fault) → problem_of text ≡ Ok q → problem_of text ≡ Err f → ⊥ }
    ensures one_reading { (text : Bytes) (q s : Problem) → problem_of text ≡ Ok q → problem_of text ≡ Ok s → q ≡ s }
    ensures one_fault { (text : Bytes) (f g : Fault) → problem_of text ≡ Err f → problem_of text ≡ Err g → f ≡ g }
{}

/// The first fault of a line stands whatever lines follow. So the lines before any place of a problem text, from the ring
/// line on, are a problem text.
pub fn a_first_fault_stands_whatever_follows()
    ensures { (front back : Bytes) (f : Fault) → problem_of front ≡ Err f → f.line < end_of front → problem_of (front ++ 10 ∷ back) ≡ Err f }
{}

/// A problem that a text says is within the limits, no name of it stands twice in one list, its polynomials are of its
/// ring, its generators aren't zero, and its ideal numbers exist.
pub fn problems_of_texts_are_sound()
    ensures problem { (text : Bytes) (q : Problem) → problem_of text ≡ Ok q → IsProblem q }
    ensures query { (q : Problem) (line : Bytes) (z : Query) → IsProblem q → query_of q line ≡ Ok z → IsQueryOf q z }
    ensures names { (q : Problem) → IsProblem q → AreNames q.vars }
{}

/// The exponents of a problem that a text says are those that can be written: at most 1,000.
pub fn exponents_of_problems_are_small()
    ensures { (text : Bytes) (q : Problem) → problem_of text ≡ Ok q → HasSmallExponents q }
{}
