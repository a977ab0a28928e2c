// The laws of reports.
ghost use Rattle.std.specs.Prelude.{List, Option, [], false, length, nat_eq, not, true, ℕ, ◌++◌, ◌<◌, ◌^◌, ◌∷◌, ◌≡◌, ◌≤◌};
ghost use Rattle.std.specs.List.{list_all};
ghost use Rattle.fm_words.specs.Parts.{Bytes};
ghost use Rattle.fm_words.specs.Words.{words};
ghost use Rattle.fm_problem.specs.declared.problem.Problem.{Problem};
ghost use Rattle.fm_report.specs.Verdicts.{Stated};
ghost use Rattle.fm_report.specs.Reading.{rests_on, statements};
ghost use Rattle.fm_report.specs.Answered.{answers_of};
ghost use Rattle.fm_report.specs.Holding.{AllHold, IsHeld, VerdictsHold, VerdictsHoldSince};
ghost use Rattle.fm_report.specs.Choices.{VerdictsHoldForEveryChoice, VerdictsHoldForEveryChoiceSince};
ghost use Rattle.fm_report.specs.Reports.{IsWritable, QueryReport, report_says, report_text};

/// A written report states what its queries say, in order, and nothing else.
pub fn a_written_report_states_what_it_says()
    ensures { (version : ℕ) (q : Problem) (bs : List QueryReport) → version < 2 ^ 64 → IsWritable q bs → statements (report_text version q bs) ≡ report_says q 0 bs }
{}

/// If what the queries of a written report say holds, then all that the report states holds, and so does all that each beginning of it states.
pub fn reports_of_queries_that_hold_hold()
    ensures { (version : ℕ) (q : Problem) (bs : List QueryReport) → version < 2 ^ 64 → IsWritable q bs → AllHold (report_says q 0 bs)
        → (front back : Bytes) → report_text version q bs ≡ front ++ back → VerdictsHold front }
{}

/// What a beginning of the bytes states is a beginning of what they state: a report that is cut states nothing that the whole report does not.
pub fn a_beginning_states_a_beginning()
    ensures { (front back : Bytes) → (more : List Stated) × (statements (front ++ back) ≡ statements front ++ more) }
{}

/// What a beginning of bytes states holds, if what they state holds: a report that is cut states only what the whole report does.
pub fn verdicts_hold_in_a_beginning()
    ensures { (front back : Bytes) → VerdictsHold (front ++ back) → VerdictsHold front }
{}

/// A text of one line on which no verdict rests, as a message in place of a report, states nothing, nor does a beginning of it or no text at all.
pub fn a_message_states_nothing()
    ensures line { (line : Bytes) → list_all (λ b. not (nat_eq b 10)) line ≡ true → rests_on (words line) ≡ false → (front back : Bytes)
        → line ++ 10 ∷ [] ≡ front ++ back → VerdictsHold front }
    ensures nothing { VerdictsHold [] }
{}

/// Nothing that is answered is passed over: bytes state at least as many things as they have answers that are ended, each `answer` line by a `done` line
/// before the next query.
pub fn each_answer_is_stated()
    ensures { (bytes : Bytes) → answers_of bytes ≤ length (statements bytes) }
{}

/// Where all holds that bytes state, each thing that they state holds.
pub fn each_verdict_holds()
    ensures { (bytes : Bytes) → VerdictsHold bytes → (front back : List Stated) (s : Stated) → statements bytes ≡ front ++ s ∷ back → IsHeld s }
{}

/// Verdicts that hold along the matrices that are printed hold along every choice: for all resolutions through the degree of the same ideals, all
/// their Frobenius lifts and all lifts of the identity, whether the limit is zero, whether it is after inverting f, what its support ideal is, and
/// what a map of limits does; and a class is zero exactly where the class is to which a lift of the identity carries it.
pub fn verdicts_hold_for_every_choice()
    ensures text { (bytes : Bytes) → VerdictsHold bytes → VerdictsHoldForEveryChoice bytes }
    ensures growth { (old new : Option Bytes) → VerdictsHoldSince old new → VerdictsHoldForEveryChoiceSince old new }
{}
