// Ends of queries without an answer.
ghost use Rattle.std.specs.Prelude.{Bool, List, MatchOption, [], false, is_some, option_map, ◌++◌, ◌∷◌, ◌≡◌};
ghost use Rattle.std.specs.List.{list_any};
ghost use Rattle.fm_words.specs.declared.mark.Mark.TheVariants.{Blank};
ghost use Rattle.fm_words.specs.Parts.{Bytes, parts};
ghost use Rattle.fm_words.specs.Words as words;
ghost use Rattle.fm_cert.specs.Ends as ends;
ghost use Rattle.fm_cert.specs.Fields.{exact_number};
ghost use Rattle.fm_judge.specs.Tasks as definitions;
ghost use Rattle.fm_judge.specs.Tasks.{base_names, on_side};
ghost use Rattle.fm_run.specs.declared.task.Side.TheVariants as sides;
ghost use Rattle.fm_lines.specs.Rows.{ending_line};
ghost use Rattle.fm_asked.specs.Ending.{is_spelled, map_names, may_end_line, words_in};

use fm_cert::{is_numbered, task_word};
use fm_lines::Ending;
use fm_problem::Query;
use fm_run::{Name, Side};
use fm_words::{Mark, first_part, is_exact, is_number, number};

/// Whether the query may end so without an answer: in a task of its plan, or refused. An answer is none of these.
pub fn may_end(query: &Query, ending: &Ending<'_>) -> bool
    ensures { result ≡ may_end_line query.now (ending_line ending.now) }
{
    match ending {
        Ending::Budget { task } => is_task(query, task),
        Ending::Exponents { task } => is_task(query, task),
        Ending::WrongLength { .. } => matches!(query, Query::Class { .. }),
        Ending::NotCocycle { .. } => matches!(query, Query::Class { .. }),
        Ending::NotContained { .. } => matches!(query, Query::Map { .. }),
        _ => false,
    }
}

/// Whether these are the words of a task of the query's plan, with any number.
fn is_task(query: &Query, task: &[u8]) -> bool
    ensures { result ≡ definitions.is_task query.now (parts Blank task.now) }
{
    match query {
        Query::Zero { .. } => is_first_or_base(&[Name::Whole], task),
        Query::Class { .. } => {
            is_first_or_base(&[Name::Test, Name::Coordinates, Name::Stage], task)
        }
        Query::Root { .. } => is_base(Side::Alone, task),
        Query::Invert { .. } => is_first_or_base(&[Name::Colon, Name::Power], task),
        Query::Support { .. } => is_first_or_base(&[Name::Annihilator], task),
        Query::Map { .. } => is_of_map(task)
            || is_base(Side::Source, task)
            || is_base(Side::Target, task),
        Query::Member { .. } => is_one_of(Side::Alone, &[Name::Resolve, Name::Member], task),
        Query::Resolution { .. } => is_one_of(Side::Alone, &[Name::Resolve], task),
        Query::ExtOf { .. } => is_one_of(
            Side::Alone,
            &[
                Name::Resolve,
                Name::Lift,
                Name::Cocycles,
                Name::Relations,
                Name::Morphism,
            ],
            task,
        ),
    }
}

/// Tasks of the map itself.
fn is_of_map(task: &[u8]) -> bool
    ensures { result ≡ list_any (λ t. is_spelled t.0 t.1 (parts Blank task.now)) (on_side sides.Alone map_names) }
{
    is_one_of(
        Side::Alone,
        &[
            Name::Contained,
            Name::Lambda,
            Name::Phi,
            Name::Null,
            Name::One,
            Name::Onto,
        ],
        task,
    )
}

/// Tasks of a chain of kernels.
fn is_base(side: Side, task: &[u8]) -> bool
    ensures { result ≡ list_any (λ t. is_spelled t.0 t.1 (parts Blank task.now)) (on_side side base_names) }
{
    is_one_of(
        side,
        &[
            Name::Chain,
            Name::Resolve,
            Name::Lift,
            Name::Cocycles,
            Name::Relations,
            Name::Morphism,
        ],
        task,
    )
}

/// Tasks of these names, and of a chain of kernels.
fn is_first_or_base(names: &[Name], task: &[u8]) -> bool
    ensures { result ≡ list_any (λ t. is_spelled t.0 t.1 (parts Blank task.now)) (on_side sides.Alone (names.now ++ base_names)) }
{
    is_one_of(Side::Alone, names, task) || is_base(Side::Alone, task)
}

fn is_one_of(side: Side, names: &[Name], task: &[u8]) -> bool
    ensures { result ≡ list_any (λ t. is_spelled t.0 t.1 (parts Blank task.now)) (on_side side names.now) }
{
    let mut left = names;
    'names: loop {
        let Some((name, later)) = left.split_first() else {
            return false;
        };
        if is_named(side, *name, task) {
            return true;
        }
        left = later;
    }
}

/// Whether these are the words of a task of this name, with any number.
fn is_named(side: Side, name: Name, task: &[u8]) -> bool
    ensures { result ≡ is_spelled side name (parts Blank task.now) }
{
    let Some(words) = after_side(side, task) else {
        return false;
    };
    let Some(rest) = after_word(task_word(name), words) else {
        return false;
    };
    ends_so(is_numbered(name), rest)
}

/// The words after that of the side.
fn after_side(side: Side, task: &[u8]) -> Option<Option<&[u8]>>
    ensures { (v : Bytes) (b : Bool) → MatchOption result (definitions.spells (ends.side_words side ++ v ∷ []) b (parts Blank task.entry.now) ≡ false)
        (λ rest. definitions.spells (ends.side_words side ++ v ∷ []) b (parts Blank task.entry.now)
        ≡ definitions.spells (v ∷ []) b (words_in (option_map (λ t. t.now) rest))) }
{
    match side {
        Side::Alone => Some(Some(task)),
        Side::Source => after_word(b"source", Some(task)),
        Side::Target => after_word(b"target", Some(task)),
    }
}

/// The words after this one, where it is the first.
fn after_word<'a>(word: &[u8], words: Option<&'a [u8]>) -> Option<Option<&'a [u8]>>
    ensures { (vs : List Bytes) (b : Bool) → MatchOption result
        (definitions.spells (word.now ∷ vs) b (words_in (option_map (λ t. t.now) words.entry)) ≡ false)
        (λ rest. definitions.spells (word.now ∷ vs) b (words_in (option_map (λ t. t.now) words.entry))
        ≡ definitions.spells vs b (words_in (option_map (λ t. t.now) rest))) }
{
    let Some(text) = words else {
        return None;
    };
    let (first, rest) = first_part(text, Mark::Blank);
    if first != word {
        return None;
    }
    Some(rest)
}

/// Whether the words end: with one number, where the task has one.
fn ends_so(numbered: bool, words: Option<&[u8]>) -> bool
    ensures { result ≡ definitions.ends_so numbered (words_in (option_map (λ t. t.now) words.entry)) }
{
    let Some(text) = words else {
        return !numbered;
    };
    let (word, more) = first_part(text, Mark::Blank);
    if !numbered {
        return false;
    }
    match more {
        Some(_) => false,
        None => is_exact_number(word),
    }
}

/// Whether the word is a number below 2^64 without leading zeros.
fn is_exact_number(word: &[u8]) -> bool
    ensures { result ≡ is_some (exact_number word.now) }
{
    if !is_number(word) {
        return false;
    }
    if !is_exact(word) {
        return false;
    }
    number(word).is_some()
}
