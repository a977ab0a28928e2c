// Answers, each by the query that it answers.
ghost use Rattle.std.specs.Prelude.{◌≡◌, ◌≤◌, IfOk, IfSome, length, map, option_map, string_bytes};
ghost use Rattle.fm_cert.specs.Kinds as kinds;
ghost use Rattle.fm_cert.specs.Kinds.{Ended, answer_kind};
ghost use Rattle.fm_lines.specs.KindLines.{plain_kind_line};
ghost use Rattle.fm_lines.specs.Left.{left};
ghost use Rattle.fm_lines.specs.Plain.{line_after, plain_line};
ghost use Rattle.fm_lines.specs.PlainKinds.{asks_support as asks_support_of, plain_answer};
ghost use Rattle.fm_lines.specs.Rows.{IsEndingOver, ending_line};

use crate::Ending;
use crate::flags::{last_yes_no, last_yes_with, yes_no};
use crate::generators::generators;
use crate::lists::numbers;
use crate::numbers::{number, one_number};
use crate::words::{Words, after};
use fm_poly::Ring;
use fm_problem::Query;
use std::alloc::{AllocError, Global};

fn asks_support(query: &Query) -> bool
    ensures { result ≡ asks_support_of query.now }
{
    match query {
        Query::Support { .. } => true,
        _ => false,
    }
}

// The ending that follows the word `answer`, under a query that does not ask for the support.
fn read_plain_answer<'a>(
    alloc: Global,
    query: &Query,
    words: Words<'a>,
) -> Result<Option<Ending<'a>>, AllocError>
    ensures { IfOk result (λ o. option_map ending_line o ≡ plain_kind_line (plain_answer query.now) (left words.entry)) }
{
    match query {
        Query::Zero { .. } => Ok(read_zero(words)),
        Query::Class { .. } => Ok(read_class(words)),
        Query::Root { .. } => Ok(read_root(words)),
        Query::Invert { .. } => Ok(read_invert(words)),
        Query::Support { .. } => Ok(None),
        Query::Map { .. } => Ok(read_map(words)),
        Query::Member { .. } => Ok(read_member(words)),
        Query::Resolution { .. } => read_ranks(alloc, words),
        Query::ExtOf { .. } => Ok(read_ext(words)),
    }
}

/// The ending that follows the word `answer`, under this query.
#[tactic(auto, using(crate::proofs::AnswersSaid::same_answer, crate::proofs::AnswersSaid::over_answer))]
pub(crate) fn read_answer<'a>(
    alloc: Global,
    ring: Ring,
    names: &[String],
    query: &Query,
    words: Words<'a>,
) -> Result<Option<Ending<'a>>, AllocError>
    requires named { length names.now ≡ ring.vars }
    requires some { 1 ≤ ring.vars }
    requires few { ring.vars ≤ 8 }
    ensures line { IfOk result (λ o. option_map ending_line o
        ≡ line_after ring (map string_bytes names.now) (Ended (answer_kind query.now)) (left words.entry)) }
    ensures over { IfOk result (λ o. IfSome o (λ e. IsEndingOver ring e)) }
{
    if asks_support(query) {
        return read_support(alloc, ring, names, words);
    }
    read_plain_answer(alloc, query, words)
}

#[tactic(auto, using(crate::proofs::Literals::not_there))]
fn read_zero(words: Words<'_>) -> Option<Ending<'_>>
    ensures { option_map ending_line result ≡ plain_line (Ended kinds.Zero) (left words.entry) }
{
    let (yes, rest) = yes_no(words)?;
    let rest = after(b"stable", rest)?;
    let stable = one_number(rest)?;
    Some(Ending::Zero { yes, stable })
}

fn read_class(words: Words<'_>) -> Option<Ending<'_>>
    ensures { option_map ending_line result ≡ plain_line (Ended kinds.Class) (left words.entry) }
{
    let stage = last_yes_with(b"stage", words)?;
    Some(Ending::Class { stage })
}

fn read_invert(words: Words<'_>) -> Option<Ending<'_>>
    ensures { option_map ending_line result ≡ plain_line (Ended kinds.Invert) (left words.entry) }
{
    let power = last_yes_with(b"power", words)?;
    Some(Ending::Invert { power })
}

fn read_member(words: Words<'_>) -> Option<Ending<'_>>
    ensures { option_map ending_line result ≡ plain_line (Ended kinds.Member) (left words.entry) }
{
    let yes = last_yes_no(words)?;
    Some(Ending::Member { yes })
}

#[tactic(auto, using(crate::proofs::Literals::not_there))]
fn read_root(words: Words<'_>) -> Option<Ending<'_>>
    ensures { option_map ending_line result ≡ plain_line (Ended kinds.Root) (left words.entry) }
{
    let rest = after(b"root", words)?;
    let rest = after(b"rank", rest)?;
    let (rank, rest) = number(rest)?;
    let rest = after(b"stable", rest)?;
    let stable = one_number(rest)?;
    Some(Ending::Root { rank, stable })
}

#[tactic(auto, using(crate::proofs::Literals::not_there))]
fn read_ext(words: Words<'_>) -> Option<Ending<'_>>
    ensures { option_map ending_line result ≡ plain_line (Ended kinds.ExtOf) (left words.entry) }
{
    let rest = after(b"generators", words)?;
    let (generators, rest) = number(rest)?;
    let rest = after(b"relations", rest)?;
    let relations = one_number(rest)?;
    Some(Ending::ExtOf {
        generators,
        relations,
    })
}

#[tactic(auto, using(crate::proofs::Literals::not_there))]
fn read_map(words: Words<'_>) -> Option<Ending<'_>>
    ensures { option_map ending_line result ≡ plain_line (Ended kinds.Map) (left words.entry) }
{
    let rest = after(b"zero", words)?;
    let (zero, rest) = yes_no(rest)?;
    let rest = after(b"one", rest)?;
    let (one, rest) = yes_no(rest)?;
    let rest = after(b"onto", rest)?;
    let onto = last_yes_with(b"stage", rest)?;
    Some(Ending::Map { zero, one, onto })
}

#[tactic(auto, using(crate::proofs::Literals::not_there))]
fn read_ranks(alloc: Global, words: Words<'_>) -> Result<Option<Ending<'_>>, AllocError>
    ensures { IfOk result (λ o. option_map ending_line o ≡ plain_line (Ended kinds.Ranks) (left words.entry)) }
{
    let Some(rest) = after(b"ranks", words) else {
        return Ok(None);
    };
    Ok(numbers(alloc, rest)?.map(|ranks| Ending::Ranks { ranks }))
}

#[tactic(auto, using(crate::proofs::Literals::not_there))]
fn read_support<'a>(
    alloc: Global,
    ring: Ring,
    names: &[String],
    words: Words<'a>,
) -> Result<Option<Ending<'a>>, AllocError>
    requires named { length names.now ≡ ring.vars }
    requires some { 1 ≤ ring.vars }
    requires few { ring.vars ≤ 8 }
    ensures line { IfOk result (λ o. option_map ending_line o ≡ line_after ring (map string_bytes names.now) (Ended kinds.Support) (left words.entry)) }
    ensures over { IfOk result (λ o. IfSome o (λ e. IsEndingOver ring e)) }
{
    let Some(rest) = after(b"ideal", words) else {
        return Ok(None);
    };
    Ok(generators(alloc, ring, names, rest)?.map(|ideal| Ending::Support { ideal }))
}
