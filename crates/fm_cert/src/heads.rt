// The first lines of a report, and its queries.
ghost use Rattle.std.specs.Prelude.{OnOk, [], ◌∷◌, ◌++◌, ◌≡◌, codes, decimal, length, map, string_bytes};
ghost use Rattle.fm_gfp.specs.Primes.{prime_value};
ghost use Rattle.fm_problem.specs.Sound.{IsIdealOf, IsProblem};
ghost use Rattle.fm_problem.specs.Statements.{RingLine};
ghost use Rattle.fm_cert.specs.Lines.{Head, Question, line_text, line_words, lines_text};
ghost use Rattle.fm_cert.specs.Pieces.{AreOverVariables, words_text};
ghost use Rattle.fm_cert.specs.Questions.{head_lines, ideal_line, name_at, question_line};
ghost use Rattle.fm_cert.specs.Said.{IsQueryOver};
ghost use Rattle.fm_cert.specs.Statements.{order_word as word_of_order};

use crate::piece::Piece;
use crate::printing::push_row;
use fm_mono::Order;
use fm_problem::{Ideal, Problem, Query};
use std::alloc::AllocError;

/// Appends the first lines of the report of a problem: `report` and the version, the ring, the order and the ideals.
pub fn push_head(problem: &Problem, version: u64, out: &mut Vec<u8>) -> Result<(), AllocError>
    requires { IsProblem problem.now }
    ensures { OnOk result (out.new.items ≡ out.old.items ++ lines_text problem.now.vars (head_lines version problem.now)) }
{
    let names = problem.vars.as_slice();
    push_version(names, version, out)?;
    push_ring(problem, out)?;
    push_row(
        names,
        b"order",
        &[Piece::Word(order_word(problem.ring.order))],
        out,
    )?;
    push_ideals(problem, out)?;
    Ok(())
}

fn push_version(names: &[String], version: u64, out: &mut Vec<u8>) -> Result<(), AllocError>
    ensures { OnOk result (out.new.items ≡ out.old.items ++ words_text (codes "report" ∷ decimal version ∷ [])) }
{
    let pieces = [Piece::Number(version)];
    push_row(names, b"report", &pieces, out)?;
    Ok(())
}

fn push_ring(problem: &Problem, out: &mut Vec<u8>) -> Result<(), AllocError>
    ensures { OnOk result (out.new.items
        ≡ out.old.items ++ words_text (line_words problem.now.vars (Head (RingLine (prime_value problem.now.ring.prime) problem.now.vars)))) }
{
    let prime = u64::from(problem.ring.prime.value());
    let pieces = [Piece::Number(prime), Piece::Names];
    push_row(problem.vars.as_slice(), b"ring", &pieces, out)?;
    Ok(())
}

fn order_word(order: Order) -> &'static [u8]
    ensures { result.now ≡ word_of_order order }
{
    match order {
        Order::Grevlex => b"grevlex",
        Order::Deglex => b"deglex",
        Order::Lex => b"lex",
    }
}

fn push_ideals(problem: &Problem, out: &mut Vec<u8>) -> Result<(), AllocError>
    requires { IsProblem problem.now }
    ensures { OnOk result (out.new.items
        ≡ out.old.items ++ lines_text problem.now.vars (map (ideal_line problem.now.vars) problem.now.ideals)) }
{
    let mut left = problem.ideals.as_slice();
    'ideals: loop {
        let Some((ideal, rest)) = left.split_first() else {
            return Ok(());
        };
        push_ideal(problem.vars.as_slice(), ideal, out)?;
        left = rest;
    }
}

fn push_ideal(names: &[String], ideal: &Ideal, out: &mut Vec<u8>) -> Result<(), AllocError>
    requires { AreOverVariables (length names.now) ideal.now.generators }
    ensures { OnOk result (out.new.items
        ≡ out.old.items ++ words_text (line_words (map string_bytes names.now) (ideal_line (map string_bytes names.now) ideal.now))) }
{
    let pieces = [
        Piece::Word(ideal.name.as_str().as_bytes()),
        Piece::Word(b"="),
        Piece::Generators(ideal.generators.as_slice()),
    ];
    push_row(names, b"ideal", &pieces, out)?;
    Ok(())
}

/// Appends the line `query NUMBER` with the question of a query, and LF.
pub fn push_query<'x>(
    problem: &'x Problem,
    number: u64,
    query: &'x Query,
    out: &mut Vec<u8>,
) -> Result<(), AllocError>
    requires named { length problem.now.vars ≡ problem.now.ring.vars }
    requires over { IsQueryOver problem.now.ring.vars query.now }
    ensures { OnOk result (out.new.items
        ≡ out.old.items ++ (line_text problem.now.vars (Question number (question_line problem.now query.now)) ++ 10 ∷ [])) }
{
    push_question(problem, number, query, out)?;
    Ok(())
}

/// The same by its words.
pub(crate) fn push_question<'x>(
    problem: &'x Problem,
    number: u64,
    query: &'x Query,
    out: &mut Vec<u8>,
) -> Result<(), AllocError>
    requires named { length problem.now.vars ≡ problem.now.ring.vars }
    requires over { IsQueryOver problem.now.ring.vars query.now }
    ensures { OnOk result (out.new.items
        ≡ out.old.items ++ words_text (line_words problem.now.vars (Question number (question_line problem.now query.now)))) }
{
    use Piece::{Number, Polynomial, Vector, Word};
    match query {
        Query::Zero { i, ideal } => push_module(problem, number, b"zero", *i, *ideal, out)?,
        Query::Root { i, ideal } => push_module(problem, number, b"root", *i, *ideal, out)?,
        Query::Support { i, ideal } => push_module(problem, number, b"support", *i, *ideal, out)?,
        Query::Resolution { i, ideal } => {
            push_module(problem, number, b"resolution", *i, *ideal, out)?
        }
        Query::ExtOf { i, ideal } => push_module(problem, number, b"ext", *i, *ideal, out)?,
        Query::Class { i, ideal, e, z } => {
            let question = [
                Number(number),
                Word(b"class"),
                Number(u64::from(*i)),
                Word(ideal_name(problem, *ideal)),
                Number(u64::from(*e)),
                Vector(z.as_slice()),
            ];
            push_row(problem.vars.as_slice(), b"query", &question, out)?
        }
        Query::Invert { i, ideal, f } => {
            let question = [
                Number(number),
                Word(b"invert"),
                Number(u64::from(*i)),
                Word(ideal_name(problem, *ideal)),
                Polynomial(f),
            ];
            push_row(problem.vars.as_slice(), b"query", &question, out)?
        }
        Query::Map { i, source, target } => {
            let question = [
                Number(number),
                Word(b"map"),
                Number(u64::from(*i)),
                Word(ideal_name(problem, *source)),
                Word(ideal_name(problem, *target)),
            ];
            push_row(problem.vars.as_slice(), b"query", &question, out)?
        }
        Query::Member { ideal, f } => {
            let question = [
                Number(number),
                Word(b"member"),
                Word(ideal_name(problem, *ideal)),
                Polynomial(f),
            ];
            push_row(problem.vars.as_slice(), b"query", &question, out)?
        }
    }
    Ok(())
}

// `query NUMBER WORD I NAME`
fn push_module<'x>(
    problem: &'x Problem,
    number: u64,
    word: &'x [u8],
    i: u8,
    ideal: u32,
    out: &mut Vec<u8>,
) -> Result<(), AllocError>
    ensures { OnOk result (out.new.items
        ≡ out.old.items ++ words_text (codes "query" ∷ decimal number ∷ word.now ∷ decimal i ∷ name_at problem.now ideal ∷ [])) }
{
    let question = [
        Piece::Number(number),
        Piece::Word(word),
        Piece::Number(u64::from(i)),
        Piece::Word(ideal_name(problem, ideal)),
    ];
    push_row(problem.vars.as_slice(), b"query", &question, out)?;
    Ok(())
}

// The name of an ideal by its number.
fn ideal_name(problem: &Problem, ideal: u32) -> &[u8]
    ensures { result.now ≡ name_at problem.now ideal }
{
    match problem.ideals.get(ideal as usize) {
        Some(ideal) => ideal.name.as_str().as_bytes(),
        None => b"",
    }
}
