// Lines as bytes.
ghost use Rattle.std.specs.Prelude.{OnOk, [], ◌∷◌, ◌++◌, ◌≡◌, length, map, string_bytes};
ghost use Rattle.fm_cert.specs.Lines.{line_text, line_words, lines_text};
ghost use Rattle.fm_cert.specs.Pieces.{words_text};
ghost use Rattle.fm_cert.specs.Said.{AreLinesOver, IsEndOver, IsLineOver, end_line, line_value, line_values};

use crate::heads::push_question;
use crate::piece::Piece;
use crate::printing::push_row;
use crate::{End, Line};
use fm_problem::Problem;
use std::alloc::AllocError;

impl Line {
    /// Appends the line, with its LF, to the report of this problem.
    pub fn push<'x>(&'x self, problem: &'x Problem, out: &mut Vec<u8>) -> Result<(), AllocError>
        requires named { length problem.now.vars ≡ problem.now.ring.vars }
        requires over { IsLineOver problem.now.ring.vars self.now }
        ensures { OnOk result (out.new.items
            ≡ out.old.items ++ (line_text problem.now.vars (line_value problem.now self.now) ++ 10 ∷ [])) }
    {
        push_words(problem, self, out)?;
        Ok(())
    }
}

impl End {
    /// Appends the line of the end, with its LF, to the report of this problem.
    pub fn push<'x>(&'x self, problem: &'x Problem, out: &mut Vec<u8>) -> Result<(), AllocError>
        requires named { length problem.now.vars ≡ problem.now.ring.vars }
        requires over { IsEndOver problem.now.ring.vars self.now }
        ensures { OnOk result (out.new.items
            ≡ out.old.items ++ (line_text problem.now.vars (end_line self.now) ++ 10 ∷ [])) }
    {
        push_end(problem.vars.as_slice(), self, out)?;
        Ok(())
    }
}

/// Appends lines, each with its LF, to the report of this problem.
pub fn push_lines<'x>(
    problem: &'x Problem,
    lines: &'x [Line],
    out: &mut Vec<u8>,
) -> Result<(), AllocError>
    requires named { length problem.now.vars ≡ problem.now.ring.vars }
    requires over { AreLinesOver problem.now.ring.vars lines.now }
    ensures { OnOk result (out.new.items ≡ out.old.items ++ lines_text problem.now.vars (line_values problem.now lines.now)) }
{
    let mut left = lines;
    'lines: loop {
        let Some((line, rest)) = left.split_first() else {
            return Ok(());
        };
        line.push(problem, out)?;
        left = rest;
    }
}

fn push_words<'x>(problem: &'x Problem, line: &'x Line, out: &mut Vec<u8>) -> Result<(), AllocError>
    requires named { length problem.now.vars ≡ problem.now.ring.vars }
    requires over { IsLineOver problem.now.ring.vars line.now }
    ensures { OnOk result (out.new.items
        ≡ out.old.items ++ words_text (line_words problem.now.vars (line_value problem.now line.now))) }
{
    use Piece::{Columns, Number, Word};
    let names = problem.vars.as_slice();
    match line {
        Line::Report { version } => push_row(names, b"report", &[Number(*version)], out)?,
        Line::Query { number, query } => push_question(problem, *number, query, out)?,
        Line::Ended(end) => push_end(names, end, out)?,
        Line::Datum { name, i } => {
            push_row(names, b"datum", &[Word(name.as_bytes()), Number(*i)], out)?
        }
        Line::Given {
            part,
            rows,
            columns,
        } => {
            let form = [
                Number(*part),
                Word(b"given"),
                Number(*rows),
                Columns(columns),
            ];
            push_row(names, b"part", &form, out)?
        }
        Line::D { j, part } => push_row(names, b"d", &[Number(*j), Number(*part)], out)?,
        Line::Theta { j, part } => push_row(names, b"theta", &[Number(*j), Number(*part)], out)?,
        Line::Z { part } => push_row(names, b"Z", &[Number(*part)], out)?,
        Line::N { part } => push_row(names, b"N", &[Number(*part)], out)?,
        Line::U { part } => push_row(names, b"U", &[Number(*part)], out)?,
        Line::K { s, part } => push_row(names, b"K", &[Number(*s), Number(*part)], out)?,
        Line::Lambda { j, part } => push_row(names, b"lambda", &[Number(*j), Number(*part)], out)?,
        Line::Phi { part } => push_row(names, b"phi", &[Number(*part)], out)?,
        Line::Done { number } => push_row(names, b"done", &[Number(*number)], out)?,
        Line::EndReport => push_row(names, b"end", &[Word(b"report")], out)?,
    }
    Ok(())
}

fn push_end(names: &[String], end: &End, out: &mut Vec<u8>) -> Result<(), AllocError>
    requires { IsEndOver (length names.now) end.now }
    ensures { OnOk result (out.new.items
        ≡ out.old.items ++ words_text (line_words (map string_bytes names.now) (end_line end.now))) }
{
    use Piece::{Generators, Number, Numbers, Task, Word, YesNo, YesWith};
    match end {
        End::Zero { yes, stable } => {
            let words = [YesNo(*yes), Word(b"stable"), Number(*stable)];
            push_row(names, b"answer", &words, out)?
        }
        End::Class { stage } => push_row(names, b"answer", &[YesWith(b"stage", *stage)], out)?,
        End::Invert { power } => push_row(names, b"answer", &[YesWith(b"power", *power)], out)?,
        End::Support { ideal } => {
            push_row(names, b"answer", &[Word(b"ideal"), Generators(ideal)], out)?
        }
        End::Root { rank, stable } => {
            let words = [
                Word(b"root"),
                Word(b"rank"),
                Number(*rank),
                Word(b"stable"),
                Number(*stable),
            ];
            push_row(names, b"answer", &words, out)?
        }
        End::Ranks { ranks } => {
            push_row(names, b"answer", &[Word(b"ranks"), Numbers(ranks)], out)?
        }
        End::ExtOf {
            generators,
            relations,
        } => {
            let words = [
                Word(b"generators"),
                Number(*generators),
                Word(b"relations"),
                Number(*relations),
            ];
            push_row(names, b"answer", &words, out)?
        }
        End::Map { zero, one, onto } => {
            let words = [
                Word(b"zero"),
                YesNo(*zero),
                Word(b"one"),
                YesNo(*one),
                Word(b"onto"),
                YesWith(b"stage", *onto),
            ];
            push_row(names, b"answer", &words, out)?
        }
        End::Member { yes } => push_row(names, b"answer", &[YesNo(*yes)], out)?,
        End::Budget { task } => {
            push_row(names, b"unanswered", &[Word(b"budget"), Task(*task)], out)?
        }
        End::Exponents { task } => {
            push_row(
                names,
                b"unanswered",
                &[Word(b"exponents"), Task(*task)],
                out,
            )?
        }
        End::WrongLength { found, needed } => {
            let words = [
                Word(b"wrong"),
                Word(b"length"),
                Number(*found),
                Word(b"needed"),
                Number(*needed),
            ];
            push_row(names, b"refused", &words, out)?
        }
        End::NotCocycle { component } => {
            let words = [
                Word(b"not"),
                Word(b"a"),
                Word(b"cocycle"),
                Word(b"component"),
                Number(*component),
            ];
            push_row(names, b"refused", &words, out)?
        }
        End::NotContained { generator } => {
            let words = [
                Word(b"not"),
                Word(b"contained"),
                Word(b"generator"),
                Number(*generator),
            ];
            push_row(names, b"refused", &words, out)?
        }
    }
    Ok(())
}
