// Numbered lines.
ghost use Rattle.std.specs.Prelude.{◌≡◌, ◌+◌, ◌<◌, ◌^◌, ◌∷◌, [], IfSome, MatchOption, length, option_map};
ghost use Rattle.fm_words.specs.Lines.{ahead, end_of as end_of_text, is_passed as is_passed_line, reach, size_of, without_return as without_return_of};

use crate::{Mark, first_part};

/// A line with its number.
#[derive(Clone, Copy)]
pub struct Line<'a> {
    pub number: u32,
    pub text: &'a [u8],
}

/// The lines from the one of this number on; the text is none after the last one.
#[derive(Clone, Copy)]
pub struct Lines<'a> {
    pub number: u32,
    pub rest: Option<&'a [u8]>,
}

/// The line without a CR at its end.
pub fn without_return(line: &[u8]) -> &[u8]
    ensures { result.now ≡ without_return_of line.entry.now }
{
    let Some((last, front)) = line.split_last() else {
        return line;
    };
    if *last == b'\r' { front } else { line }
}

/// Whether the line is blanks alone or a comment.
pub fn is_passed(line: &[u8]) -> bool
    ensures { result ≡ is_passed_line line.now }
{
    let mut from = line;
    'bytes: loop {
        let Some((byte, rest)) = from.split_first() else {
            return true;
        };
        if !Mark::Blank.is(*byte) {
            return *byte == b'#';
        }
        from = rest;
    }
}

// What is ahead after a line of this number.
fn after_line(number: u32, more: Option<&[u8]>) -> Lines<'_>
    requires { reach (number + 1) (option_map (λ r. r.now) more) < 2 ^ 32 }
    ensures ahead { ahead result.number (option_map (λ r. r.now) result.rest) ≡ ahead (number + 1) (option_map (λ r. r.now) more.entry) }
    ensures same { option_map (λ r. r.now) result.rest ≡ option_map (λ r. r.now) more.entry }
    ensures few { reach result.number (option_map (λ r. r.now) result.rest) < 2 ^ 32 }
{
    match more {
        Some(text) => Lines {
            number: number + 1,
            rest: Some(text),
        },
        None => Lines { number, rest: None },
    }
}

/// The next line that isn't passed over, and the lines after it.
pub fn next_line(lines: Lines<'_>) -> Option<(Line<'_>, Lines<'_>)>
    requires few { reach lines.number (option_map (λ r. r.now) lines.rest) < 2 ^ 32 }
    ensures lines { MatchOption result (ahead lines.entry.number (option_map (λ r. r.now) lines.entry.rest) ≡ [])
        (λ f. ahead lines.entry.number (option_map (λ r. r.now) lines.entry.rest)
        ≡ record { number = f.0.number; text = f.0.text.now } ∷ ahead f.1.number (option_map (λ r. r.now) f.1.rest)) }
    ensures few { IfSome result (λ f. reach f.1.number (option_map (λ r. r.now) f.1.rest) < 2 ^ 32) }
    ensures shorter { IfSome result (λ f. size_of (option_map (λ r. r.now) f.1.rest) < size_of (option_map (λ r. r.now) lines.entry.rest)) }
{
    let mut from = lines;
    'lines: loop {
        let Some(text) = from.rest else {
            return None;
        };
        let (part, more) = first_part(text, Mark::Feed);
        let line = without_return(part);
        let later = after_line(from.number, more);
        if !is_passed(line) {
            return Some((
                Line {
                    number: from.number,
                    text: line,
                },
                later,
            ));
        }
        from = later;
    }
}

/// The number after that of the last line.
pub fn end_of(text: &[u8]) -> u32
    requires { length text.now + 1 < 2 ^ 32 }
    ensures { result ≡ end_of_text text.now }
{
    let mut number = 1u32;
    let mut from = text;
    'lines: loop {
        let (part, more) = first_part(from, Mark::Feed);
        let Some(rest) = more else {
            return if part.is_empty() { number } else { number + 1 };
        };
        number += 1;
        from = rest;
    }
}
