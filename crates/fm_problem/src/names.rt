// Names of a ring's variables.
ghost use Rattle.std.specs.Prelude.{◌≡◌, [], IfOk, string_bytes, true};
ghost use Rattle.std.specs.List.{list_all};
ghost use Rattle.fm_words.specs.Words.{is_name, words};
ghost use Rattle.fm_problem.specs.Problems.{plus_name};
ghost use Rattle.fm_words.specs.Steps.{Gives, steps};

use crate::limits::{NAME_BYTES, VARIABLES};
use crate::{FaultKind, Names};
use fm_text::variable_place;
use fm_words::{ReadError, next_word};
use std::alloc::{AllocError, Global};

/// A name as text of its own.
pub fn name_of(alloc: Global, word: &[u8]) -> Result<String, AllocError>
    requires { is_name word.now ≡ true }
    ensures { IfOk result (λ s. string_bytes s ≡ word.now) }
{
    match str::from_utf8(word) {
        Ok(text) => {
            let name = String::from_str(alloc, text)?;
            Ok(name)
        }
        Err(_) => unreachable!(),
    }
}

fn add_name(alloc: Global, names: &mut Names, word: &[u8]) -> Result<(), ReadError<FaultKind>>
    requires { is_name word.now ≡ true }
    ensures { Gives (λ _. names.new) result (plus_name names.old word.now) }
{
    if variable_place(names.as_slice(), word).is_some() {
        return Err(ReadError::Fault(FaultKind::Repeated));
    }
    if names.len() >= VARIABLES {
        return Err(ReadError::Fault(FaultKind::Limit));
    }
    if word.len() > NAME_BYTES {
        return Err(ReadError::Fault(FaultKind::Limit));
    }
    let name = name_of(alloc, word)?;
    names.push(name)?;
    Ok(())
}

/// The names of the variables of a ring line.
pub fn read_names(alloc: Global, text: &[u8]) -> Result<Names, ReadError<FaultKind>>
    requires { list_all is_name (words text.now) ≡ true }
    ensures { Gives (λ n. n) result (steps plus_name [] (words text.now)) }
{
    let mut names = Names::new(alloc);
    let mut from = text;
    'names: loop {
        let Some((word, rest)) = next_word(from) else {
            return Ok(names);
        };
        add_name(alloc, &mut names, word)?;
        from = rest;
    }
}
