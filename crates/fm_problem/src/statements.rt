// Statements: what lines say by their form.
ghost use Rattle.std.specs.Prelude.{◌≡◌, option_map};
ghost use Rattle.std.specs.List.{list_all};
ghost use Rattle.fm_words.specs.Parts.{pair, parts, triple};
ghost use Rattle.fm_words.specs.Words.{after_word, is_name as is_name_word, words};
ghost use Rattle.fm_words.specs.declared.mark.Mark.TheVariants.{Equals, Open};
ghost use Rattle.fm_text.specs.Factors.{one_word as only_word};
ghost use Rattle.fm_problem.specs.Statements.{are_entries as are_entries_of, class_line, ideal_line, invert_line, map_line, member_line, module_line, order_line, ring_line, statement_of};
ghost use Rattle.fm_problem.specs.Views.{statement_view};

use crate::keyword::{Keyword, Question, order_named, read_keyword};
use fm_mono::Order;
use fm_text::{are_polynomials, is_polynomial};
use fm_words::{
    Mark, is_blank, is_name, is_number, next_word, one_word, three_words, two_parts, two_words,
};

/// What a line says, by its words and texts, of which only the form has been tested.
#[derive(Clone, Copy)]
pub enum StatementText<'a> {
    /// The digits of the characteristic, and the names of the variables.
    Ring(&'a [u8], &'a [u8]),
    Order(Order),
    /// The name, and the generators.
    Ideal(&'a [u8], &'a [u8]),
    /// The degree, and the ideal.
    Module(Question, &'a [u8], &'a [u8]),
    /// The degree, the ideal, the stage, and the entries of the vector.
    Class(&'a [u8], &'a [u8], &'a [u8], &'a [u8]),
    /// The degree, the ideal, and the polynomial.
    Invert(&'a [u8], &'a [u8], &'a [u8]),
    /// The degree, the source, and the target.
    Map(&'a [u8], &'a [u8], &'a [u8]),
    /// The ideal, and the polynomial.
    Member(&'a [u8], &'a [u8]),
}

fn are_names(text: &[u8]) -> bool
    ensures { result ≡ list_all is_name_word (words text.now) }
{
    let mut from = text;
    'names: loop {
        let Some((name, rest)) = next_word(from) else {
            return true;
        };
        if !is_name(name) {
            return false;
        }
        from = rest;
    }
}

fn read_ring(rest: &[u8]) -> Option<StatementText<'_>>
    ensures { option_map statement_view result ≡ ring_line (words rest.entry.now) }
{
    let (digits, names) = next_word(rest)?;
    if is_blank(names) {
        return None;
    }
    if !is_number(digits) {
        return None;
    }
    if !are_names(names) {
        return None;
    }
    Some(StatementText::Ring(digits, names))
}

fn read_order(rest: &[u8]) -> Option<StatementText<'_>>
    ensures { option_map statement_view result ≡ order_line (only_word rest.entry.now) }
{
    let word = one_word(rest)?;
    let found = order_named(word)?;
    Some(StatementText::Order(found))
}

fn read_ideal(rest: &[u8]) -> Option<StatementText<'_>>
    ensures { option_map statement_view result ≡ ideal_line (pair (parts Equals rest.entry.now)) }
{
    let (left, generators) = two_parts(rest, Mark::Equals)?;
    let name = one_word(left)?;
    if !is_name(name) {
        return None;
    }
    if !are_polynomials(generators) {
        return None;
    }
    Some(StatementText::Ideal(name, generators))
}

fn read_module(question: Question, rest: &[u8]) -> Option<StatementText<'_>>
    ensures { option_map statement_view result ≡ module_line question (pair (words rest.entry.now)) }
{
    let (degree, name) = two_words(rest)?;
    if !is_number(degree) {
        return None;
    }
    if !is_name(name) {
        return None;
    }
    Some(StatementText::Module(question, degree, name))
}

fn are_entries(text: &[u8]) -> bool
    ensures { result ≡ are_entries_of text.now }
{
    is_blank(text) || are_polynomials(text)
}

fn read_class(rest: &[u8]) -> Option<StatementText<'_>>
    ensures { option_map statement_view result ≡ class_line (pair (parts Open rest.entry.now)) }
{
    let (front, vector) = two_parts(rest, Mark::Open)?;
    let (degree, name, stage) = three_words(front)?;
    let (entries, behind) = two_parts(vector, Mark::Close)?;
    if !is_number(degree) {
        return None;
    }
    if !is_name(name) {
        return None;
    }
    if !is_number(stage) {
        return None;
    }
    if !are_entries(entries) {
        return None;
    }
    if !is_blank(behind) {
        return None;
    }
    Some(StatementText::Class(degree, name, stage, entries))
}

fn read_invert(rest: &[u8]) -> Option<StatementText<'_>>
    ensures { option_map statement_view result ≡ invert_line (words rest.entry.now) (after_word (after_word rest.entry.now)) }
{
    let (degree, later) = next_word(rest)?;
    let (name, text) = next_word(later)?;
    if !is_number(degree) {
        return None;
    }
    if !is_name(name) {
        return None;
    }
    if !is_polynomial(text) {
        return None;
    }
    Some(StatementText::Invert(degree, name, text))
}

fn read_map(rest: &[u8]) -> Option<StatementText<'_>>
    ensures { option_map statement_view result ≡ map_line (triple (words rest.entry.now)) }
{
    let (degree, source, target) = three_words(rest)?;
    if !is_number(degree) {
        return None;
    }
    if !is_name(source) {
        return None;
    }
    if !is_name(target) {
        return None;
    }
    Some(StatementText::Map(degree, source, target))
}

fn read_member(rest: &[u8]) -> Option<StatementText<'_>>
    ensures { option_map statement_view result ≡ member_line (words rest.entry.now) (after_word rest.entry.now) }
{
    let (name, text) = next_word(rest)?;
    if !is_name(name) {
        return None;
    }
    if !is_polynomial(text) {
        return None;
    }
    Some(StatementText::Member(name, text))
}

/// What a line says by its form, where it has one.
pub fn read_statement(line: &[u8]) -> Option<StatementText<'_>>
    ensures { option_map statement_view result ≡ statement_of line.entry.now }
{
    let (word, rest) = next_word(line)?;
    match read_keyword(word)? {
        Keyword::Ring => read_ring(rest),
        Keyword::Order => read_order(rest),
        Keyword::Ideal => read_ideal(rest),
        Keyword::Module(question) => read_module(question, rest),
        Keyword::Class => read_class(rest),
        Keyword::Invert => read_invert(rest),
        Keyword::Map => read_map(rest),
        Keyword::Member => read_member(rest),
    }
}
