// Certificates while they are written.
ghost use Rattle.std.specs.Prelude.{IfOk, List, OnOk, Some, [], codes, decimal, length, map, slice_get, string_bytes, ◌++◌, ◌∷◌, ◌≡◌, ◌≤◌, ℕ};
ghost use Rattle.std.specs.List.{flat_map};
ghost use Rattle.fm_cert.specs.Fields.{vector_word};
ghost use Rattle.fm_cert.specs.Lines.{Line};
ghost use Rattle.fm_cert.specs.Pieces.{ArePiecesOver, piece_words, row_words, words_text};
ghost use Rattle.fm_cert.specs.Writable.{AreSmall};
ghost use Rattle.fm_complete.specs.Bases.{entry_value};
ghost use Rattle.fm_mat.specs.Matrices.{AreColumns};
ghost use Rattle.fm_poly.specs.declared.ring.Ring.{Ring as RingValue};
ghost use Rattle.fm_standard.specs.Small.{AreSmallLines, IsSmallLine};
ghost use Rattle.fm_standard.specs.Writing.{bare, beside_line, entry_line, flip_line, form_written, given_line, log_written, twist_line};
ghost use Rattle.fm_words.specs.Parts.{Bytes};
ghost use Rattle.fm_writer.specs.Writers.{HasNumbered, IsFormLine, with_lines};

use fm_cert::{Piece, push_row};
use fm_complete::{Entry, Start};
use fm_mat::Column;
use indexmap::IndexSet;
use itoa::Buffer;
use std::alloc::{AllocError, Global};
use std::marker::Model;

/// The text of a certificate, and what has a number in it: the forms of parts, each by its text, and the logs, each by the number of its part.
#[derive(Drop)]
pub struct Writer<'x> {
    names: &'x [String],
    text: Vec<u8>,
    forms: IndexSet<Vec<u8>>,
    logs: IndexSet<u64>,
}

impl<'x> Model for Writer<'x> {
    ghost use Rattle.std.specs.Prelude.{map, string_bytes};
    ghost use Rattle.fm_writer.specs.Writers.{WriterValue, texts_of};

    ghost Value = { WriterValue };

    ghost view = { λ w. record { names = map string_bytes w.names.now; text = w.text.items; shelf = record { forms = texts_of w.forms.keys; logs = w.logs.keys } } };
}

impl<'x> Writer<'x> {
    /// Nothing is written yet.
    pub fn new(alloc: Global, names: &'x [String]) -> Writer<'x>
        ensures { result ≡ record { names = map string_bytes names.now; text = []; shelf = bare } }
    {
        Writer {
            names,
            text: Vec::new(alloc),
            forms: IndexSet::new(alloc),
            logs: IndexSet::new(alloc),
        }
    }

    /// The number of the matrix with these columns, which is written where it has none yet.
    pub fn given(&mut self, alloc: Global, rows: u32, columns: &[Column]) -> Result<u64, AllocError>
        requires shape { (r : RingValue) × (r.vars ≡ length self.old.names) × AreColumns r rows columns.now }
        ensures { IfOk result (HasNumbered self.old (form_written self.old.names (given_line rows columns.now) self.old.shelf) self.new) }
    {
        let mut pieces = Vec::new(alloc);
        pieces.push(Piece::Number(u64::from(rows)))?;
        pieces.push(Piece::Number(columns.len() as u64))?;
        push_vectors(columns, &mut pieces)?;
        self.form(alloc, b"given", &pieces)
    }

    /// The number of the twist of part a by p^e.
    pub fn twist(&mut self, alloc: Global, a: u64, e: u8) -> Result<u64, AllocError>
        requires { e ≤ 16 }
        ensures { IfOk result (HasNumbered self.old (form_written self.old.names (twist_line a e) self.old.shelf) self.new) }
    {
        self.form(
            alloc,
            b"twist",
            &[Piece::Number(a), Piece::Number(u64::from(e))],
        )
    }

    /// The number of the transpose of part a.
    pub fn flip(&mut self, alloc: Global, a: u64) -> Result<u64, AllocError>
        ensures { IfOk result (HasNumbered self.old (form_written self.old.names (flip_line a) self.old.shelf) self.new) }
    {
        self.form(alloc, b"flip", &[Piece::Number(a)])
    }

    /// The number of the join of the parts a and b.
    pub fn beside(&mut self, alloc: Global, a: u64, b: u64) -> Result<u64, AllocError>
        ensures { IfOk result (HasNumbered self.old (form_written self.old.names (beside_line a b) self.old.shelf) self.new) }
    {
        self.form(alloc, b"beside", &[Piece::Number(a), Piece::Number(b)])
    }

    // The number of a form, which is written where it has none yet.
    fn form(&mut self, alloc: Global, word: &[u8], pieces: &[Piece<'_>]) -> Result<u64, AllocError>
        requires { ArePiecesOver (length self.old.names) pieces.now }
        ensures { (line : ℕ → Line) → IsFormLine self.old.names (row_words self.old.names word.now pieces.now) line
            → IfOk result (HasNumbered self.old (form_written self.old.names line self.old.shelf) self.new) }
    {
        let mut form = Vec::new(alloc);
        push_row(self.names, word, pieces, &mut form)?;
        self.number(form)
    }

    // The number of the form with this text.
    fn number(&mut self, form: Vec<u8>) -> Result<u64, AllocError>
        ensures { (first : Bytes) (more : List Bytes) (line : ℕ → Line) → form.items ≡ words_text (first ∷ more)
            → IsFormLine self.old.names (first ∷ more) line → IfOk result (HasNumbered self.old (form_written self.old.names line self.old.shelf) self.new) }
    {
        let (place, is_new) = self.forms.insert_full(form)?;
        let _count = self.forms.len();
        let number = place as u64 + 1;
        if is_new {
            self.push_part(number, place)?;
        }
        Ok(number)
    }

    // Appends the line of the part with this number, and the form in this place.
    fn push_part(&mut self, number: u64, place: usize) -> Result<(), AllocError>
        ensures { (form : Bytes) → slice_get self.old.shelf.forms place ≡ Some form → OnOk result (self.new ≡ record {
          names = self.old.names;
          text = self.old.text ++ (codes "part " ++ (decimal number ++ 32 ∷ form));
          shelf = self.old.shelf;
        }) }
    {
        let mut digits = Buffer::new();
        self.text.extend_from_slice(b"part ")?;
        self.text
            .extend_from_slice(digits.format(number).as_bytes())?;
        self.text.push(b' ')?;
        let Some(form) = self.forms.get_index(place) else {
            return Ok(());
        };
        self.text.extend_from_slice(form)?;
        Ok(())
    }

    /// The number of the log of this part, which is written where it has none yet.
    pub fn log(&mut self, part: u64, entries: &[Entry]) -> Result<u64, AllocError>
        ensures { IfOk result (HasNumbered self.old (log_written (map entry_value entries.now) part self.old.shelf) self.new) }
    {
        let (place, is_new) = self.logs.insert_full(part)?;
        let _count = self.logs.len();
        let number = place as u64 + 1;
        if is_new {
            self.push(b"log", &[Piece::Number(number), Piece::Number(part)])?;
            self.push_entries(entries)?;
            self.push(b"end", &[])?;
        }
        Ok(number)
    }

    // Appends the lines of entries.
    fn push_entries(&mut self, entries: &[Entry]) -> Result<(), AllocError>
        ensures page { OnOk result (self.new ≡ with_lines self.old (map entry_line (map entry_value entries.now)) self.old.shelf) }
        ensures small { OnOk result (AreSmallLines (map entry_line (map entry_value entries.now))) }
    {
        let mut left = entries;
        'entries: loop {
            let Some((entry, later)) = left.split_first() else {
                return Ok(());
            };
            self.push_entry(entry)?;
            left = later;
        }
    }

    fn push_entry(&mut self, entry: &Entry) -> Result<(), AllocError>
        ensures page { OnOk result (self.new ≡ with_lines self.old (entry_line (entry_value entry.now) ∷ []) self.old.shelf) }
        ensures small { OnOk result (IsSmallLine (entry_line (entry_value entry.now))) }
    {
        use Piece::{By, Keep, Number, Word};
        let by = entry.by.as_slice();
        tell_small(by);
        match entry.start {
            Start::Input(k) => self.push(
                b"input",
                &[Number(u64::from(k)), By(by), Keep(entry.keep)],
            ),
            Start::Pair(a, b) => self.push(
                b"pair",
                &[
                    Number(u64::from(a)),
                    Number(u64::from(b)),
                    By(by),
                    Keep(entry.keep),
                ],
            ),
            Start::Skip(a, b, k) => self.push(
                b"skip",
                &[
                    Number(u64::from(a)),
                    Number(u64::from(b)),
                    Word(b"by"),
                    Number(u64::from(k)),
                ],
            ),
        }
    }

    /// Appends a line.
    pub fn push(&mut self, first: &[u8], rest: &[Piece<'_>]) -> Result<(), AllocError>
        requires { ArePiecesOver (length self.old.names) rest.now }
        ensures { OnOk result (self.new ≡ record {
          names = self.old.names;
          text = self.old.text ++ words_text (row_words self.old.names first.now rest.now);
          shelf = self.old.shelf;
        }) }
    {
        push_row(self.names, first, rest, &mut self.text)
    }

    /// What is written.
    pub fn into_text(self) -> Vec<u8>
        ensures { result.items ≡ self.entry.text }
    {
        self.text
    }
}

// Appends the columns as pieces.
fn push_vectors<'a>(columns: &'a [Column], pieces: &mut Vec<Piece<'a>>) -> Result<(), AllocError>
    ensures words { (names : List Bytes) → OnOk result (flat_map (piece_words names) pieces.new.items
        ≡ flat_map (piece_words names) pieces.old.items ++ map (vector_word names) columns.now) }
    ensures over { (r : RingValue) (rows : ℕ) → AreColumns r rows columns.now → ArePiecesOver r.vars pieces.old.items
        → OnOk result (ArePiecesOver r.vars pieces.new.items) }
{
    let mut left = columns;
    'columns: loop {
        let Some((column, later)) = left.split_first() else {
            return Ok(());
        };
        pieces.push(Piece::Vector(column.entries()))?;
        left = later;
    }
}

/// Reads each number, whose type bounds it.
pub fn tell_small(members: &[u32])
    ensures { AreSmall members.now }
{
    let mut left = members;
    'members: loop {
        let Some((member, later)) = left.split_first() else {
            return;
        };
        let _member = *member;
        left = later;
    }
}
