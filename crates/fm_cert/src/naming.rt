// The numbers of parts.
ghost use Rattle.std.specs.Prelude.{IfOk, OnOk, [], length, zero, ◌++◌, ◌≡◌};
ghost use Rattle.fm_cert.specs.Naming.{forms_after, forms_with, grid_words, naming_lines as lines_that_name, number_after};
ghost use Rattle.fm_cert.specs.Parts.{AreNamingsOver, forms_of, grid_value, known_number, lines_naming, naming_value, naming_values, words_of, IsNext};
ghost use Rattle.fm_cert.specs.Pieces.{AreColumnsOver};
ghost use Rattle.fm_cert.specs.Said.{AreLinesOver, line_values};

use crate::forms::form_of;
use crate::{Grid, Line, Naming};
use fm_problem::Problem;
use indexmap::IndexSet;
use std::alloc::{AllocError, Global};
use std::marker::Model;

/// The printed forms of the matrices that have numbers in a report, each once, in the order of the numbers. A form is found by its hash.
#[derive(Drop)]
pub struct Forms {
    forms: IndexSet<Vec<Vec<u8>>>,
}

// The number of a form, and whether it has it now for the first time.
#[derive(Clone, Copy)]
pub(crate) enum Numbered {
    Known(u64),
    New(u64),
}

impl Model for Forms {
    ghost use Rattle.std.specs.Prelude.{List};
    ghost use Rattle.fm_words.specs.Parts.{Bytes};
    ghost use Rattle.fm_cert.specs.Parts.{forms_of};

    ghost Value = { List (List Bytes) };

    ghost view = { λ f. forms_of f.forms.keys };
}

impl Forms {
    /// No form has a number yet.
    pub fn new(alloc: Global) -> Forms
        ensures { result ≡ [] }
    {
        Forms {
            forms: IndexSet::new(alloc),
        }
    }

    /// Appends the lines that name these matrices, in the report of a problem. A part's line stands before the first line that names it,
    /// and equal matrices have one number. Each matrix is moved into its line.
    pub fn push_names(
        &mut self,
        alloc: Global,
        problem: &Problem,
        namings: Vec<Naming>,
        lines: &mut Vec<Line>,
    ) -> Result<(), AllocError>
        requires named { length problem.now.vars ≡ problem.now.ring.vars }
        requires over { AreNamingsOver problem.now.ring.vars namings.items }
        requires before { AreLinesOver problem.now.ring.vars lines.old.items }
        ensures lines { OnOk result (line_values problem.now lines.new.items
            ≡ line_values problem.now lines.old.items ++ lines_that_name problem.now.vars (naming_values namings.items) self.old) }
        ensures forms { OnOk result (self.new ≡ forms_after problem.now.vars (naming_values namings.items) self.old) }
        ensures over { OnOk result (AreLinesOver problem.now.ring.vars lines.new.items) }
    {
        let mut left = namings.into_iter();
        'namings: loop {
            let Some(naming) = left.next() else {
                return Ok(());
            };
            self.push_name(alloc, problem, naming, lines)?;
        }
    }

    // Appends the line that names a matrix, before it the part's own line where its form has no number yet.
    fn push_name(
        &mut self,
        alloc: Global,
        problem: &Problem,
        naming: Naming,
        lines: &mut Vec<Line>,
    ) -> Result<(), AllocError>
        requires named { length problem.now.vars ≡ problem.now.ring.vars }
        requires over { AreColumnsOver problem.now.ring.vars naming.grid.columns.items }
        requires before { AreLinesOver problem.now.ring.vars lines.old.items }
        ensures lines { OnOk result (line_values problem.now lines.new.items ≡ line_values problem.now lines.old.items
            ++ lines_naming (number_after zero self.old (grid_words problem.now.vars (grid_value naming.grid))) (naming_value naming) self.old) }
        ensures forms { OnOk result (self.new ≡ forms_with
            (number_after zero self.old (grid_words problem.now.vars (grid_value naming.grid)))
            self.old (grid_words problem.now.vars (grid_value naming.grid))) }
        ensures over { OnOk result (AreLinesOver problem.now.ring.vars lines.new.items) }
    {
        let Naming { slot, grid } = naming;
        let form = form_of(alloc, problem.vars.as_slice(), &grid)?;
        let number = self.number(form)?;
        match number {
            Numbered::Known(part) => {
                lines.push(slot.line(part))?;
                Ok(())
            }
            Numbered::New(part) => {
                let Grid { rows, columns } = grid;
                lines.push(Line::Given {
                    part,
                    rows,
                    columns,
                })?;
                lines.push(slot.line(part))?;
                Ok(())
            }
        }
    }

    // The number that a form has, or that it gets.
    fn number(&mut self, form: Vec<Vec<u8>>) -> Result<Numbered, AllocError>
        ensures number { IfOk result (λ n. number_after zero self.old (words_of form.items) ≡ known_number n) }
        ensures forms { IfOk result (λ n. self.new ≡ forms_with (known_number n) self.old (words_of form.items)) }
        ensures new { IfOk result (λ n. IsNext (length self.old) n) }
    {
        let (place, is_new) = self.forms.insert_full(form)?;
        let _count = self.forms.len();
        let part = place as u64 + 1;
        if is_new {
            Ok(Numbered::New(part))
        } else {
            Ok(Numbered::Known(part))
        }
    }
}
