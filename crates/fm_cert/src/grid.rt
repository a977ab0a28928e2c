// Matrices that are printed, and the lines that name them.
ghost use Rattle.std.specs.Prelude.{ℕ, ◌≡◌};
ghost use Rattle.fm_cert.specs.Parts.{slot_line};
ghost use Rattle.fm_cert.specs.Said.{IsLineOver, line_value};
ghost use Rattle.fm_problem.specs.declared.problem.Problem.{Problem};

use crate::Line;
use fm_poly::Poly;

/// A matrix that is printed: the number of its rows, and its columns.
#[derive(Drop)]
pub struct Grid {
    pub rows: u64,
    pub columns: Vec<Vec<Poly>>,
}

/// Which line names a matrix by the number of its part.
#[derive(Clone, Copy)]
pub enum Slot {
    D { j: u64 },
    Theta { j: u64 },
    Z,
    N,
    U,
    K { s: u64 },
    Lambda { j: u64 },
    Phi,
}

impl Slot {
    /// The line that names the matrix of this part.
    pub fn line(self, part: u64) -> Line
        ensures value { (q : Problem) → line_value q result ≡ slot_line self part }
        ensures over { (n : ℕ) → IsLineOver n result }
    {
        match self {
            Slot::D { j } => Line::D { j, part },
            Slot::Theta { j } => Line::Theta { j, part },
            Slot::Z => Line::Z { part },
            Slot::N => Line::N { part },
            Slot::U => Line::U { part },
            Slot::K { s } => Line::K { s, part },
            Slot::Lambda { j } => Line::Lambda { j, part },
            Slot::Phi => Line::Phi { part },
        }
    }
}

/// A matrix, and the line that names it.
#[derive(Drop)]
pub struct Naming {
    pub slot: Slot,
    pub grid: Grid,
}
