// The pieces of which lines are written.
use fm_poly::Poly;
use fm_run::Task;

/// What a line is written of after its first word.
#[derive(Clone, Copy)]
pub enum Piece<'a> {
    Word(&'a [u8]),
    Number(u64),
    Numbers(&'a [u64]),
    /// Nothing, or `by` and the numbers of members.
    By(&'a [u32]),
    YesNo(bool),
    /// `no`, or `yes`, the word and the number.
    YesWith(&'a [u8], Option<u64>),
    /// `keep` or `zero`.
    Keep(bool),
    /// The names of the variables.
    Names,
    Task(Task),
    Polynomial(&'a Poly),
    Vector(&'a [Poly]),
    /// Polynomials joined by commas and blanks, `0` where there are none.
    Generators(&'a [Poly]),
    /// How many vectors there are, and the vectors.
    Columns(&'a [Vec<Poly>]),
}
