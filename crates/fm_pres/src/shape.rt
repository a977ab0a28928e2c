// The shapes of matrices that are made of others.
ghost use Rattle.std.specs.Prelude.{Some, nat_eq, nat_lt, ◌&&◌, ◌+◌, ◌≡◌};
ghost use Rattle.fm_words.specs.Options.{where_so};
ghost use Rattle.fm_parts.specs.Shapes.{SIZE};

/// Numbers of rows and of columns.
#[derive(Clone, Copy, Debug, PartialEq, Eq)]
pub struct Shape {
    pub rows: u32,
    pub columns: u32,
}

impl Shape {
    pub fn flip(self) -> Shape
        ensures { result ≡ record { rows = self.columns; columns = self.rows } }
    {
        Shape {
            rows: self.columns,
            columns: self.rows,
        }
    }

    /// None where the numbers of rows differ, or the columns are too many.
    pub fn beside(self, b: Shape) -> Option<Shape>
        ensures { result ≡ where_so (nat_eq self.rows b.rows && nat_lt (self.columns + b.columns) SIZE)
            (Some (record { rows = self.rows; columns = self.columns + b.columns })) }
    {
        if self.rows != b.rows {
            return None;
        }
        let columns = self.columns.checked_add(b.columns)?;
        Some(Shape {
            rows: self.rows,
            columns,
        })
    }

    /// None where the numbers of columns differ, or the rows are too many.
    pub fn stack(self, b: Shape) -> Option<Shape>
        ensures { result ≡ where_so (nat_eq self.columns b.columns && nat_lt (self.rows + b.rows) SIZE)
            (Some (record { rows = self.rows + b.rows; columns = self.columns })) }
    {
        if self.columns != b.columns {
            return None;
        }
        let rows = self.rows.checked_add(b.rows)?;
        Some(Shape {
            rows,
            columns: self.columns,
        })
    }

    /// None where the columns are not as many as the rows of b.
    pub fn times(self, b: Shape) -> Option<Shape>
        ensures { result ≡ where_so (nat_eq self.columns b.rows) (Some (record { rows = self.rows; columns = b.columns })) }
    {
        if self.columns != b.rows {
            return None;
        }
        Some(Shape {
            rows: self.rows,
            columns: b.columns,
        })
    }

    /// The shape with so many columns in place of its own; None where they are too many.
    pub fn pick(self, count: usize) -> Option<Shape>
        ensures { result ≡ where_so (nat_lt count SIZE) (Some (record { rows = self.rows; columns = count })) }
    {
        if count > u32::MAX as usize {
            return None;
        }
        Some(Shape {
            rows: self.rows,
            columns: count as u32,
        })
    }
}
