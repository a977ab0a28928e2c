// The shapes of operands, and whether those of a condition fit.
ghost use Rattle.std.specs.Prelude.{List, Some, length, nat_eq, nat_lt, true, ℕ, ◌&&◌, ◌*◌, ◌+◌, ◌<◌, ◌^◌, ◌≡◌};
ghost use Rattle.fm_complete.specs.Divisions.{terms_of};
ghost use Rattle.fm_groebner.specs.Syzygies as syzygies;
ghost use Rattle.fm_groebner.specs.Syzygies.{lower_members};
ghost use Rattle.fm_parts.specs.Conditions as conditions;
ghost use Rattle.fm_parts.specs.Conditions.{Log, equal, kernel, outside, preimage};
ghost use Rattle.fm_parts.specs.Replays.{is_number};
ghost use Rattle.fm_parts.specs.Shapes.{SIZE, fits};
ghost use Rattle.fm_poly.specs.declared.ring.Ring.{Ring as RingValue};
ghost use Rattle.fm_pres.specs.Tables.{part_at, parts_in};
ghost use Rattle.fm_report.specs.Parts.{Part, given};
ghost use Rattle.fm_words.specs.Options.{where_so};
ghost use Rattle.fm_conditions.specs.Meanings.{AreKeptLogs, IsCondition, IsKeptLog, IsOperand, condition_of, log_at, log_of, logs_of, operand_part};
ghost use Rattle.fm_conditions.specs.Measures as measures;
ghost use Rattle.fm_conditions.specs.Measures.{joined, measure, measure_of, multiplied, of_both, of_size};

use crate::{Condition, KeptLog, Operand};
use fm_mat::Matrix;
use fm_pres::{Shape, Table};
use fm_vec::Vector;

/// The shape of what an operand means; None where shapes in it don't fit.
pub(crate) fn shape_of(table: &Table, a: &Operand) -> Option<Shape>
    requires { IsOperand table.now.ring (parts_in table.now) a.now }
    ensures { result ≡ measure (operand_part table.now.ring (parts_in table.now) a.now) }
{
    match a {
        Operand::Part(k) => Some(part_shape(table, *k)),
        Operand::Given(m) => Some(given_shape(m)),
        Operand::Unit(n) => Some(square(*n)),
        Operand::UnitColumn(n) => unit_column_shape(*n),
        Operand::Blocks(k) => blocks_shape(part_shape(table, *k)),
        Operand::Power { rows, .. } => Some(square(*rows)),
        Operand::Twist(a, _) => shape_of(table, a),
        Operand::Flip(a) => flipped(shape_of(table, a)),
        Operand::Beside(a, b) => beside(shape_of(table, a), shape_of(table, b)),
        Operand::Times(a, b) => times(shape_of(table, a), shape_of(table, b)),
    }
}

/// The shape of a part.
pub(crate) fn part_shape(table: &Table, k: u32) -> Shape
    requires { is_number (parts_in table.now) k ≡ true }
    ensures shape { result ≡ measure_of (part_at (parts_in table.now) k) }
    ensures fits { fits (part_at (parts_in table.now) k) ≡ true }
{
    let (rows, columns) = table.shape(k);
    Shape { rows, columns }
}

fn square(n: u32) -> Shape
    ensures shape { result ≡ record { rows = n; columns = n } }
    ensures few { n < 2 ^ 32 }
{
    Shape {
        rows: n,
        columns: n,
    }
}

fn given_shape(m: &Matrix) -> Shape
    ensures shape { result ≡ measure_of (given m.now.rows m.now.columns) }
    ensures fits { fits (given m.now.rows m.now.columns) ≡ true }
{
    Shape {
        rows: m.rows(),
        columns: m.columns().len() as u32,
    }
}

fn unit_column_shape(n: u32) -> Option<Shape>
    ensures { result ≡ where_so (nat_lt (n * n) SIZE) (Some (record { rows = n * n; columns = 1 })) }
{
    let rows = n.checked_mul(n)?;
    Some(Shape { rows, columns: 1 })
}

// That of as many copies of a matrix of this shape along the diagonal as it has rows.
fn blocks_shape(s: Shape) -> Option<Shape>
    ensures { result ≡ of_size (s.rows * s.rows) (s.rows * s.columns) }
{
    let rows = s.rows.checked_mul(s.rows)?;
    let columns = s.rows.checked_mul(s.columns)?;
    Some(Shape { rows, columns })
}

fn flipped(a: Option<Shape>) -> Option<Shape>
    ensures { result ≡ measures.flipped a }
{
    let a = a?;
    Some(a.flip())
}

fn beside(a: Option<Shape>, b: Option<Shape>) -> Option<Shape>
    ensures { result ≡ of_both a b joined }
{
    let a = a?;
    let b = b?;
    a.beside(b)
}

fn times(a: Option<Shape>, b: Option<Shape>) -> Option<Shape>
    ensures { result ≡ of_both a b multiplied }
{
    let a = a?;
    let b = b?;
    a.times(b)
}

/// Whether the shapes of a condition fit.
pub(crate) fn shapes_fit(table: &Table, logs: &[KeptLog], c: &Condition) -> bool
    requires condition { IsCondition table.now.ring (parts_in table.now) logs.now c.now }
    requires logs { AreKeptLogs table.now.ring (parts_in table.now) logs.now }
    ensures { let ps = parts_in table.now in result ≡ conditions.shapes_fit (condition_of table.now.ring ps (logs_of ps logs.now) c.now) }
{
    match c {
        Condition::Equal(a, b) => have_one_shape(shape_of(table, a), shape_of(table, b)),
        Condition::Follows { a, b } => part_shape(table, *b).rows == part_shape(table, *a).columns,
        Condition::Kernel { log, a, c, x, w } => {
            kernel_fits(table, numbered(logs, *log), shape_of(table, a), *c, *x, *w)
        }
        Condition::Preimage { log, a, b, c, x, w } => preimage_fits(
            table,
            numbered(logs, *log),
            shape_of(table, a),
            shape_of(table, b),
            *c,
            *x,
            *w,
        ),
        Condition::Outside { log, a, v, .. } => {
            let logged = part_shape(table, numbered(logs, *log).part);
            outside_fits(logged, shape_of(table, a), shape_of(table, v))
        }
        Condition::Powers { .. } => true,
        Condition::Lists { .. } => true,
        Condition::Agrees { .. } => true,
        Condition::Never => true,
    }
}

// Whether both shapes are there and are the same.
fn have_one_shape(a: Option<Shape>, b: Option<Shape>) -> bool
    ensures { (A B : Part) → a ≡ measure A → b ≡ measure B → result ≡ conditions.shapes_fit (equal A B) }
{
    let Some(a) = a else {
        return false;
    };
    let Some(b) = b else {
        return false;
    };
    a.rows == b.rows && a.columns == b.columns
}

// The same of a log's part and a matrix, where a further one has as many rows.
fn outside_fits(logged: Shape, a: Option<Shape>, v: Option<Shape>) -> bool
    ensures { (log : Log) (e : ℕ) (A V : Part) (column : ℕ) (by : List ℕ) → logged ≡ measure_of log.part → a ≡ measure A → v ≡ measure V
        → result ≡ conditions.shapes_fit (outside log e A V column by) }
{
    let Some(a) = a else {
        return false;
    };
    let Some(v) = v else {
        return false;
    };
    logged.rows == a.rows && logged.columns == a.columns && v.rows == a.rows
}

fn kernel_fits(table: &Table, log: &KeptLog, a: Option<Shape>, c: u32, x: u32, w: u32) -> bool
    requires log { is_number (parts_in table.now) log.now.part ≡ true }
    requires c { is_number (parts_in table.now) c ≡ true }
    requires x { is_number (parts_in table.now) x ≡ true }
    requires w { is_number (parts_in table.now) w ≡ true }
    ensures { let ps = parts_in table.now in (A : Part) → a ≡ measure A
        → result ≡ conditions.shapes_fit (kernel (log_of ps log.now) A (part_at ps c) (part_at ps x) (part_at ps w)) }
{
    let Some(a) = a else {
        return false;
    };
    generators_fit(table, log, a, a.columns, c, x, w)
}

fn preimage_fits(
    table: &Table,
    log: &KeptLog,
    a: Option<Shape>,
    b: Option<Shape>,
    c: u32,
    x: u32,
    w: u32,
) -> bool
    requires log { is_number (parts_in table.now) log.now.part ≡ true }
    requires c { is_number (parts_in table.now) c ≡ true }
    requires x { is_number (parts_in table.now) x ≡ true }
    requires w { is_number (parts_in table.now) w ≡ true }
    ensures { let ps = parts_in table.now in (A B : Part) → a ≡ measure A → b ≡ measure B
        → result ≡ conditions.shapes_fit (preimage (log_of ps log.now) A B (part_at ps c) (part_at ps x) (part_at ps w)) }
{
    let Some(both) = beside(a, b) else {
        return false;
    };
    let Some(a) = a else {
        return false;
    };
    generators_fit(table, log, both, a.columns, c, x, w)
}

// Whether the shapes fit where part c is to generate what a matrix of the shape g sends to zero, above part x.
fn generators_fit(
    table: &Table,
    log: &KeptLog,
    g: Shape,
    front: u32,
    c: u32,
    x: u32,
    w: u32,
) -> bool
    requires log { is_number (parts_in table.now) log.now.part ≡ true }
    requires c { is_number (parts_in table.now) c ≡ true }
    requires x { is_number (parts_in table.now) x ≡ true }
    requires w { is_number (parts_in table.now) w ≡ true }
    ensures { let ps = parts_in table.now in (G : Part) → fits G ≡ true → g ≡ measure_of G
        → result ≡ conditions.generators_fit (log_of ps log.now) G front (part_at ps c) (part_at ps x) (part_at ps w) }
{
    let logged = part_shape(table, log.part);
    let c = part_shape(table, c);
    let x = part_shape(table, x);
    let w = part_shape(table, w);
    let Some(under) = c.stack(x) else {
        return false;
    };
    logged.rows == g.rows
        && logged.columns == g.columns
        && c.rows == front
        && g.columns == under.rows
        && c.columns == w.rows
        && has_lower(g.rows, w.columns, &log.members)
}

// Whether so many members have an upper block of m components that is zero.
fn has_lower(m: u32, count: u32, members: &[Vector]) -> bool
    ensures { result ≡ nat_eq count (length (lower_members m (terms_of members.now))) }
{
    let mut count = count;
    let mut members = members;
    'members: loop {
        let Some((v, later)) = members.split_first() else {
            return count == 0;
        };
        if is_lower(m, v) {
            if count == 0 {
                return false;
            }
            count -= 1;
        }
        members = later;
    }
}

/// Whether the head, if there is one, stands below the first m components.
pub(crate) fn is_lower(m: u32, v: &Vector) -> bool
    ensures { result ≡ syzygies.is_lower m v.now.terms }
{
    match v.head() {
        Some(t) => m < t.component,
        None => true,
    }
}

/// The log of a number.
pub(crate) fn numbered(logs: &[KeptLog], k: u32) -> &KeptLog
    requires { is_number logs.now k ≡ true }
    ensures is { (ps : List Part) → log_at (logs_of ps logs.entry.now) k ≡ log_of ps result.now }
    ensures kept { (r : RingValue) (ps : List Part) → AreKeptLogs r ps logs.entry.now → IsKeptLog r ps result.now }
{
    &logs[k as usize - 1]
}
