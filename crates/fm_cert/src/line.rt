// Lines of reports and certificates.
use crate::End;
use fm_poly::Poly;
use fm_problem::Query;

/// A line of a report below its ideals. Numbers of parts count from 1, as they are written; `j` and `s` are indices.
#[derive(Drop)]
pub enum Line {
    Report {
        version: u64,
    },
    Query {
        number: u64,
        query: Query,
    },
    Ended(End),
    Datum {
        name: String,
        i: u64,
    },
    /// `part K given`: a matrix by the number of its rows, and its columns.
    Given {
        part: u64,
        rows: u64,
        columns: Vec<Vec<Poly>>,
    },
    D {
        j: u64,
        part: u64,
    },
    Theta {
        j: u64,
        part: u64,
    },
    Z {
        part: u64,
    },
    N {
        part: u64,
    },
    U {
        part: u64,
    },
    K {
        s: u64,
        part: u64,
    },
    Lambda {
        j: u64,
        part: u64,
    },
    Phi {
        part: u64,
    },
    Done {
        number: u64,
    },
    EndReport,
}
