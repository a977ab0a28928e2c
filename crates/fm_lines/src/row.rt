// The lines that are rows of words and fields.
use crate::{Ending, Excluded, Generated, PartForm};

/// What a line says that is a row of words and fields. Numbers of parts, logs, members and columns count from 1, as they are written; x and w
/// are numbers of parts.
#[derive(Drop)]
pub enum Row<'a> {
    Report {
        version: u64,
    },
    Ended(Ending<'a>),
    Part {
        number: u64,
        form: PartForm,
    },
    Log {
        number: u64,
        part: u64,
    },
    Input {
        input: u64,
        by: Vec<u64>,
        keep: bool,
    },
    Pair {
        first: u64,
        second: u64,
        by: Vec<u64>,
        keep: bool,
    },
    Skip {
        first: u64,
        second: u64,
        by: u64,
    },
    EndLog,
    Datum {
        name: &'a [u8],
        degree: u64,
    },
    D {
        j: u64,
        part: u64,
    },
    Exact {
        j: u64,
        shown: Generated,
    },
    Theta {
        j: u64,
        part: u64,
    },
    Cocycles {
        part: u64,
        shown: Generated,
    },
    Relations {
        part: u64,
        shown: Generated,
    },
    Morphism {
        part: u64,
    },
    Chain {
        s: u64,
        part: u64,
        shown: Generated,
    },
    Grows {
        s: u64,
        shown: Excluded,
    },
    Stable {
        t: u64,
        w: u64,
    },
    Z {
        part: u64,
    },
    N {
        part: u64,
    },
    U {
        part: u64,
    },
    K {
        s: u64,
        part: u64,
    },
    Whole {
        w: u64,
    },
    Proper {
        shown: Excluded,
    },
    Coordinates {
        part: u64,
    },
    Lives {
        k: u64,
        log: u64,
        by: Vec<u64>,
    },
    Dies {
        m: u64,
        w: u64,
    },
    Cofactors {
        x: u64,
    },
    Foreign {
        log: u64,
        by: Vec<u64>,
    },
    Annihilator {
        part: u64,
        shown: Generated,
    },
    Power {
        w: u64,
    },
    Least {
        shown: Excluded,
    },
    Colon {
        j: u64,
        part: u64,
        shown: Generated,
    },
    Settles {
        j: u64,
        w: u64,
    },
    Lambda {
        j: u64,
        part: u64,
    },
    Phi {
        part: u64,
    },
    Null {
        w: u64,
    },
    NonNull {
        shown: Excluded,
    },
    Fibre {
        part: u64,
        shown: Generated,
    },
    One {
        w: u64,
    },
    NotOne {
        shown: Excluded,
    },
    Link {
        r: u64,
        part: u64,
        shown: Generated,
    },
    Short {
        r: u64,
        shown: Excluded,
    },
    Onto {
        r: u64,
        w: u64,
    },
    Closes {
        r: u64,
        w: u64,
    },
    Done {
        number: u64,
    },
    EndReport,
}
