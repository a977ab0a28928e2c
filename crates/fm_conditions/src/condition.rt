// Conditions of certificate lines.
use crate::Operand;
use fm_poly::Poly;

/// What a line of a certificate claims; c, x and w are numbers of parts, and logs, parts, members and columns count from 1.
#[derive(Drop)]
pub enum Condition {
    Equal(Operand, Operand),
    /// f^k can be formed by k products.
    Powers {
        f: Poly,
        k: u64,
    },
    /// Part b has as many rows as part a has columns.
    Follows {
        a: u32,
        b: u32,
    },
    /// Part c generates the kernel of a.
    Kernel {
        log: u32,
        a: Operand,
        c: u32,
        x: u32,
        w: u32,
    },
    /// Part c generates all that a sends into the image of b.
    Preimage {
        log: u32,
        a: Operand,
        b: Operand,
        c: u32,
        x: u32,
        w: u32,
    },
    /// A column of v lies outside of the image of a, twisted e times.
    Outside {
        log: u32,
        e: u8,
        a: Operand,
        v: Operand,
        column: u32,
        by: Vec<u32>,
    },
    /// The entries of the first row of a part that aren't zero are these.
    Lists {
        polynomials: Vec<Poly>,
        part: u32,
    },
    /// The number of the answer, and the one that it has to be.
    Agrees {
        told: u64,
        found: u64,
    },
    Never,
}
