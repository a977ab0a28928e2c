// The kinds of lines of certificates, by what they name.
ghost use Rattle.std.specs.Prelude.{IfSome, ◌<◌, ◌^◌, ◌≡◌};
ghost use Rattle.fm_writer.specs.Kinds.{excluding_number, excluding_word, generating_number, generating_word, has_column, named_number, named_word};

/// The kinds of lines that name one part. A number stands before it in some.
#[derive(Clone, Copy)]
pub enum Named {
    D(u64),
    Theta(u64),
    Morphism,
    Stable(u64),
    Whole,
    Coordinates,
    Dies(u64),
    Cofactors,
    Power,
    Settles(u64),
    Lambda(u64),
    Phi,
    Null,
    One,
    Onto(u64),
    Closes(u64),
}

impl Named {
    /// The first word of the line.
    pub(crate) fn word(self) -> &'static [u8]
        ensures { result.now ≡ named_word self }
    {
        match self {
            Named::D(_) => b"d",
            Named::Theta(_) => b"theta",
            Named::Morphism => b"morphism",
            Named::Stable(_) => b"stable",
            Named::Whole => b"whole",
            Named::Coordinates => b"coordinates",
            Named::Dies(_) => b"dies",
            Named::Cofactors => b"cofactors",
            Named::Power => b"power",
            Named::Settles(_) => b"settles",
            Named::Lambda(_) => b"lambda",
            Named::Phi => b"phi",
            Named::Null => b"null",
            Named::One => b"one",
            Named::Onto(_) => b"onto",
            Named::Closes(_) => b"closes",
        }
    }

    /// The number that stands before that of the part.
    pub(crate) fn number(self) -> Option<u64>
        ensures value { result ≡ named_number self }
        ensures small { IfSome result (λ j. j < 2 ^ 64) }
    {
        match self {
            Named::D(j)
            | Named::Theta(j)
            | Named::Stable(j)
            | Named::Dies(j)
            | Named::Settles(j)
            | Named::Lambda(j)
            | Named::Onto(j)
            | Named::Closes(j) => Some(j),
            Named::Morphism
            | Named::Whole
            | Named::Coordinates
            | Named::Cofactors
            | Named::Power
            | Named::Phi
            | Named::Null
            | Named::One => None,
        }
    }
}

/// The kinds of lines that name a matrix P, a log of a matrix G, and matrices X and W: P generates the first entries of the kernel of G.
#[derive(Clone, Copy)]
pub enum Generating {
    Cocycles,
    Relations,
    Chain(u64),
    Annihilator,
    Colon(u64),
    Fibre,
    Link(u64),
}

impl Generating {
    /// The first word of the line.
    pub(crate) fn word(self) -> &'static [u8]
        ensures { result.now ≡ generating_word self }
    {
        match self {
            Generating::Cocycles => b"cocycles",
            Generating::Relations => b"relations",
            Generating::Chain(_) => b"chain",
            Generating::Annihilator => b"annihilator",
            Generating::Colon(_) => b"colon",
            Generating::Fibre => b"fibre",
            Generating::Link(_) => b"link",
        }
    }

    /// The number that stands before that of P.
    pub(crate) fn number(self) -> Option<u64>
        ensures value { result ≡ generating_number self }
        ensures small { IfSome result (λ j. j < 2 ^ 64) }
    {
        match self {
            Generating::Chain(j) | Generating::Colon(j) | Generating::Link(j) => Some(j),
            Generating::Cocycles
            | Generating::Relations
            | Generating::Annihilator
            | Generating::Fibre => None,
        }
    }
}

/// The kinds of lines that name a log of a matrix, and the members that reduce a column outside of its image.
#[derive(Clone, Copy)]
pub enum Excluding {
    Grows(u64),
    Proper,
    Lives(u64),
    Foreign,
    Least,
    NonNull,
    NotOne,
    Short(u64),
}

impl Excluding {
    /// The first word of the line.
    pub(crate) fn word(self) -> &'static [u8]
        ensures { result.now ≡ excluding_word self }
    {
        match self {
            Excluding::Grows(_) => b"grows",
            Excluding::Proper => b"proper",
            Excluding::Lives(_) => b"lives",
            Excluding::Foreign => b"foreign",
            Excluding::Least => b"least",
            Excluding::NonNull => b"nonnull",
            Excluding::NotOne => b"notone",
            Excluding::Short(_) => b"short",
        }
    }

    /// The number that stands before that of the log.
    pub(crate) fn number(self) -> Option<u64>
        ensures value { result ≡ excluding_number self }
        ensures small { IfSome result (λ j. j < 2 ^ 64) }
    {
        match self {
            Excluding::Grows(s) | Excluding::Lives(s) | Excluding::Short(s) => Some(s),
            Excluding::Proper
            | Excluding::Foreign
            | Excluding::Least
            | Excluding::NonNull
            | Excluding::NotOne => None,
        }
    }

    /// Whether the number of the column stands after that of the log; the others are about one vector.
    pub(crate) fn has_column(self) -> bool
        ensures { result ≡ has_column self }
    {
        !matches!(self, Excluding::Lives(_) | Excluding::Foreign)
    }
}
