// Numbers that lines name, where what they name is there.

/// By what generators are shown: the numbers of a log, of X and of W.
#[derive(Clone, Copy)]
pub(crate) struct Generating {
    pub log: u32,
    pub x: u32,
    pub w: u32,
}

/// By what a column is shown to lie outside: the numbers of a log, of the column, and of members of the log.
#[derive(Drop)]
pub(crate) struct Excluding {
    pub log: u32,
    pub column: u32,
    pub by: Vec<u32>,
}
