// The matrices of a chain of links.

/// L_r of a chain of links: [N | Phi] by the numbers of its two parts, or a part that was found.
#[derive(Clone, Copy)]
pub(crate) enum Link {
    First { n: u32, phi: u32 },
    Found(u32),
}
