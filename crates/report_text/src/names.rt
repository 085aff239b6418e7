//! The names of the files of a check.

/// The names of the three files of a check.
#[derive(Clone, Copy)]
pub struct Names<'a> {
    pub sail: &'a str,
    pub image: &'a str,
    pub proof: &'a str,
}
