//! A row.

/// An executed line.
#[derive(Clone, Copy, Debug)]
pub(crate) struct Row<'a> {
    pub(crate) text: &'a str,
    /// Where it begins.
    pub(crate) top: usize,
}
