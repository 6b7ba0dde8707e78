//! How a C text and a specification fail to fit.

use thiserror::Error;

/// Where a name stands, in bytes from the beginning of its text.
#[derive(Clone, Copy, Debug, PartialEq, Eq)]
pub enum Place {
    /// In the C text.
    Text(u32),
    /// In the specification's text.
    Specification(u32),
}

/// How a C text and a specification fail to fit.
#[derive(Clone, Copy, Debug, PartialEq, Eq, Error)]
pub enum Misfit {
    /// An extern isn't declared in the specification, or a struct of the specification isn't in the C text: where its name stands.
    #[error("a name is missing in the other text")]
    Missing(Place),
    /// An extern is of another kind or width in the specification: where its name stands in the C text.
    #[error("an extern is of another kind in the specification")]
    Kind(u32),
    /// A struct has other fields in C: where its name stands in the specification.
    #[error("a struct has other fields in C")]
    Layout(u32),
}
