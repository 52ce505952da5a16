//! The metrics of a payload, as numbers. This file knows no texts: nothing is measured here.

/// What is measured of a payload, a text that holds line breaks of its own. Widths are columns.
///
/// A part is what is between two breaks, each LF or CR.
#[derive(Clone, Copy)]
pub struct Metrics {
    /// The width of the first part.
    pub first_width: usize,
    /// Whether the first part has any byte.
    pub first_nonempty: bool,
    /// The greatest width of all parts but the first.
    pub rest_width: usize,
    /// The width of the last part.
    pub last_width: usize,
    /// Whether the last part has any byte.
    pub last_nonempty: bool,
}
