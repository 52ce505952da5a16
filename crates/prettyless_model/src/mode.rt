//! The mode in which a document is laid. This file knows nothing else.

/// How a document is laid: with its lines broken, or flat.
#[derive(Clone, Copy)]
pub enum Mode {
    Break,
    Flat,
}
