//! Whether what a call answers is shown as a test wants. Where memory is refused, nothing is.
use prettyless::text::BuildError;
use prettyless::{DocBuilder, DocPlace};
use std::alloc::Global;
use std::fmt;

/// Whether a value is shown as this text.
pub fn is_shown<T: fmt::Debug>(memory: Global, value: &T, text: &str) -> bool {
    match format!(in memory; "{value:?}") {
        Ok(shown) => shown.as_str() == text,
        Err(_) => false,
    }
}

/// Whether a document was built, and is shown as this text.
pub fn shows<'a, D: DocPlace<'a>>(
    place: &'a D,
    built: Result<DocBuilder<'a, D>, BuildError>,
    text: &str,
) -> bool {
    match built {
        Ok(built) => is_shown(place.memory(), &built, text),
        Err(_) => false,
    }
}

/// Whether a document was placed, and is shown as this text.
pub fn points<'a, D: DocPlace<'a>, T: fmt::Debug + Drop>(
    place: &'a D,
    placed: Result<T, BuildError>,
    text: &str,
) -> bool {
    match placed {
        Ok(pointer) => is_shown(place.memory(), &pointer, text),
        Err(_) => false,
    }
}

/// Whether a call refused what cannot be printed.
pub fn refuses<T: Drop>(made: Result<T, BuildError>) -> bool {
    matches!(made, Err(BuildError::Display))
}
