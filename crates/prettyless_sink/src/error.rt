//! Why a render stops. This file knows no sinks: a sink's error is a parameter.
use std::alloc::AllocError;
use std::error::Error;
use std::fmt;

/// The error of a render. What is said of the sink's bytes holds where they are known.
#[derive(Debug, Drop)]
pub enum RenderError<E> {
    /// The document fails. The bytes before its failing node were appended to the sink's, exactly.
    /// The error is one that the sink's `fail_doc` may answer.
    Document(E),
    /// The sink failed, with this error. A beginning of the layout's bytes was appended.
    Sink(E),
    /// Memory ran out. A beginning of the layout's bytes was appended.
    Memory(AllocError),
}

/// Writes a sentence that names the cause.
impl<E: fmt::Display> fmt::Display for RenderError<E> {
    fn fmt<W: fmt::Write>(&self, f: &mut fmt::Formatter<W>) -> fmt::Result {
        match self {
            RenderError::Document(_) => f.write_str("the document cannot be laid out"),
            RenderError::Sink(error) => write!(f, "the layout cannot be written: {error}"),
            RenderError::Memory(_) => f.write_str(
                "memory was refused while the document was laid out",
            ),
        }
    }
}

impl<E: fmt::Debug + fmt::Display + Drop> Error for RenderError<E> {}
