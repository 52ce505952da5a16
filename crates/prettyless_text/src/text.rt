ghost use Rattle.std.specs.Prelude.{◌≡◌, IfOk, IfErr, IsOk, Ok, alloc_error};
ghost use Rattle.std.specs.Cow.{cow_str_bytes};
ghost use Rattle.prettyless_text.specs.TextBytes.{bytes_of_text, IfLent, IfUnowned};
ghost use Rattle.prettyless_text.specs.BuildErrors.{IsMemory};
ghost use Rattle.prettyless_text.specs.declared.text.BuildError.TheVariants.{Memory};

pub use crate::multiline::MultilineTextData;
pub use crate::small::SmallText;
use std::alloc::{AllocError, AllocFailed, Global};
pub use std::borrow::CowStr;
use std::boxed::BoxedStr;
use std::error::Error;
use std::fmt;

/// The error of a call that builds a document. What the call took is dropped, and all else is as it was.
#[derive(Debug, Drop)]
pub enum BuildError {
    /// Memory ran out.
    Memory(AllocError),
    /// The formatting of a value failed.
    Display,
}

impl From<AllocError> for BuildError {
    ghost from_gives = { λ e b. b ≡ Memory e };

    fn from(error: AllocError) -> BuildError {
        BuildError::Memory(error)
    }
}

impl<T: Drop> From<AllocFailed<T>> for BuildError {
    ghost from_gives = { λ _ b. b ≡ Memory alloc_error };

    fn from(error: AllocFailed<T>) -> BuildError {
        BuildError::Memory(AllocError::from(error))
    }
}

/// Writes a sentence that names the cause.
impl fmt::Display for BuildError {
    fn fmt<W: fmt::Write>(&self, f: &mut fmt::Formatter<W>) -> fmt::Result {
        match self {
            BuildError::Memory(_) => f.write_str("memory was refused while a document was built"),
            BuildError::Display => f.write_str("a value of the document cannot be formatted"),
        }
    }
}

impl Error for BuildError {}

/// The text of a node.
#[derive(Drop)]
pub enum Text<'a> {
    /// In memory of its own, behind one pointer, so that a node is no larger for it.
    Owned(Box<BoxedStr>),
    /// In memory that is lent for `'a`.
    Borrowed(&'a str),
    /// In the node itself: at most 22 bytes.
    Small(SmallText),
}

impl<'a> Text<'a> {
    /// The same bytes. A borrowed text stays borrowed, which takes no memory. An owned one keeps its buffer; it takes
    /// memory for the pointer to it. If memory runs out, the text is dropped, and nothing else changes.
    ///
    /// ```
    /// Text::from_cow(alloc, CowStr::Borrowed("ab"))? // its `as_str` is "ab"
    /// ```
    #[inline(always)]
    pub fn from_cow(alloc: Global, text: CowStr<'a>) -> Result<Self, BuildError>
        ensures ok { IfOk result (λ t. bytes_of_text t ≡ cow_str_bytes text.entry) }
        ensures borrowed { IfLent text.entry (IsOk result) }
        ensures err { IfErr result IsMemory }
    {
        match text {
            CowStr::Owned(s) => Ok(Text::Owned(Box::new(alloc, s.into_boxed_str())?)),
            CowStr::Borrowed(s) => Ok(Text::Borrowed(s)),
        }
    }

    /// The text, wherever its bytes are.
    #[inline(always)]
    pub fn as_str(&self) -> &str
        ensures { result.now ≡ bytes_of_text self.now }
    {
        match self {
            Text::Owned(s) => s.as_str(),
            Text::Borrowed(s) => s,
            Text::Small(s) => s.as_str(),
        }
    }

    /// The same bytes. Only an owned text takes memory for them, and fails if memory runs out.
    pub fn clone(&self, alloc: Global) -> Result<Self, BuildError>
        ensures ok { IfOk result (λ t. bytes_of_text t ≡ bytes_of_text self.now) }
        ensures same { IfUnowned self.now (result ≡ Ok self.now) }
        ensures err { IfErr result IsMemory }
    {
        match self {
            Text::Owned(s) => {
                let copy = BoxedStr::from_str(alloc, s.as_str())?;
                Ok(Text::Owned(Box::new(alloc, copy)?))
            }
            Text::Borrowed(s) => Ok(Text::Borrowed(s)),
            Text::Small(s) => Ok(Text::Small(*s)),
        }
    }
}

/// Shows what `Debug` shows of the text.
impl fmt::Debug for Text<'_> {
    fn fmt<W: fmt::Write>(&self, f: &mut fmt::Formatter<W>) -> fmt::Result {
        fmt::Debug::fmt(self.as_str(), f)
    }
}
