//! Values that become texts.
ghost use Rattle.std.specs.Prelude.{◌≡◌, MatchResult, ⊤};
ghost use Rattle.std.specs.Cow.{cow_str_bytes, IsOwnedStr};
ghost use Rattle.prettyless_combinators.specs.TextClones.{IsTextClone};
ghost use Rattle.prettyless_doc.specs.BuildErrors.{IsMemory};
ghost use Rattle.prettyless_trees.specs.Counted as counted;
ghost use Rattle.prettyless_doc.specs.TextBytes.{IsOwnedAnd};
ghost use Rattle.prettyless_model.specs.Tree.{TextWithLen};

use prettyless_alloc::DocAllocator;
use prettyless_build::{DocBuilder, Pretty};
use prettyless_doc::text::CowStr;
use prettyless_doc::{BuildError, DocPlace};
use std::alloc::AllocError;
use std::fmt;

// The same text, borrowed from the same place or owned by itself.
fn clone_text<'a>(text: &CowStr<'a>) -> Result<CowStr<'a>, AllocError>
    ensures { MatchResult result (IsTextClone text.now) (λ _. IsOwnedStr text.now) }
{
    match text {
        CowStr::Borrowed(shown) => Ok(CowStr::Borrowed(*shown)),
        CowStr::Owned(shown) => Ok(CowStr::Owned(shown.clone()?)),
    }
}

/// A value as `{}` formats it, made as `as_string` of an allocator makes it.
#[derive(Clone, Debug, Drop)]
pub struct AsString<T>(pub(crate) T);

impl<'a, D: DocPlace<'a>, T: fmt::Display + Drop> Pretty<'a, D> for AsString<T> {
    ghost becomes = { λ v y. counted.IsStringOf (T.output v.0) y };

    ghost refuses = { λ _ _. ⊤ };

    fn pretty(self, place: &'a D) -> Result<DocBuilder<'a, D>, BuildError> {
        let AsString(value) = self;
        place.as_string(value)
    }
}

/// A text and the columns that it counts as, made as `text_with_width` of an allocator makes it. Only an owned text
/// takes memory, and fails if memory runs out; a clone does too.
#[derive(Debug, Drop)]
pub struct TextWithWidth<'a>(pub(crate) CowStr<'a>, pub(crate) usize);

impl<'a> Clone for TextWithWidth<'a> {
    ghost is_clone = { λ t copy. IsTextClone t.0 copy.0 × (copy.1 ≡ t.1) };

    ghost is_infallible = { λ t. ¬ IsOwnedStr t.0 };

    fn clone(&self) -> Result<TextWithWidth<'a>, AllocError> {
        Ok(TextWithWidth(clone_text(&self.0)?, self.1))
    }
}

impl<'a, D: DocPlace<'a>> Pretty<'a, D> for TextWithWidth<'a> {
    ghost becomes = { λ t y. y ≡ TextWithLen t.1 (cow_str_bytes t.0) };

    ghost refuses = { λ t e. IsOwnedAnd t.0 (IsMemory e) };

    fn pretty(self, place: &'a D) -> Result<DocBuilder<'a, D>, BuildError> {
        let TextWithWidth(text, width) = self;
        place.text_with_width(text, width)
    }
}

/// A text of several lines, made as `multiline_text` of an allocator makes it. Only an owned text takes memory, and
/// fails if memory runs out; a clone does too.
#[derive(Debug, Drop)]
pub struct MultilineText<'a>(pub(crate) CowStr<'a>);

impl<'a> Clone for MultilineText<'a> {
    ghost is_clone = { λ t copy. IsTextClone t.0 copy.0 };

    ghost is_infallible = { λ t. ¬ IsOwnedStr t.0 };

    fn clone(&self) -> Result<MultilineText<'a>, AllocError> {
        Ok(MultilineText(clone_text(&self.0)?))
    }
}

impl<'a, D: DocPlace<'a>> Pretty<'a, D> for MultilineText<'a> {
    ghost becomes = { λ t y. y ≡ counted.multiline_text (cow_str_bytes t.0) };

    ghost refuses = { λ t e. IsOwnedAnd t.0 (IsMemory e) };

    fn pretty(self, place: &'a D) -> Result<DocBuilder<'a, D>, BuildError> {
        let MultilineText(text) = self;
        place.multiline_text(text)
    }
}
