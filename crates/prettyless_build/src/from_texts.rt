//! Texts become documents as `text` of a place of nodes makes them. Only an owned one takes memory.
ghost use Rattle.std.specs.Prelude.{◌≡◌};
ghost use Rattle.std.specs.Cow.{cow_str_bytes};
ghost use Rattle.std.specs.String.{string_bytes};
ghost use Rattle.prettyless_doc.specs.BuildErrors.{IsMemory};
ghost use Rattle.prettyless_trees.specs.Counted as counted;
ghost use Rattle.prettyless_doc.specs.TextBytes.{IsOwnedAnd};

use crate::builder::DocBuilder;
use crate::pretty::Pretty;
use prettyless_doc::text::CowStr;
use prettyless_doc::{BuildError, Doc, DocPlace};

impl<'a, D: DocPlace<'a>> Pretty<'a, D> for CowStr<'a> {
    ghost becomes = { λ s y. y ≡ counted.text (cow_str_bytes s) };

    ghost refuses = { λ s e. IsOwnedAnd s (IsMemory e) };

    #[inline(always)]
    fn pretty(self, place: &'a D) -> Result<DocBuilder<'a, D>, BuildError> {
        let doc = Doc::text(place.memory(), self)?;
        Ok(DocBuilder::new(place, doc))
    }
}

impl<'a, D: DocPlace<'a>> Pretty<'a, D> for &'a str {
    ghost becomes = { λ s y. y ≡ counted.text s.now };

    ghost refuses = { λ _ _. ⊥ };

    #[inline(always)]
    fn pretty(self, place: &'a D) -> Result<DocBuilder<'a, D>, BuildError> {
        CowStr::Borrowed(self).pretty(place)
    }
}

impl<'a, D: DocPlace<'a>> Pretty<'a, D> for &'a String {
    ghost becomes = { λ s y. y ≡ counted.text (string_bytes s.now) };

    ghost refuses = { λ _ _. ⊥ };

    #[inline(always)]
    fn pretty(self, place: &'a D) -> Result<DocBuilder<'a, D>, BuildError> {
        CowStr::Borrowed(self.as_str()).pretty(place)
    }
}

impl<'a, D: DocPlace<'a>> Pretty<'a, D> for String {
    ghost becomes = { λ s y. y ≡ counted.text (string_bytes s) };

    ghost refuses = { λ _ e. IsMemory e };

    #[inline(always)]
    fn pretty(self, place: &'a D) -> Result<DocBuilder<'a, D>, BuildError> {
        CowStr::Owned(self).pretty(place)
    }
}
