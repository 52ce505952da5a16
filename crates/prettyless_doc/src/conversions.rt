//! Nothing by default, and documents in the making from what they are made of.
ghost use Rattle.std.specs.Prelude.{◌≡◌, MatchOption};
ghost use Rattle.prettyless_doc.specs.declared.doc.Doc.TheVariants.{Nil};
ghost use Rattle.prettyless_doc.specs.declared.doc.BuildDoc.TheVariants.{Doc as Plain};

use crate::doc::{BuildDoc, Doc};

/// The empty document.
impl<'a, T> Default for Doc<'a, T> {
    ghost is_default = { λ d. d ≡ Nil };

    fn default() -> Self {
        Doc::Nil
    }
}

/// The empty document.
impl<'a, D> Default for BuildDoc<'a, D> {
    ghost is_default = { λ d. d ≡ Plain Nil };

    fn default() -> Self {
        BuildDoc::Doc(Doc::Nil)
    }
}

/// A node that is not allocated yet.
impl<'a, D> From<Doc<'a, D>> for BuildDoc<'a, D> {
    ghost from_gives = { λ d b. b ≡ Plain d };

    fn from(doc: Doc<'a, D>) -> BuildDoc<'a, D> {
        BuildDoc::Doc(doc)
    }
}

/// What there is, or nothing.
impl<'a, D, S: Into<BuildDoc<'a, D>>> From<Option<S>> for BuildDoc<'a, D> {
    ghost from_gives = { λ o b. MatchOption o (b ≡ Plain Nil) (λ s. S.converts s b) };

    fn from(document: Option<S>) -> BuildDoc<'a, D> {
        match document {
            Some(document) => document.into(),
            None => BuildDoc::default(),
        }
    }
}
