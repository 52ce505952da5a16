ghost use Rattle.std.specs.Prelude.{◌≡◌, IfOk, IfErr, MatchOption};
ghost use Rattle.prettyless_model.specs.Tree.{Tree, Nil};
ghost use Rattle.prettyless_doc.specs.DocTree.{tree_of, built};
ghost use Rattle.prettyless_text.specs.declared.text.BuildError.{BuildError};

use crate::builder::DocBuilder;
use prettyless_doc::{BuildDoc, BuildError, Doc, DocPlace};

/// A value that can become a document.
pub trait Pretty<'a, D: DocPlace<'a>> {
    // the trees that it may become
    ghost becomes: { Self → Tree → Type 0 };

    // the errors that it may answer in place of a tree
    ghost refuses: { Self → BuildError → Type 0 };

    /// The document that the value becomes, in `place`. Where that fails, by an error that `refuses` names, the value
    /// is dropped.
    ///
    /// ```
    /// Pretty::pretty("a", place)? // "a"
    /// ```
    fn pretty(self, place: &'a D) -> Result<DocBuilder<'a, D>, BuildError>
        ensures ok { IfOk result (λ b. becomes self (built D.Doc.tree b.1)) }
        ensures err { IfErr result (refuses self) };
}

/// Itself. It takes no memory.
impl<'a, D: DocPlace<'a>> Pretty<'a, D> for Doc<'a, D::Doc> {
    ghost becomes = { λ d y. y ≡ tree_of D.Doc.tree d };

    ghost refuses = { λ _ _. ⊥ };

    #[inline(always)]
    fn pretty(self, place: &'a D) -> Result<DocBuilder<'a, D>, BuildError> {
        Ok(DocBuilder::new(place, self))
    }
}

/// Itself. It takes no memory.
impl<'a, D: DocPlace<'a>> Pretty<'a, D> for BuildDoc<'a, D::Doc> {
    ghost becomes = { λ d y. y ≡ built D.Doc.tree d };

    ghost refuses = { λ _ _. ⊥ };

    #[inline(always)]
    fn pretty(self, place: &'a D) -> Result<DocBuilder<'a, D>, BuildError> {
        Ok(DocBuilder(place, self))
    }
}

/// Itself, in the allocator that it has. It takes no memory.
impl<'a, D: DocPlace<'a>> Pretty<'a, D> for DocBuilder<'a, D> {
    ghost becomes = { λ b y. y ≡ built D.Doc.tree b.1 };

    ghost refuses = { λ _ _. ⊥ };

    #[inline(always)]
    fn pretty(self, _allocator: &'a D) -> Result<DocBuilder<'a, D>, BuildError> {
        Ok(self)
    }
}

/// Its value's document, or nothing where it has none, which takes no memory.
impl<'a, D: DocPlace<'a>, T: Pretty<'a, D>> Pretty<'a, D> for Option<T> {
    ghost becomes = { λ o y. MatchOption o (y ≡ Nil) (λ v. T.becomes v y) };

    ghost refuses = { λ o e. MatchOption o ⊥ (λ v. T.refuses v e) };

    #[inline(always)]
    fn pretty(self, place: &'a D) -> Result<DocBuilder<'a, D>, BuildError> {
        match self {
            Some(value) => value.pretty(place),
            None => Ok(DocBuilder::new(place, Doc::Nil)),
        }
    }
}

/// The empty document. It takes no memory.
impl<'a, D: DocPlace<'a>> Pretty<'a, D> for () {
    ghost becomes = { λ _ y. y ≡ Nil };

    ghost refuses = { λ _ _. ⊥ };

    #[inline(always)]
    fn pretty(self, place: &'a D) -> Result<DocBuilder<'a, D>, BuildError> {
        Ok(DocBuilder::new(place, Doc::Nil))
    }
}
