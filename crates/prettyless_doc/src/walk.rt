ghost use Rattle.std.specs.Prelude.{false};
ghost use Rattle.prettyless_doc.specs.DocTree.{tree_of};

use crate::doc::{Doc, DocPtr};
use prettyless_model::choice::ChoiceTest;
use prettyless_model::kind::{Indenting, Pair, Single};
use prettyless_model::mode::Mode;
use prettyless_probe::walk::{View, Walk};
use prettyless_summary::known::Known;

/// A document as the printer walks it.
impl<'d, 'a, T: DocPtr<'a>> Walk for &'d Doc<'a, T> {
    ghost tree = { λ d. tree_of T.tree d.now };

    ghost HAS_SUMMARIES = { false };

    #[inline(always)]
    fn has_summaries() -> bool {
        false
    }

    #[inline(always)]
    fn known(&self, mode: Mode) -> Known {
        let _mode = mode;
        Known::nothing()
    }

    #[inline(always)]
    fn touch(&self) -> bool {
        matches!(**self, Doc::Nil)
    }

    #[inline(always)]
    fn view(&self) -> View<'_, Self> {
        match **self {
            Doc::Nil => View::Nil,
            Doc::Fail => View::Fail,
            Doc::Text(ref text) => View::Text(text.as_str()),
            Doc::TextWithLen(width, ref text) => View::TextWithLen(width, text.as_str()),
            Doc::MultilineText(ref payload) => View::MultilineText(
                payload.as_str(),
                payload.metrics(),
            ),
            Doc::WeakSpace => View::WeakSpace,
            Doc::HardLine => View::HardLine,
            Doc::WeakLine => View::WeakLine,
            Doc::ExpandParent => View::ExpandParent,
            Doc::LineSuffix(ref inner) => View::One(Single::LineSuffix, inner.doc()),
            Doc::Nest(offset, ref inner) => View::One(
                Single::Indented(Indenting::Nest(offset)),
                inner.doc(),
            ),
            Doc::DedentToRoot(ref inner) => View::One(
                Single::Indented(Indenting::DedentToRoot),
                inner.doc(),
            ),
            Doc::Align(ref inner) => View::One(Single::Indented(Indenting::Align), inner.doc()),
            Doc::Flatten(ref inner) => View::One(Single::Flatten, inner.doc()),
            Doc::Group(ref inner) => View::One(Single::Group, inner.doc()),
            Doc::Append(ref left, ref right) => View::Two(Pair::Append, left.doc(), right.doc()),
            Doc::BreakOrFlat(ref broken, ref flat) => View::Two(
                Pair::BreakOrFlat,
                broken.doc(),
                flat.doc(),
            ),
            Doc::Union(ref first, ref second) => View::Two(Pair::Union, first.doc(), second.doc()),
            Doc::PartialUnion(ref first, ref second) => View::Two(
                Pair::PartialUnion,
                first.doc(),
                second.doc(),
            ),
            Doc::OnColumn(test, ref first, ref second) => View::Two(
                Pair::Chosen(ChoiceTest::OnColumn(test)),
                first.doc(),
                second.doc(),
            ),
            Doc::OnNesting(test, ref first, ref second) => View::Two(
                Pair::Chosen(ChoiceTest::OnNesting(test)),
                first.doc(),
                second.doc(),
            ),
        }
    }
}
