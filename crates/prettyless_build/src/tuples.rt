//! Tuples become the documents of their fields, appended in order.
//!
//! The making of a field can fail, and memory may be refused. Each field is made, also where one before it failed,
//! since a field that no one takes cannot be let go.
ghost use Rattle.std.specs.Prelude.{◌≡◌, ◌⊎◌, IfOk, IfErr, IsOkAnd, IsErrAnd};
ghost use Rattle.prettyless_model.specs.Tree.{Tree};
ghost use Rattle.prettyless_doc.specs.BuildErrors.{IsMemory};
ghost use Rattle.prettyless_doc.specs.DocTree.{built};
ghost use Rattle.prettyless_trees.specs.Built.{append, joined};
ghost use Rattle.prettyless_build.specs.Builds.{refused};

use crate::builder::DocBuilder;
use crate::pretty::Pretty;
use prettyless_doc::{BuildError, DocPlace};

// What was made in front, and then the last, appended: also where the front failed, the last is made. Each tuple calls
// the shorter one by itself, since to pass that as a parameter costs a proof of what it is.
#[inline]
fn then<'a, D: DocPlace<'a>, Y: Pretty<'a, D>>(
    place: &'a D,
    front: Result<DocBuilder<'a, D>, BuildError>,
    last: Y,
) -> Result<DocBuilder<'a, D>, BuildError>
    ensures ok { IfOk result (λ b. IsOkAnd front.entry (λ f. (y : Tree) × Y.becomes last y
        × (built D.Doc.tree b.1 ≡ append (built D.Doc.tree f.1) y))) }
    ensures err { IfErr result (λ e. IsErrAnd front.entry (λ f. f ≡ e) ⊎ Y.refuses last e ⊎ IsMemory e) }
{
    let last = last.pretty(place);
    front?.join(last?)
}

impl<'a, D: DocPlace<'a>, Field1: Pretty<'a, D>> Pretty<'a, D> for (Field1,) {
    ghost becomes = { λ t. Field1.becomes t.0 };

    ghost refuses = { λ t. Field1.refuses t.0 };

    fn pretty(self, place: &'a D) -> Result<DocBuilder<'a, D>, BuildError> {
        let (t1,) = self;
        t1.pretty(place)
    }
}

impl<'a, D: DocPlace<'a>, Field1: Pretty<'a, D>, Field2: Pretty<'a, D>> Pretty<'a, D>
    for (Field1, Field2) {
    ghost becomes = { λ t. joined (Field1.becomes t.0) (Field2.becomes t.1) };

    ghost refuses = { λ t. refused (Field1.refuses t.0) (Field2.refuses t.1) };

    fn pretty(self, place: &'a D) -> Result<DocBuilder<'a, D>, BuildError> {
        let (t1, t2) = self;
        then(place, t1.pretty(place), t2)
    }
}

impl<
    'a,
    D: DocPlace<'a>,
    Field1: Pretty<'a, D>,
    Field2: Pretty<'a, D>,
    Field3: Pretty<'a, D>,
> Pretty<'a, D> for (Field1, Field2, Field3) {
    ghost becomes = { λ t. joined (joined (Field1.becomes t.0) (Field2.becomes t.1)) (Field3.becomes t.2) };

    ghost refuses = { λ t. refused (refused (Field1.refuses t.0) (Field2.refuses t.1)) (Field3.refuses t.2) };

    fn pretty(self, place: &'a D) -> Result<DocBuilder<'a, D>, BuildError> {
        let (t1, t2, t3) = self;
        then(place, (t1, t2).pretty(place), t3)
    }
}

impl<
    'a,
    D: DocPlace<'a>,
    Field1: Pretty<'a, D>,
    Field2: Pretty<'a, D>,
    Field3: Pretty<'a, D>,
    Field4: Pretty<'a, D>,
> Pretty<'a, D> for (Field1, Field2, Field3, Field4) {
    ghost becomes = { λ t. joined (joined (joined (Field1.becomes t.0) (Field2.becomes t.1)) (Field3.becomes t.2)) (Field4.becomes t.3) };

    ghost refuses = { λ t.
        refused (refused (refused
        (Field1.refuses t.0) (Field2.refuses t.1)) (Field3.refuses t.2)) (Field4.refuses t.3) };

    fn pretty(self, place: &'a D) -> Result<DocBuilder<'a, D>, BuildError> {
        let (t1, t2, t3, t4) = self;
        then(place, (t1, t2, t3).pretty(place), t4)
    }
}

impl<
    'a,
    D: DocPlace<'a>,
    Field1: Pretty<'a, D>,
    Field2: Pretty<'a, D>,
    Field3: Pretty<'a, D>,
    Field4: Pretty<'a, D>,
    Field5: Pretty<'a, D>,
> Pretty<'a, D> for (Field1, Field2, Field3, Field4, Field5) {
    ghost becomes = { λ t.
        joined (joined (joined (joined
        (Field1.becomes t.0) (Field2.becomes t.1)) (Field3.becomes t.2)) (Field4.becomes t.3)) (Field5.becomes t.4) };

    ghost refuses = { λ t.
        refused (refused (refused (refused
        (Field1.refuses t.0) (Field2.refuses t.1)) (Field3.refuses t.2)) (Field4.refuses t.3)) (Field5.refuses t.4) };

    fn pretty(self, place: &'a D) -> Result<DocBuilder<'a, D>, BuildError> {
        let (t1, t2, t3, t4, t5) = self;
        then(place, (t1, t2, t3, t4).pretty(place), t5)
    }
}

impl<
    'a,
    D: DocPlace<'a>,
    Field1: Pretty<'a, D>,
    Field2: Pretty<'a, D>,
    Field3: Pretty<'a, D>,
    Field4: Pretty<'a, D>,
    Field5: Pretty<'a, D>,
    Field6: Pretty<'a, D>,
> Pretty<'a, D> for (Field1, Field2, Field3, Field4, Field5, Field6) {
    ghost becomes = { λ t.
        joined (joined (joined (joined (joined
        (Field1.becomes t.0) (Field2.becomes t.1)) (Field3.becomes t.2)) (Field4.becomes t.3)) (Field5.becomes t.4))
        (Field6.becomes t.5) };

    ghost refuses = { λ t.
        refused (refused (refused (refused (refused
        (Field1.refuses t.0) (Field2.refuses t.1)) (Field3.refuses t.2)) (Field4.refuses t.3)) (Field5.refuses t.4))
        (Field6.refuses t.5) };

    fn pretty(self, place: &'a D) -> Result<DocBuilder<'a, D>, BuildError> {
        let (t1, t2, t3, t4, t5, t6) = self;
        then(place, (t1, t2, t3, t4, t5).pretty(place), t6)
    }
}

impl<
    'a,
    D: DocPlace<'a>,
    Field1: Pretty<'a, D>,
    Field2: Pretty<'a, D>,
    Field3: Pretty<'a, D>,
    Field4: Pretty<'a, D>,
    Field5: Pretty<'a, D>,
    Field6: Pretty<'a, D>,
    Field7: Pretty<'a, D>,
> Pretty<'a, D> for (Field1, Field2, Field3, Field4, Field5, Field6, Field7) {
    ghost becomes = { λ t.
        joined (joined (joined (joined (joined (joined
        (Field1.becomes t.0) (Field2.becomes t.1)) (Field3.becomes t.2)) (Field4.becomes t.3)) (Field5.becomes t.4))
        (Field6.becomes t.5)) (Field7.becomes t.6) };

    ghost refuses = { λ t.
        refused (refused (refused (refused (refused (refused
        (Field1.refuses t.0) (Field2.refuses t.1)) (Field3.refuses t.2)) (Field4.refuses t.3)) (Field5.refuses t.4))
        (Field6.refuses t.5)) (Field7.refuses t.6) };

    fn pretty(self, place: &'a D) -> Result<DocBuilder<'a, D>, BuildError> {
        let (t1, t2, t3, t4, t5, t6, t7) = self;
        then(place, (t1, t2, t3, t4, t5, t6).pretty(place), t7)
    }
}

impl<
    'a,
    D: DocPlace<'a>,
    Field1: Pretty<'a, D>,
    Field2: Pretty<'a, D>,
    Field3: Pretty<'a, D>,
    Field4: Pretty<'a, D>,
    Field5: Pretty<'a, D>,
    Field6: Pretty<'a, D>,
    Field7: Pretty<'a, D>,
    Field8: Pretty<'a, D>,
> Pretty<'a, D>
    for (
        Field1,
        Field2,
        Field3,
        Field4,
        Field5,
        Field6,
        Field7,
        Field8,
    ) {
    ghost becomes = { λ t.
        joined (joined (joined (joined (joined (joined (joined
        (Field1.becomes t.0) (Field2.becomes t.1)) (Field3.becomes t.2)) (Field4.becomes t.3)) (Field5.becomes t.4))
        (Field6.becomes t.5)) (Field7.becomes t.6)) (Field8.becomes t.7) };

    ghost refuses = { λ t.
        refused (refused (refused (refused (refused (refused (refused
        (Field1.refuses t.0) (Field2.refuses t.1)) (Field3.refuses t.2)) (Field4.refuses t.3)) (Field5.refuses t.4))
        (Field6.refuses t.5)) (Field7.refuses t.6)) (Field8.refuses t.7) };

    fn pretty(self, place: &'a D) -> Result<DocBuilder<'a, D>, BuildError> {
        let (t1, t2, t3, t4, t5, t6, t7, t8) = self;
        then(place, (t1, t2, t3, t4, t5, t6, t7).pretty(place), t8)
    }
}

impl<
    'a,
    D: DocPlace<'a>,
    Field1: Pretty<'a, D>,
    Field2: Pretty<'a, D>,
    Field3: Pretty<'a, D>,
    Field4: Pretty<'a, D>,
    Field5: Pretty<'a, D>,
    Field6: Pretty<'a, D>,
    Field7: Pretty<'a, D>,
    Field8: Pretty<'a, D>,
    Field9: Pretty<'a, D>,
> Pretty<'a, D>
    for (
        Field1,
        Field2,
        Field3,
        Field4,
        Field5,
        Field6,
        Field7,
        Field8,
        Field9,
    ) {
    ghost becomes = { λ t.
        joined (joined (joined (joined (joined (joined (joined (joined
        (Field1.becomes t.0) (Field2.becomes t.1)) (Field3.becomes t.2)) (Field4.becomes t.3)) (Field5.becomes t.4))
        (Field6.becomes t.5)) (Field7.becomes t.6)) (Field8.becomes t.7)) (Field9.becomes t.8) };

    ghost refuses = { λ t.
        refused (refused (refused (refused (refused (refused (refused (refused
        (Field1.refuses t.0) (Field2.refuses t.1)) (Field3.refuses t.2)) (Field4.refuses t.3)) (Field5.refuses t.4))
        (Field6.refuses t.5)) (Field7.refuses t.6)) (Field8.refuses t.7)) (Field9.refuses t.8) };

    fn pretty(self, place: &'a D) -> Result<DocBuilder<'a, D>, BuildError> {
        let (t1, t2, t3, t4, t5, t6, t7, t8, t9) = self;
        then(place, (t1, t2, t3, t4, t5, t6, t7, t8).pretty(place), t9)
    }
}

impl<
    'a,
    D: DocPlace<'a>,
    Field1: Pretty<'a, D>,
    Field2: Pretty<'a, D>,
    Field3: Pretty<'a, D>,
    Field4: Pretty<'a, D>,
    Field5: Pretty<'a, D>,
    Field6: Pretty<'a, D>,
    Field7: Pretty<'a, D>,
    Field8: Pretty<'a, D>,
    Field9: Pretty<'a, D>,
    Field10: Pretty<'a, D>,
> Pretty<'a, D>
    for (
        Field1,
        Field2,
        Field3,
        Field4,
        Field5,
        Field6,
        Field7,
        Field8,
        Field9,
        Field10,
    ) {
    ghost becomes = { λ t.
        joined (joined (joined (joined (joined (joined (joined (joined (joined
        (Field1.becomes t.0) (Field2.becomes t.1)) (Field3.becomes t.2)) (Field4.becomes t.3)) (Field5.becomes t.4))
        (Field6.becomes t.5)) (Field7.becomes t.6)) (Field8.becomes t.7)) (Field9.becomes t.8))
        (Field10.becomes t.9) };

    ghost refuses = { λ t.
        refused (refused (refused (refused (refused (refused (refused (refused (refused
        (Field1.refuses t.0) (Field2.refuses t.1)) (Field3.refuses t.2)) (Field4.refuses t.3)) (Field5.refuses t.4))
        (Field6.refuses t.5)) (Field7.refuses t.6)) (Field8.refuses t.7)) (Field9.refuses t.8))
        (Field10.refuses t.9) };

    fn pretty(self, place: &'a D) -> Result<DocBuilder<'a, D>, BuildError> {
        let (t1, t2, t3, t4, t5, t6, t7, t8, t9, t10) = self;
        then(
            place,
            (t1, t2, t3, t4, t5, t6, t7, t8, t9).pretty(place),
            t10,
        )
    }
}

impl<
    'a,
    D: DocPlace<'a>,
    Field1: Pretty<'a, D>,
    Field2: Pretty<'a, D>,
    Field3: Pretty<'a, D>,
    Field4: Pretty<'a, D>,
    Field5: Pretty<'a, D>,
    Field6: Pretty<'a, D>,
    Field7: Pretty<'a, D>,
    Field8: Pretty<'a, D>,
    Field9: Pretty<'a, D>,
    Field10: Pretty<'a, D>,
    Field11: Pretty<'a, D>,
> Pretty<'a, D>
    for (
        Field1,
        Field2,
        Field3,
        Field4,
        Field5,
        Field6,
        Field7,
        Field8,
        Field9,
        Field10,
        Field11,
    ) {
    ghost becomes = { λ t.
        joined (joined (joined (joined (joined (joined (joined (joined (joined (joined
        (Field1.becomes t.0) (Field2.becomes t.1)) (Field3.becomes t.2)) (Field4.becomes t.3)) (Field5.becomes t.4))
        (Field6.becomes t.5)) (Field7.becomes t.6)) (Field8.becomes t.7)) (Field9.becomes t.8))
        (Field10.becomes t.9)) (Field11.becomes t.10) };

    ghost refuses = { λ t.
        refused (refused (refused (refused (refused (refused (refused (refused (refused (refused
        (Field1.refuses t.0) (Field2.refuses t.1)) (Field3.refuses t.2)) (Field4.refuses t.3)) (Field5.refuses t.4))
        (Field6.refuses t.5)) (Field7.refuses t.6)) (Field8.refuses t.7)) (Field9.refuses t.8))
        (Field10.refuses t.9)) (Field11.refuses t.10) };

    fn pretty(self, place: &'a D) -> Result<DocBuilder<'a, D>, BuildError> {
        let (t1, t2, t3, t4, t5, t6, t7, t8, t9, t10, t11) = self;
        then(
            place,
            (t1, t2, t3, t4, t5, t6, t7, t8, t9, t10).pretty(place),
            t11,
        )
    }
}

impl<
    'a,
    D: DocPlace<'a>,
    Field1: Pretty<'a, D>,
    Field2: Pretty<'a, D>,
    Field3: Pretty<'a, D>,
    Field4: Pretty<'a, D>,
    Field5: Pretty<'a, D>,
    Field6: Pretty<'a, D>,
    Field7: Pretty<'a, D>,
    Field8: Pretty<'a, D>,
    Field9: Pretty<'a, D>,
    Field10: Pretty<'a, D>,
    Field11: Pretty<'a, D>,
    Field12: Pretty<'a, D>,
> Pretty<'a, D>
    for (
        Field1,
        Field2,
        Field3,
        Field4,
        Field5,
        Field6,
        Field7,
        Field8,
        Field9,
        Field10,
        Field11,
        Field12,
    ) {
    ghost becomes = { λ t.
        joined (joined (joined (joined (joined (joined (joined (joined (joined (joined (joined
        (Field1.becomes t.0) (Field2.becomes t.1)) (Field3.becomes t.2)) (Field4.becomes t.3)) (Field5.becomes t.4))
        (Field6.becomes t.5)) (Field7.becomes t.6)) (Field8.becomes t.7)) (Field9.becomes t.8))
        (Field10.becomes t.9)) (Field11.becomes t.10)) (Field12.becomes t.11) };

    ghost refuses = { λ t.
        refused (refused (refused (refused (refused (refused (refused (refused (refused (refused (refused
        (Field1.refuses t.0) (Field2.refuses t.1)) (Field3.refuses t.2)) (Field4.refuses t.3)) (Field5.refuses t.4))
        (Field6.refuses t.5)) (Field7.refuses t.6)) (Field8.refuses t.7)) (Field9.refuses t.8))
        (Field10.refuses t.9)) (Field11.refuses t.10)) (Field12.refuses t.11) };

    fn pretty(self, place: &'a D) -> Result<DocBuilder<'a, D>, BuildError> {
        let (t1, t2, t3, t4, t5, t6, t7, t8, t9, t10, t11, t12) = self;
        then(
            place,
            (t1, t2, t3, t4, t5, t6, t7, t8, t9, t10, t11).pretty(place),
            t12,
        )
    }
}

impl<
    'a,
    D: DocPlace<'a>,
    Field1: Pretty<'a, D>,
    Field2: Pretty<'a, D>,
    Field3: Pretty<'a, D>,
    Field4: Pretty<'a, D>,
    Field5: Pretty<'a, D>,
    Field6: Pretty<'a, D>,
    Field7: Pretty<'a, D>,
    Field8: Pretty<'a, D>,
    Field9: Pretty<'a, D>,
    Field10: Pretty<'a, D>,
    Field11: Pretty<'a, D>,
    Field12: Pretty<'a, D>,
    Field13: Pretty<'a, D>,
> Pretty<'a, D>
    for (
        Field1,
        Field2,
        Field3,
        Field4,
        Field5,
        Field6,
        Field7,
        Field8,
        Field9,
        Field10,
        Field11,
        Field12,
        Field13,
    ) {
    ghost becomes = { λ t.
        joined (joined (joined (joined (joined (joined (joined (joined (joined (joined (joined (joined
        (Field1.becomes t.0) (Field2.becomes t.1.0)) (Field3.becomes t.1.1.0)) (Field4.becomes t.1.1.1.0))
        (Field5.becomes t.1.1.1.1.0)) (Field6.becomes t.1.1.1.1.1.0)) (Field7.becomes t.1.1.1.1.1.1.0))
        (Field8.becomes t.1.1.1.1.1.1.1.0)) (Field9.becomes t.1.1.1.1.1.1.1.1.0))
        (Field10.becomes t.1.1.1.1.1.1.1.1.1.0)) (Field11.becomes t.1.1.1.1.1.1.1.1.1.1.0))
        (Field12.becomes t.1.1.1.1.1.1.1.1.1.1.1.0)) (Field13.becomes t.1.1.1.1.1.1.1.1.1.1.1.1.0) };

    ghost refuses = { λ t.
        refused (refused (refused (refused (refused (refused (refused (refused (refused (refused (refused (refused
        (Field1.refuses t.0) (Field2.refuses t.1.0)) (Field3.refuses t.1.1.0)) (Field4.refuses t.1.1.1.0))
        (Field5.refuses t.1.1.1.1.0)) (Field6.refuses t.1.1.1.1.1.0)) (Field7.refuses t.1.1.1.1.1.1.0))
        (Field8.refuses t.1.1.1.1.1.1.1.0)) (Field9.refuses t.1.1.1.1.1.1.1.1.0))
        (Field10.refuses t.1.1.1.1.1.1.1.1.1.0)) (Field11.refuses t.1.1.1.1.1.1.1.1.1.1.0))
        (Field12.refuses t.1.1.1.1.1.1.1.1.1.1.1.0)) (Field13.refuses t.1.1.1.1.1.1.1.1.1.1.1.1.0) };

    fn pretty(self, place: &'a D) -> Result<DocBuilder<'a, D>, BuildError> {
        let (t1, t2, t3, t4, t5, t6, t7, t8, t9, t10, t11, t12, t13) = self;
        then(
            place,
            (t1, t2, t3, t4, t5, t6, t7, t8, t9, t10, t11, t12).pretty(place),
            t13,
        )
    }
}

impl<
    'a,
    D: DocPlace<'a>,
    Field1: Pretty<'a, D>,
    Field2: Pretty<'a, D>,
    Field3: Pretty<'a, D>,
    Field4: Pretty<'a, D>,
    Field5: Pretty<'a, D>,
    Field6: Pretty<'a, D>,
    Field7: Pretty<'a, D>,
    Field8: Pretty<'a, D>,
    Field9: Pretty<'a, D>,
    Field10: Pretty<'a, D>,
    Field11: Pretty<'a, D>,
    Field12: Pretty<'a, D>,
    Field13: Pretty<'a, D>,
    Field14: Pretty<'a, D>,
> Pretty<'a, D>
    for (
        Field1,
        Field2,
        Field3,
        Field4,
        Field5,
        Field6,
        Field7,
        Field8,
        Field9,
        Field10,
        Field11,
        Field12,
        Field13,
        Field14,
    ) {
    ghost becomes = { λ t.
        joined (joined (joined (joined (joined (joined (joined (joined (joined (joined (joined (joined (joined
        (Field1.becomes t.0) (Field2.becomes t.1.0)) (Field3.becomes t.1.1.0)) (Field4.becomes t.1.1.1.0))
        (Field5.becomes t.1.1.1.1.0)) (Field6.becomes t.1.1.1.1.1.0)) (Field7.becomes t.1.1.1.1.1.1.0))
        (Field8.becomes t.1.1.1.1.1.1.1.0)) (Field9.becomes t.1.1.1.1.1.1.1.1.0))
        (Field10.becomes t.1.1.1.1.1.1.1.1.1.0)) (Field11.becomes t.1.1.1.1.1.1.1.1.1.1.0))
        (Field12.becomes t.1.1.1.1.1.1.1.1.1.1.1.0)) (Field13.becomes t.1.1.1.1.1.1.1.1.1.1.1.1.0))
        (Field14.becomes t.1.1.1.1.1.1.1.1.1.1.1.1.1.0) };

    ghost refuses = { λ t.
        refused (refused (refused (refused (refused (refused (refused (refused (refused (refused (refused (refused (refused
        (Field1.refuses t.0) (Field2.refuses t.1.0)) (Field3.refuses t.1.1.0)) (Field4.refuses t.1.1.1.0))
        (Field5.refuses t.1.1.1.1.0)) (Field6.refuses t.1.1.1.1.1.0)) (Field7.refuses t.1.1.1.1.1.1.0))
        (Field8.refuses t.1.1.1.1.1.1.1.0)) (Field9.refuses t.1.1.1.1.1.1.1.1.0))
        (Field10.refuses t.1.1.1.1.1.1.1.1.1.0)) (Field11.refuses t.1.1.1.1.1.1.1.1.1.1.0))
        (Field12.refuses t.1.1.1.1.1.1.1.1.1.1.1.0)) (Field13.refuses t.1.1.1.1.1.1.1.1.1.1.1.1.0))
        (Field14.refuses t.1.1.1.1.1.1.1.1.1.1.1.1.1.0) };

    fn pretty(self, place: &'a D) -> Result<DocBuilder<'a, D>, BuildError> {
        let (t1, t2, t3, t4, t5, t6, t7, t8, t9, t10, t11, t12, t13, t14) = self;
        then(
            place,
            (t1, t2, t3, t4, t5, t6, t7, t8, t9, t10, t11, t12, t13).pretty(place),
            t14,
        )
    }
}

impl<
    'a,
    D: DocPlace<'a>,
    Field1: Pretty<'a, D>,
    Field2: Pretty<'a, D>,
    Field3: Pretty<'a, D>,
    Field4: Pretty<'a, D>,
    Field5: Pretty<'a, D>,
    Field6: Pretty<'a, D>,
    Field7: Pretty<'a, D>,
    Field8: Pretty<'a, D>,
    Field9: Pretty<'a, D>,
    Field10: Pretty<'a, D>,
    Field11: Pretty<'a, D>,
    Field12: Pretty<'a, D>,
    Field13: Pretty<'a, D>,
    Field14: Pretty<'a, D>,
    Field15: Pretty<'a, D>,
> Pretty<'a, D>
    for (
        Field1,
        Field2,
        Field3,
        Field4,
        Field5,
        Field6,
        Field7,
        Field8,
        Field9,
        Field10,
        Field11,
        Field12,
        Field13,
        Field14,
        Field15,
    ) {
    ghost becomes = { λ t.
        joined (joined (joined (joined (joined (joined (joined (joined (joined (joined (joined (joined (joined (joined
        (Field1.becomes t.0) (Field2.becomes t.1.0)) (Field3.becomes t.1.1.0)) (Field4.becomes t.1.1.1.0))
        (Field5.becomes t.1.1.1.1.0)) (Field6.becomes t.1.1.1.1.1.0)) (Field7.becomes t.1.1.1.1.1.1.0))
        (Field8.becomes t.1.1.1.1.1.1.1.0)) (Field9.becomes t.1.1.1.1.1.1.1.1.0))
        (Field10.becomes t.1.1.1.1.1.1.1.1.1.0)) (Field11.becomes t.1.1.1.1.1.1.1.1.1.1.0))
        (Field12.becomes t.1.1.1.1.1.1.1.1.1.1.1.0)) (Field13.becomes t.1.1.1.1.1.1.1.1.1.1.1.1.0))
        (Field14.becomes t.1.1.1.1.1.1.1.1.1.1.1.1.1.0)) (Field15.becomes t.1.1.1.1.1.1.1.1.1.1.1.1.1.1.0) };

    ghost refuses = { λ t.
        refused (refused (refused (refused (refused (refused (refused (refused (refused (refused (refused (refused (refused (refused
        (Field1.refuses t.0) (Field2.refuses t.1.0)) (Field3.refuses t.1.1.0)) (Field4.refuses t.1.1.1.0))
        (Field5.refuses t.1.1.1.1.0)) (Field6.refuses t.1.1.1.1.1.0)) (Field7.refuses t.1.1.1.1.1.1.0))
        (Field8.refuses t.1.1.1.1.1.1.1.0)) (Field9.refuses t.1.1.1.1.1.1.1.1.0))
        (Field10.refuses t.1.1.1.1.1.1.1.1.1.0)) (Field11.refuses t.1.1.1.1.1.1.1.1.1.1.0))
        (Field12.refuses t.1.1.1.1.1.1.1.1.1.1.1.0)) (Field13.refuses t.1.1.1.1.1.1.1.1.1.1.1.1.0))
        (Field14.refuses t.1.1.1.1.1.1.1.1.1.1.1.1.1.0)) (Field15.refuses t.1.1.1.1.1.1.1.1.1.1.1.1.1.1.0) };

    fn pretty(self, place: &'a D) -> Result<DocBuilder<'a, D>, BuildError> {
        let (t1, t2, t3, t4, t5, t6, t7, t8, t9, t10, t11, t12, t13, t14, t15) = self;
        then(
            place,
            (t1, t2, t3, t4, t5, t6, t7, t8, t9, t10, t11, t12, t13, t14).pretty(place),
            t15,
        )
    }
}

impl<
    'a,
    D: DocPlace<'a>,
    Field1: Pretty<'a, D>,
    Field2: Pretty<'a, D>,
    Field3: Pretty<'a, D>,
    Field4: Pretty<'a, D>,
    Field5: Pretty<'a, D>,
    Field6: Pretty<'a, D>,
    Field7: Pretty<'a, D>,
    Field8: Pretty<'a, D>,
    Field9: Pretty<'a, D>,
    Field10: Pretty<'a, D>,
    Field11: Pretty<'a, D>,
    Field12: Pretty<'a, D>,
    Field13: Pretty<'a, D>,
    Field14: Pretty<'a, D>,
    Field15: Pretty<'a, D>,
    Field16: Pretty<'a, D>,
> Pretty<'a, D>
    for (
        Field1,
        Field2,
        Field3,
        Field4,
        Field5,
        Field6,
        Field7,
        Field8,
        Field9,
        Field10,
        Field11,
        Field12,
        Field13,
        Field14,
        Field15,
        Field16,
    ) {
    ghost becomes = { λ t.
        joined (joined (joined (joined (joined (joined (joined (joined (joined (joined (joined (joined (joined (joined (joined
        (Field1.becomes t.0) (Field2.becomes t.1.0)) (Field3.becomes t.1.1.0)) (Field4.becomes t.1.1.1.0))
        (Field5.becomes t.1.1.1.1.0)) (Field6.becomes t.1.1.1.1.1.0)) (Field7.becomes t.1.1.1.1.1.1.0))
        (Field8.becomes t.1.1.1.1.1.1.1.0)) (Field9.becomes t.1.1.1.1.1.1.1.1.0))
        (Field10.becomes t.1.1.1.1.1.1.1.1.1.0)) (Field11.becomes t.1.1.1.1.1.1.1.1.1.1.0))
        (Field12.becomes t.1.1.1.1.1.1.1.1.1.1.1.0)) (Field13.becomes t.1.1.1.1.1.1.1.1.1.1.1.1.0))
        (Field14.becomes t.1.1.1.1.1.1.1.1.1.1.1.1.1.0)) (Field15.becomes t.1.1.1.1.1.1.1.1.1.1.1.1.1.1.0))
        (Field16.becomes t.1.1.1.1.1.1.1.1.1.1.1.1.1.1.1.0) };

    ghost refuses = { λ t.
        refused (refused (refused (refused (refused (refused (refused (refused
        (refused (refused (refused (refused (refused (refused (refused
        (Field1.refuses t.0) (Field2.refuses t.1.0)) (Field3.refuses t.1.1.0)) (Field4.refuses t.1.1.1.0))
        (Field5.refuses t.1.1.1.1.0)) (Field6.refuses t.1.1.1.1.1.0)) (Field7.refuses t.1.1.1.1.1.1.0))
        (Field8.refuses t.1.1.1.1.1.1.1.0)) (Field9.refuses t.1.1.1.1.1.1.1.1.0))
        (Field10.refuses t.1.1.1.1.1.1.1.1.1.0)) (Field11.refuses t.1.1.1.1.1.1.1.1.1.1.0))
        (Field12.refuses t.1.1.1.1.1.1.1.1.1.1.1.0)) (Field13.refuses t.1.1.1.1.1.1.1.1.1.1.1.1.0))
        (Field14.refuses t.1.1.1.1.1.1.1.1.1.1.1.1.1.0)) (Field15.refuses t.1.1.1.1.1.1.1.1.1.1.1.1.1.1.0))
        (Field16.refuses t.1.1.1.1.1.1.1.1.1.1.1.1.1.1.1.0) };

    fn pretty(self, place: &'a D) -> Result<DocBuilder<'a, D>, BuildError> {
        let (t1, t2, t3, t4, t5, t6, t7, t8, t9, t10, t11, t12, t13, t14, t15, t16) = self;
        then(
            place,
            (
                t1, t2, t3, t4, t5, t6, t7, t8, t9, t10, t11, t12, t13, t14, t15,
            )
                .pretty(place),
            t16,
        )
    }
}
