//! Each call of a builder once, with ample memory.
use crate::expected::{built, check};
use prettyless::prelude::*;
use prettyless::{BuildDoc, Doc, DocBuilder};
use std::process::Abort;
use test_expectations::{rows, shows};

fn of<'a, D: DocPlace<'a>>(place: &'a D, node: Doc<'a, D::Doc>) -> DocBuilder<'a, D> {
    DocBuilder::new(place, node)
}

fn line<'a, D: DocPlace<'a>>(place: &'a D) -> DocBuilder<'a, D> {
    of(place, Doc::WeakLine)
}

pub(crate) fn operands<'a, D: DocPlace<'a>, P: Pretty<'a, D> + Copy>(
    rt: &impl Abort,
    place: &'a D,
    (a, b): (P, P),
) {
    rows! { shows, rt, place;
        line(place).append(a) => "[WeakLine, \"a\"]";
        line(place) + a => "[WeakLine, \"a\"]";
        line(place).flat_alt(a) => "FlatOrBreak(\"a\", WeakLine)";
        line(place).enclose(a, b) => "[\"a\", WeakLine, \"b\"]";
    }
}

pub(crate) fn wrappers<'a, D: DocPlace<'a>>(rt: &impl Abort, place: &'a D) {
    rows! { shows, rt, place;
        line(place).nest(-2) => "Nest(-2, WeakLine)";
        line(place).indent(2) => "Nest(2, WeakLine)";
        line(place).dedent(2) => "Nest(-2, WeakLine)";
        line(place).align() => "Align(WeakLine)";
        line(place).dedent_to_root() => "DedentToRoot(WeakLine)";
        line(place).group() => "Group(WeakLine)";
        line(place).flatten() => "Flatten(WeakLine)";
        line(place).as_line_suffix() => "LineSuffix(WeakLine)";
        line(place).when_group_flat() => "WhenFlat(WeakLine)";
        line(place).when_group_break() => "WhenBreak(WeakLine)";
        of(place, Doc::HardLine).flatten() => "Fail";
        of(place, Doc::space()).group() => "\" \"";
        of(place, Doc::Nil).as_line_suffix() => "Nil";
    }
}

pub(crate) fn joins<'a, D: DocPlace<'a>>(rt: &impl Abort, place: &'a D) {
    let nested = built(rt, line(place).nest(2));
    rows! { shows, rt, place;
        nested.clone() => "Nest(2, WeakLine)";
        line(place).join(nested) => "[WeakLine, Nest(2, WeakLine)]";
        line(place).repeat(3) => "[WeakLine, WeakLine, WeakLine]";
        line(place).union(BuildDoc::Doc(Doc::Fail)) => "Union(WeakLine, Fail)";
        line(place).partial_union(BuildDoc::Doc(Doc::Fail)) => "PartialUnion(WeakLine, Fail)";
        line(place).single_quotes() => "[\"'\", WeakLine, \"'\"]";
        line(place).double_quotes() => "[\"\\\"\", WeakLine, \"\\\"\"]";
        line(place).parens() => "[\"(\", WeakLine, \")\"]";
        line(place).angles() => "[\"<\", WeakLine, \">\"]";
        line(place).braces() => "[\"{\", WeakLine, \"}\"]";
        line(place).brackets() => "[\"[\", WeakLine, \"]\"]";
    }
}
