//! The document of each shape.

use crate::groups::{bare_groups, choice_groups, chosen_groups, tail_groups, text_groups};
use crate::json::array;
use crate::levels::{
    cell_lines, comment_groups, partial_groups, spaced_groups, sums, union_groups,
};
use crate::lists::{list, right_list, tree};
use crate::objects::real;
use crate::parts::Built;
use crate::trials::{kept_trials, rejected_trials};
use crate::words::{fill, lines, weak_spaces};
use crate::workload::Shape;
use prettyless::DocPlace;

/// The document of a shape at a size, with all its nodes in this place.
pub(crate) fn document<'a, D: DocPlace<'a>>(
    place: &'a D,
    shape: Shape,
    size: usize,
) -> Built<'a, D> {
    match shape {
        Shape::Tree => tree(place, size),
        Shape::List => list(place, size),
        Shape::Json => array(place, size),
        Shape::TextGroups => text_groups(place, size),
        Shape::BareGroups => bare_groups(place, size),
        Shape::Fill => fill(place, size),
        Shape::Lines => lines(place, size),
        Shape::KeptTrials => kept_trials(place, size),
        Shape::RejectedTrials => rejected_trials(place, size),
        Shape::TailGroups => tail_groups(place, size),
        Shape::RightList => right_list(place, size),
        Shape::WeakSpaces => weak_spaces(place, size),
        Shape::RealJson => real(place, size),
        Shape::Sums => sums(place, size),
        Shape::SpacedGroups => spaced_groups(place, size),
        Shape::CommentGroups => comment_groups(place, size),
        Shape::UnionGroups => union_groups(place, size),
        Shape::PartialGroups => partial_groups(place, size),
        Shape::CellLines => cell_lines(place, size),
        Shape::ChoiceGroups => choice_groups(place, size),
        Shape::ChosenGroups => chosen_groups(place, size),
    }
}
