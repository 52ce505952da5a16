//! What is measured.
use crate::workload::Shape::{
    BareGroups, CellLines, ChoiceGroups, ChosenGroups, CommentGroups, Fill, Json, KeptTrials,
    Lines, List, PartialGroups, RealJson, RejectedTrials, RightList, SpacedGroups, Sums,
    TailGroups, TextGroups, Tree, UnionGroups, WeakSpaces,
};

/// What the document of a workload is. Its size is a number of atoms, records, groups, words, lines, trials or objects.
#[derive(Clone, Copy)]
pub enum Shape {
    /// Lists of ten, in lists of ten, and so on. The atoms are the greatest power of ten up to the size.
    Tree,
    /// One list.
    List,
    /// Records of several fields.
    Json,
    /// Groups in groups, with a text in each.
    TextGroups,
    /// Groups in groups, with nothing else in each, around what does not fit a line.
    BareGroups,
    /// Words, with breaks only where a line has no room.
    Fill,
    /// Lines of 60 bytes with an indent.
    Lines,
    /// Alternatives in alternatives, of which each first one is kept.
    KeptTrials,
    /// Alternatives in alternatives, of which each first one is rejected.
    RejectedTrials,
    /// Groups in groups, each with a text after it.
    TailGroups,
    /// A list that leans to the right.
    RightList,
    /// Lines with a weak space and a comment at the end of each.
    WeakSpaces,
    /// Objects in objects, as files of JSON have them.
    RealJson,
    /// A sum of many operands, with a group for each operator.
    Sums,
    /// Groups in groups, with a weak space in each.
    SpacedGroups,
    /// Groups in groups, with a comment in each, put off to the end of its line.
    CommentGroups,
    /// Groups in groups, each the first of two alternatives.
    UnionGroups,
    /// The same of alternatives of which only the first lines have to fit.
    PartialGroups,
    /// Lines of thirty short groups each.
    CellLines,
    /// Groups in groups, with a text in each, around one choice by the column.
    ChoiceGroups,
    /// Groups in groups, with a choice by the column in each.
    ChosenGroups,
}

/// Documents of one shape, and how they are laid out.
#[derive(Clone, Copy)]
pub struct Workload {
    /// The word that names it.
    pub name: &'static str,
    /// What its documents are.
    pub shape: Shape,
    /// The width that they are laid out within, in columns.
    pub width: usize,
    /// The size at which the layout is compared.
    pub small_size: usize,
    /// The sizes at which it is timed.
    pub full_sizes: &'static [usize],
}

// Sizes of what grows as its size does, and of what is nested.
const LONG: &[usize] = &[1_000_000];

const DEEP: &[usize] = &[1_000, 10_000, 100_000];

/// All workloads, as they are printed.
#[rattlefmt::skip]
pub const WORKLOADS: &[Workload] = &[
    Workload { name: "tree", shape: Tree, width: 80, small_size: 1000, full_sizes: &[100_000, 1_000_000] },
    Workload { name: "list", shape: List, width: 80, small_size: 1000, full_sizes: LONG },
    Workload { name: "flat", shape: List, width: usize::MAX, small_size: 1000, full_sizes: LONG },
    Workload { name: "json", shape: Json, width: 80, small_size: 50, full_sizes: &[80_000] },
    Workload { name: "texts", shape: TextGroups, width: 80, small_size: 1000, full_sizes: DEEP },
    Workload { name: "bare", shape: BareGroups, width: 80, small_size: 100, full_sizes: DEEP },
    Workload { name: "fill", shape: Fill, width: 80, small_size: 1000, full_sizes: LONG },
    Workload { name: "lines", shape: Lines, width: 80, small_size: 50, full_sizes: LONG },
    Workload { name: "kept", shape: KeptTrials, width: 80, small_size: 100, full_sizes: DEEP },
    Workload { name: "lost", shape: RejectedTrials, width: 4, small_size: 100, full_sizes: DEEP },
    Workload { name: "tails", shape: TailGroups, width: 80, small_size: 100, full_sizes: DEEP },
    Workload { name: "right", shape: RightList, width: 80, small_size: 1000, full_sizes: LONG },
    Workload { name: "weak", shape: WeakSpaces, width: 80, small_size: 1000, full_sizes: LONG },
    Workload { name: "real", shape: RealJson, width: 80, small_size: 1, full_sizes: &[200] },
    Workload { name: "sums", shape: Sums, width: 80, small_size: 1000, full_sizes: DEEP },
    Workload { name: "spaces", shape: SpacedGroups, width: 80, small_size: 1000, full_sizes: DEEP },
    Workload { name: "remarks", shape: CommentGroups, width: 80, small_size: 1000, full_sizes: DEEP },
    Workload { name: "unions", shape: UnionGroups, width: 80, small_size: 1000, full_sizes: DEEP },
    Workload { name: "partial", shape: PartialGroups, width: 80, small_size: 1000, full_sizes: DEEP },
    Workload { name: "records", shape: CellLines, width: 80, small_size: 50, full_sizes: &[30_000] },
    Workload { name: "choices", shape: ChoiceGroups, width: 80, small_size: 100, full_sizes: &[1_000, 3_000, 18_000] },
    Workload { name: "chosen", shape: ChosenGroups, width: 80, small_size: 100, full_sizes: &[300, 1_000, 3_000] },
];

/// The workload of that name.
pub(crate) fn workload_named(word: &str) -> Option<Workload> {
    WORKLOADS.iter().copied().find(|it| it.name == word)
}
