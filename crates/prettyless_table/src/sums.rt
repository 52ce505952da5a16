//! The summaries of a node, made of those of its parts, and how a cell keeps them.
//! This file knows the parts of nodes, and no table.
ghost use Rattle.std.specs.Prelude.{◌≡◌, ◌↔◌, ◌<◌, ◌^◌, [], false, true, IsTrue};
ghost use Rattle.prettyless_model.specs.Tree.{One, Tree, Two};
ghost use Rattle.prettyless_model.specs.Look.{Answers};
ghost use Rattle.prettyless_model.specs.declared.mode.Mode.{Mode};
ghost use Rattle.prettyless_model.specs.declared.mode.Mode.TheVariants.{Break, Flat};
ghost use Rattle.prettyless_summary.specs.Summary.{IsSmall, ReadsLook, Summarizes};
ghost use Rattle.prettyless_table.specs.Parts.{parts_of, small, tiny};
ghost use Rattle.prettyless_summary.specs.Known.{IsKnown};
ghost use Rattle.prettyless_table.specs.Sums.{AreDocumentSums, IsNarrow, Keeps};

use crate::below::is_tiny;
use prettyless_model::kind::{Pair, Single};
use prettyless_model::mode::Mode;
use prettyless_probe::walk::{View, Walk};
use prettyless_summary::known::{Known, appended};
use prettyless_summary::summary::Summary;

/// What is known of a node: of its reading where lines are flat, and where they are broken.
#[derive(Clone, Copy)]
pub struct Sums {
    pub flat: Known,
    pub broken: Known,
}

/// The numbers of a summary, in columns, as `Summary` has them, where they fit 32 bits.
#[derive(Clone, Copy)]
pub struct Counts {
    /// From the first ink to the last, with the weak spaces between.
    pub inner: u32,
    /// Weak spaces before the weak line that comes first; where there is none, before the first ink, or all.
    pub lead: u32,
    /// Weak spaces after the last ink.
    pub trail: u32,
}

/// What is added to the marks of a summary of what a document begins with.
const BEGINS: u8 = 64;

/// Whether the numbers of what is known fit 32 bits.
#[inline(always)]
pub fn is_narrow(known: Known) -> bool
    ensures { IsTrue result ↔ IsNarrow known }
{
    match known {
        Known::Whole(sum) | Known::Begins(sum) => sum.inner <= u32::MAX as usize,
    }
}

// The numbers of a summary.
#[inline(always)]
fn counts_of(sum: Summary) -> Counts
    requires { sum.inner < 2 ^ 32 }
    ensures lead { result.lead ≡ sum.lead }
    ensures inner { result.inner ≡ sum.inner }
    ensures trail { result.trail ≡ sum.trail }
{
    Counts {
        inner: sum.inner as u32,
        lead: sum.lead,
        trail: sum.trail,
    }
}

/// The marks and the numbers of what is known.
#[inline(always)]
pub fn packed(known: Known) -> (u8, Counts)
    requires { IsNarrow known }
    ensures { (d : Tree) (m : Mode) → IsKnown known d m → Keeps result.0 result.1 d m }
{
    match known {
        Known::Whole(sum) => (sum.marks(), counts_of(sum)),
        Known::Begins(sum) => (sum.marks() + BEGINS, counts_of(sum)),
    }
}

// What is known by these marks and numbers.
#[inline(always)]
fn unpacked(marks: u8, counts: Counts) -> Known
    ensures { (d : Tree) (m : Mode) → Keeps marks counts d m → IsKnown result d m }
{
    if marks < BEGINS {
        return Known::Whole(Summary::unpacked(
            counts.lead,
            counts.inner as usize,
            counts.trail,
            marks,
        ));
    }
    Known::Begins(Summary::unpacked(
        counts.lead,
        counts.inner as usize,
        counts.trail,
        marks - BEGINS,
    ))
}

/// What is known of a mode, of what a cell keeps.
#[inline(always)]
pub fn kept(mode: Mode, flat_marks: u8, flat: Counts, broken_marks: u8, broken: Counts) -> Known
    ensures { (d : Tree) → Keeps flat_marks flat d Flat → Keeps broken_marks broken d Break → IsKnown result d mode }
{
    match mode {
        Mode::Flat => unpacked(flat_marks, flat),
        Mode::Break => unpacked(broken_marks, broken),
    }
}

// What no flat line holds: this where lines are broken.
#[inline(always)]
fn unless_flat(mode: Mode, broken: Summary) -> Summary
    requires { IsSmall 1 broken }
    ensures broken { mode ≡ Break → result ≡ broken }
    ensures flat { mode ≡ Flat → ReadsLook result (λ width c p. Answers false) }
    ensures small { IsSmall 1 result }
{
    match mode {
        Mode::Break => broken,
        Mode::Flat => Summary::no(),
    }
}

/// The summary of a leaf.
#[inline(always)]
pub fn leaf_summary<N: Walk>(node: &N, mode: Mode) -> Summary
    requires { [] ≡ parts_of (N.tree node.now) }
    ensures sum { Summarizes result (N.tree node.now) mode }
    ensures small { IsSmall 1 result }
{
    match node.view() {
        View::Fail => Summary::no(),
        View::Text(text) => Summary::text(text.len(), text),
        View::TextWithLen(counted, text) => Summary::text(counted, text),
        View::MultilineText(_, metrics) => unless_flat(mode, Summary::payload(metrics)),
        View::WeakSpace => Summary::blank(),
        View::HardLine => unless_flat(mode, Summary::hard()),
        View::WeakLine => Summary::weak(mode),
        View::ExpandParent => unless_flat(mode, Summary::nothing()),
        _ => Summary::nothing(),
    }
}

/// The summaries of a leaf.
#[inline(always)]
pub fn leaf_sums<N: Walk>(node: &N) -> Sums
    requires { [] ≡ parts_of (N.tree node.now) }
    ensures { AreDocumentSums result (N.tree node.now) }
{
    Sums {
        flat: Known::Whole(leaf_summary(node, Mode::Flat)),
        broken: Known::Whole(leaf_summary(node, Mode::Break)),
    }
}

/// What is known of a node in a mode.
#[inline(always)]
pub fn in_mode(sums: Sums, mode: Mode) -> Known
    ensures { (d : Tree) → AreDocumentSums sums d → IsKnown result d mode }
{
    match mode {
        Mode::Flat => sums.flat,
        Mode::Break => sums.broken,
    }
}

/// The summaries of a node with one part.
#[inline(always)]
pub fn of_single(kind: Single, inner: Sums) -> Sums
    ensures { (d : Tree) → AreDocumentSums inner d → AreDocumentSums result (One kind d) }
{
    match kind {
        Single::LineSuffix => {
            let suffix = Known::Whole(Summary::suffix());
            Sums {
                flat: suffix,
                broken: suffix,
            }
        }
        Single::Flatten => Sums {
            flat: inner.flat,
            broken: inner.flat,
        },
        Single::Indented(_) | Single::Group => inner,
    }
}

/// The summaries of a node with two parts.
#[inline(always)]
pub fn of_pair(kind: Pair, first: Sums, second: Sums) -> Sums
    ensures { (d e : Tree) → AreDocumentSums first d → AreDocumentSums second e → AreDocumentSums result (Two kind d e) }
{
    match kind {
        Pair::Append => Sums {
            flat: appended(first.flat, second.flat),
            broken: appended(first.broken, second.broken),
        },
        Pair::BreakOrFlat => Sums {
            flat: second.flat,
            broken: first.broken,
        },
        Pair::Union | Pair::PartialUnion => Sums {
            flat: first.flat,
            broken: second.broken,
        },
        Pair::Chosen(_) => {
            let begins = Known::Begins(Summary::nothing());
            Sums {
                flat: begins,
                broken: begins,
            }
        }
    }
}

// The summaries of a tiny document.
#[inline(always)]
fn tiny_sums<N: Walk>(node: &N) -> Sums
    requires { tiny (N.tree node.now) ≡ true }
    ensures { AreDocumentSums result (N.tree node.now) }
{
    match node.view() {
        View::One(kind, inner) => of_single(kind, leaf_sums(&inner)),
        View::Two(kind, first, second) => of_pair(kind, leaf_sums(&first), leaf_sums(&second)),
        _ => leaf_sums(node),
    }
}

// The summaries of a line, as tiny documents are that follow a leaf: no more is read of it than shows in either mode.
#[inline(always)]
fn line_sums<N: Walk>(node: &N) -> Sums
    requires { tiny (N.tree node.now) ≡ true }
    ensures { AreDocumentSums result (N.tree node.now) }
{
    match node.view() {
        View::Two(Pair::BreakOrFlat, broken, flat) => Sums {
            flat: Known::Whole(leaf_summary(&flat, Mode::Flat)),
            broken: Known::Whole(leaf_summary(&broken, Mode::Break)),
        },
        _ => tiny_sums(node),
    }
}

// The summaries of a small document. Apart from those of tiny ones it is called, so that these are read where they are asked for.
#[inline(never)]
fn before_line_sums<N: Walk>(node: &N) -> Sums
    requires { small (N.tree node.now) ≡ true }
    ensures { AreDocumentSums result (N.tree node.now) }
{
    match node.view() {
        View::Two(kind, first, second) => of_pair(kind, leaf_sums(&first), line_sums(&second)),
        _ => tiny_sums(node),
    }
}

/// The summaries of a small document.
#[inline(always)]
pub fn small_sums<N: Walk>(node: &N) -> Sums
    requires { small (N.tree node.now) ≡ true }
    ensures { AreDocumentSums result (N.tree node.now) }
{
    if is_tiny(node) {
        return tiny_sums(node);
    }
    before_line_sums(node)
}
