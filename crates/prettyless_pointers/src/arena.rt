//! Documents in an arena, whose nodes are given up all at once.
ghost use Rattle.std.specs.Prelude.{◌≡◌, false, IfOk, IfErr, IfSome, Ok};
ghost use Rattle.std.proofs.Props.{props};
ghost use Rattle.prettyless_doc.specs.BuildErrors.{IsMemory};
ghost use Rattle.prettyless_doc.specs.declared.doc.BuildDoc.TheVariants.{DocPtr as Placed};
ghost use Rattle.prettyless_doc.specs.DocTree.{tree_of, built, holds_memory};
ghost use Rattle.prettyless_doc.specs.Payload as source;
ghost use Rattle.prettyless_doc.specs.Payload.{payload_bytes};
ghost use Rattle.prettyless_doc.specs.TextBytes.{bytes_of_text, is_owned};
ghost use Rattle.prettyless_model.specs.Tree.{Tree, Append, BreakOrFlat, Group, LineSuffix, Nest, Text as TextTree, Union};
ghost use Rattle.prettyless_build.specs.Builds.{IfPlaced};
ghost use Rattle.prettyless_pointers.specs.Constants.{IsTable, constant_tree};
ghost use Rattle.prettyless_pointers.specs.declared.arena.RefDoc.{out-RefDoc};
ghost use Rattle.prettyless_pointers.specs.Trees.{ref_tree};

use crate::constants::{Constant, constant_of, find, is_line, is_line_, table};
use bumpalo::Bump;
use prettyless_build::{DocBuilder, Pretty};
use prettyless_doc::text::MultilineTextData;
use prettyless_doc::{BuildDoc, BuildError, Doc, DocPlace, DocPtr, Text};
use std::alloc::{AllocError, Global};
use std::cell::Cell;
use std::fmt;

// The size of a node in bytes.
const NODE_SIZE: usize = 40;

/// A pointer to a node in an arena.
#[derive(Clone, Copy)]
pub struct RefDoc<'a>(pub &'a Doc<'a, RefDoc<'a>>);

impl<'a> DocPtr<'a> for RefDoc<'a> {
    ghost tree = { ref_tree };

    #[inline(always)]
    fn doc(&self) -> &Doc<'a, RefDoc<'a>> {
        self.0
    }
}

/// Shows the document.
impl<'a> fmt::Debug for RefDoc<'a> {
    fn fmt<W: fmt::Write>(&self, f: &mut fmt::Formatter<W>) -> fmt::Result {
        self.doc().fmt(f)
    }
}

/// Itself, as a node that is allocated.
impl<'a> From<RefDoc<'a>> for BuildDoc<'a, RefDoc<'a>> {
    ghost from_gives = { λ p b. b ≡ Placed p };

    fn from(pointer: RefDoc<'a>) -> BuildDoc<'a, RefDoc<'a>> {
        BuildDoc::DocPtr(pointer)
    }
}

/// Itself. It takes no memory.
impl<'a> Pretty<'a, Arena<'a>> for RefDoc<'a> {
    ghost becomes = { λ d y. y ≡ ref_tree d };

    ghost refuses = { λ _ _. ⊥ };

    #[inline(always)]
    fn pretty(self, place: &'a Arena<'a>) -> Result<DocBuilder<'a, Arena<'a>>, BuildError> {
        Ok(DocBuilder::from_doc(place, self))
    }
}

/// The call `into_ref` of a builder over an arena. It is a call of a trait, since `DocBuilder` is of another crate.
pub trait IntoRef<'a> {
    // the tree of the document that it is
    ghost tree: { Self → Tree };

    /// A pointer to the document, or an error if memory runs out.
    ///
    /// ```
    /// arena.pretty("a")?.into_ref()? // a pointer to "a"
    /// ```
    fn into_ref(self) -> Result<RefDoc<'a>, BuildError>
        ensures ok { IfOk result (λ p. ref_tree p ≡ tree self) }
        ensures err { IfErr result IsMemory };
}

impl<'a> IntoRef<'a> for DocBuilder<'a, Arena<'a>> {
    ghost tree = { λ b. built ref_tree b.1 };

    /// A pointer to the document, whose node is allocated if that is not done yet. Only that takes memory, and fails if
    /// memory runs out.
    fn into_ref(self) -> Result<RefDoc<'a>, BuildError>
        ensures ok { IfOk result (λ p. ref_tree p ≡ built ref_tree self.entry.1) }
        ensures placed { IfPlaced self.entry.1 (λ p. result ≡ Ok p) }
        ensures err { IfErr result IsMemory }
    {
        self.into_doc()
    }
}

/// An allocator that puts nodes into the caller's `Bump`, and the frequent nodes that hold others into one of its own.
/// Each of the two frees its nodes all at once. Dropping an arena walks no document.
#[derive(Drop)]
pub struct Arena<'a> {
    memory: Global,
    bump: &'a Bump,
    // The frequent nodes that hold others are apart from texts: so a walk from one to the next finds them close together.
    inner: Bump,
    placed: Cell<usize>,
    // Pointers to its constants; none where memory was refused for them. One slice has them all: each field with a lifetime
    // lengthens a proof.
    constants: &'a [RefDoc<'a>],
    ghost table: { IsTable constants.now } by { Prim.hlevel props },
}

impl<'a> Arena<'a> {
    /// An arena whose nodes, and the owned texts in them, will be in `bump`, but appends, nests, groups and unions in
    /// chunks from `alloc`. A text is first made in memory from `alloc`.
    ///
    /// It does not fail. Where memory for its constants is refused, each is placed anew when it is asked for, and `len`
    /// then counts it.
    ///
    /// ```
    /// Arena::new(alloc, &bump) // a place of nodes, in `bump`
    /// ```
    pub fn new(alloc: Global, bump: &'a Bump) -> Self {
        Arena {
            memory: alloc,
            bump,
            inner: Bump::new(alloc),
            placed: Cell::new(0),
            constants: table(bump).unwrap_or(&[]),
        }
    }

    /// How many nodes this arena has allocated.
    pub fn len(&self) -> usize {
        self.placed.get()
    }

    /// Whether this arena has allocated no node.
    pub fn is_empty(&self) -> bool {
        self.len() == 0
    }
}

// An owned text is copied, since nothing in the arena is ever dropped.
fn settle_text<'a>(bump: &'a Bump, text: Text<'a>) -> Result<Text<'a>, BuildError>
    ensures same { IfOk result (λ t. bytes_of_text t ≡ bytes_of_text text.entry) }
    ensures settled { IfOk result (λ t. is_owned t ≡ false) }
    ensures err { IfErr result IsMemory }
{
    match text {
        Text::Owned(s) => Ok(Text::Borrowed(bump.try_alloc_str(s.as_str())?)),
        Text::Borrowed(s) => Ok(Text::Borrowed(s)),
        Text::Small(s) => Ok(Text::Small(s)),
    }
}

// So is the source of a payload, and keeps its metrics.
fn settle_payload<'a>(
    bump: &'a Bump,
    payload: MultilineTextData<'a>,
) -> Result<MultilineTextData<'a>, BuildError>
    ensures same { IfOk result (λ p. payload_bytes p ≡ payload_bytes payload.entry) }
    ensures settled { IfOk result (λ p. source.is_owned_payload p ≡ false) }
    ensures err { IfErr result IsMemory }
{
    if !payload.is_owned() {
        return Ok(payload);
    }
    let source = bump.try_alloc_str(payload.as_str())?;
    Ok(payload.over(source))
}

// A node that holds a box gives up the box for a copy in the arena.
#[cold]
fn settle<'a>(bump: &'a Bump, doc: Doc<'a, RefDoc<'a>>) -> Result<Doc<'a, RefDoc<'a>>, BuildError>
    ensures same { IfOk result (λ d. tree_of ref_tree d ≡ tree_of ref_tree doc.entry) }
    ensures settled { IfOk result (λ d. holds_memory d ≡ false) }
    ensures err { IfErr result IsMemory }
{
    Ok(match doc {
        Doc::Text(text) => Doc::Text(settle_text(bump, text)?),
        Doc::TextWithLen(width, text) => Doc::TextWithLen(width, settle_text(bump, text)?),
        Doc::MultilineText(payload) => Doc::MultilineText(settle_payload(bump, payload)?),
        other => other,
    })
}

// Whether a node holds a box.
#[inline(always)]
fn holds_box<'a>(doc: &Doc<'a, RefDoc<'a>>) -> bool
    ensures { result ≡ holds_memory doc.now }
{
    match doc {
        Doc::Text(text) | Doc::TextWithLen(_, text) => matches!(text, Text::Owned(_)),
        Doc::MultilineText(payload) => payload.is_owned(),
        _ => false,
    }
}

impl<'a> Arena<'a> {
    // The pointer to a constant, if the arena has them.
    #[inline(always)]
    fn find(&self, which: Constant) -> Option<RefDoc<'a>>
        ensures same { IfSome result (λ p. ref_tree p ≡ constant_tree which) }
        ensures settled { IfSome result (λ p. holds_memory (out-RefDoc p).0.now ≡ false) }
    {
        find(self.constants, which)
    }

    // The constant that this node is, if it is one and the arena has them.
    #[inline(always)]
    fn find_same(&self, doc: &Doc<'a, RefDoc<'a>>) -> Option<RefDoc<'a>>
        ensures same { IfSome result (λ p. ref_tree p ≡ tree_of ref_tree doc.now) }
        ensures settled { IfSome result (λ p. holds_memory (out-RefDoc p).0.now ≡ false) }
    {
        self.find(constant_of(doc)?)
    }

    // Puts a node without a box into a bump.
    #[inline(always)]
    fn put(&self, bump: &'a Bump, doc: Doc<'a, RefDoc<'a>>) -> Result<RefDoc<'a>, BuildError>
        requires { holds_memory doc ≡ false }
        ensures ok { IfOk result (λ p. ref_tree p ≡ tree_of ref_tree doc.entry) }
        ensures settled { IfOk result (λ p. holds_memory (out-RefDoc p).0.now ≡ false) }
        ensures err { IfErr result IsMemory }
    {
        let node: &'a Doc<'a, RefDoc<'a>> = bump.try_alloc(doc)?;
        self.placed.set(self.placed.get().saturating_add(1));
        Ok(RefDoc(node))
    }

    // The same, where the chunk may have no room for the node.
    #[cold]
    fn put_anew(&self, bump: &'a Bump, doc: Doc<'a, RefDoc<'a>>) -> Option<RefDoc<'a>>
        requires { holds_memory doc ≡ false }
        ensures same { IfSome result (λ p. ref_tree p ≡ tree_of ref_tree doc.entry) }
        ensures settled { IfSome result (λ p. holds_memory (out-RefDoc p).0.now ≡ false) }
    {
        self.put(bump, doc).ok()
    }

    // The same. Where the chunk is known to have room, `put` needs no way to another one, and is a few instructions.
    #[inline(always)]
    fn put_fast(&self, bump: &'a Bump, doc: Doc<'a, RefDoc<'a>>) -> Option<RefDoc<'a>>
        requires { holds_memory doc ≡ false }
        ensures same { IfSome result (λ p. ref_tree p ≡ tree_of ref_tree doc.entry) }
        ensures settled { IfSome result (λ p. holds_memory (out-RefDoc p).0.now ≡ false) }
    {
        if bump.chunk_capacity() < NODE_SIZE {
            return self.put_anew(bump, doc);
        }
        self.put(bump, doc).ok()
    }

    // Two documents, one after the other.
    #[inline(never)]
    fn put_append(&'a self, first: RefDoc<'a>, second: RefDoc<'a>) -> Option<RefDoc<'a>>
        ensures same { IfSome result (λ p. ref_tree p ≡ Append (ref_tree first.entry) (ref_tree second.entry)) }
        ensures settled { IfSome result (λ p. holds_memory (out-RefDoc p).0.now ≡ false) }
    {
        self.put_fast(&self.inner, Doc::Append(first, second))
    }

    // A text that is lent.
    #[inline(never)]
    fn put_text(&self, text: &'a str) -> Option<RefDoc<'a>>
        ensures same { IfSome result (λ p. ref_tree p ≡ TextTree text.now) }
        ensures settled { IfSome result (λ p. holds_memory (out-RefDoc p).0.now ≡ false) }
    {
        self.put_fast(self.bump, Doc::Text(Text::Borrowed(text)))
    }

    // A document with another indent.
    #[inline(never)]
    fn put_nest(&'a self, offset: isize, inner: RefDoc<'a>) -> Option<RefDoc<'a>>
        ensures same { IfSome result (λ p. ref_tree p ≡ Nest offset (ref_tree inner.entry)) }
        ensures settled { IfSome result (λ p. holds_memory (out-RefDoc p).0.now ≡ false) }
    {
        self.put_fast(&self.inner, Doc::Nest(offset, inner))
    }

    // A document in a group.
    #[inline(never)]
    fn put_group(&'a self, inner: RefDoc<'a>) -> Option<RefDoc<'a>>
        ensures same { IfSome result (λ p. ref_tree p ≡ Group (ref_tree inner.entry)) }
        ensures settled { IfSome result (λ p. holds_memory (out-RefDoc p).0.now ≡ false) }
    {
        self.put_fast(&self.inner, Doc::Group(inner))
    }

    // A document, and another one to be laid where it does not fit.
    #[inline(never)]
    fn put_union(&'a self, first: RefDoc<'a>, second: RefDoc<'a>) -> Option<RefDoc<'a>>
        ensures same { IfSome result (λ p. ref_tree p ≡ Union (ref_tree first.entry) (ref_tree second.entry)) }
        ensures settled { IfSome result (λ p. holds_memory (out-RefDoc p).0.now ≡ false) }
    {
        self.put_fast(&self.inner, Doc::Union(first, second))
    }

    // A document that stays pending until its line ends. It is apart from appends: a walk goes past it to the next of them.
    #[inline(never)]
    fn put_line_suffix(&self, inner: RefDoc<'a>) -> Option<RefDoc<'a>>
        ensures same { IfSome result (λ p. ref_tree p ≡ LineSuffix (ref_tree inner.entry)) }
        ensures settled { IfSome result (λ p. holds_memory (out-RefDoc p).0.now ≡ false) }
    {
        self.put_fast(self.bump, Doc::LineSuffix(inner))
    }

    // Any node: the pointer to a constant, or that of a new node, with a copy of its text where it holds a box.
    #[inline(never)]
    fn put_other(&self, doc: Doc<'a, RefDoc<'a>>) -> Option<RefDoc<'a>>
        ensures same { IfSome result (λ p. ref_tree p ≡ tree_of ref_tree doc.entry) }
        ensures settled { IfSome result (λ p. holds_memory (out-RefDoc p).0.now ≡ false) }
    {
        if let Some(constant) = self.find_same(&doc) {
            return Some(constant);
        }
        if holds_box(&doc) {
            let doc = settle(self.bump, doc).ok()?;
            return self.put_fast(self.bump, doc);
        }
        self.put_fast(self.bump, doc)
    }

    // The pointer to a constant, which takes no call; or that of a new node where the arena has none.
    #[inline(always)]
    fn put_constant(&self, which: Constant, doc: Doc<'a, RefDoc<'a>>) -> Option<RefDoc<'a>>
        requires { constant_tree which ≡ tree_of ref_tree doc }
        ensures same { IfSome result (λ p. ref_tree p ≡ tree_of ref_tree doc.entry) }
        ensures settled { IfSome result (λ p. holds_memory (out-RefDoc p).0.now ≡ false) }
    {
        match self.find(which) {
            Some(constant) => Some(constant),
            None => self.put_other(doc),
        }
    }

    // A document to be laid broken, and one to be laid flat: the pointer to a constant where they are a line's.
    #[inline(always)]
    fn put_break_or_flat(&self, broken: RefDoc<'a>, flat: RefDoc<'a>) -> Option<RefDoc<'a>>
        ensures same { IfSome result (λ p. ref_tree p ≡ BreakOrFlat (ref_tree broken.entry) (ref_tree flat.entry)) }
        ensures settled { IfSome result (λ p. holds_memory (out-RefDoc p).0.now ≡ false) }
    {
        let doc = Doc::BreakOrFlat(broken, flat);
        if is_line(broken, flat) {
            return self.put_constant(Constant::LineOrSpace, doc);
        }
        if is_line_(broken, flat) {
            return self.put_constant(Constant::LineOrNil, doc);
        }
        self.put_other(doc)
    }

    // A document in a group: the pointer to a constant where it is a line.
    #[inline(always)]
    fn put_grouped(&'a self, inner: RefDoc<'a>) -> Option<RefDoc<'a>>
        ensures same { IfSome result (λ p. ref_tree p ≡ Group (ref_tree inner.entry)) }
        ensures settled { IfSome result (λ p. holds_memory (out-RefDoc p).0.now ≡ false) }
    {
        if let Doc::BreakOrFlat(broken, flat) = inner.doc() {
            if is_line(*broken, *flat) {
                return self.put_constant(Constant::SoftLineOrSpace, Doc::Group(inner));
            }
            if is_line_(*broken, *flat) {
                return self.put_constant(Constant::SoftLineOrNil, Doc::Group(inner));
            }
        }
        self.put_group(inner)
    }

    // Any node, as its variant is placed.
    #[inline(always)]
    fn put_any(&'a self, doc: Doc<'a, RefDoc<'a>>) -> Option<RefDoc<'a>>
        ensures same { IfSome result (λ p. ref_tree p ≡ tree_of ref_tree doc.entry) }
        ensures settled { IfSome result (λ p. holds_memory (out-RefDoc p).0.now ≡ false) }
    {
        match doc {
            Doc::Append(first, second) => self.put_append(first, second),
            Doc::Text(Text::Borrowed(text)) => match text.as_bytes() {
                [b' '] => self.put_constant(Constant::Space, Doc::Text(Text::Borrowed(text))),
                _ => self.put_text(text),
            },
            Doc::Nest(offset, inner) => self.put_nest(offset, inner),
            Doc::Group(inner) => self.put_grouped(inner),
            Doc::Union(first, second) => self.put_union(first, second),
            Doc::LineSuffix(inner) => self.put_line_suffix(inner),
            Doc::Nil => self.put_constant(Constant::Nil, Doc::Nil),
            Doc::HardLine => self.put_constant(Constant::HardLine, Doc::HardLine),
            Doc::WeakSpace => self.put_constant(Constant::WeakSpace, Doc::WeakSpace),
            Doc::BreakOrFlat(broken, flat) => self.put_break_or_flat(broken, flat),
            other => self.put_other(other),
        }
    }
}

impl<'a> DocPlace<'a> for Arena<'a> {
    type Doc = RefDoc<'a>;

    /// Puts a node into the arena, with a copy of its text where it has memory of its own, so that no node in the arena
    /// holds a box.
    #[inline(always)]
    fn alloc(&'a self, doc: Doc<'a, RefDoc<'a>>) -> Result<RefDoc<'a>, BuildError>
        ensures ok { IfOk result (λ p. ref_tree p ≡ tree_of ref_tree doc.entry) }
        ensures settled { IfOk result (λ p. holds_memory (out-RefDoc p).0.now ≡ false) }
        ensures err { IfErr result IsMemory }
    {
        match self.put_any(doc) {
            Some(pointer) => Ok(pointer),
            None => Err(BuildError::Memory(AllocError)),
        }
    }

    /// The same pointer, which takes no memory.
    #[inline(always)]
    fn clone_ptr(&'a self, pointer: &RefDoc<'a>) -> Result<RefDoc<'a>, BuildError>
        ensures ok { IfOk result (λ p. ref_tree p ≡ ref_tree pointer.now) }
        ensures same { result ≡ Ok pointer.now }
        ensures err { IfErr result IsMemory }
    {
        Ok(*pointer)
    }

    fn memory(&'a self) -> Global {
        self.memory
    }
}
