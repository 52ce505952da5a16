//! Lays a document into an area.
ghost use Rattle.prettyless_doc.specs.DocTree.{tree_of};
ghost use Rattle.prettyless_exports.specs.Laid.{LaysInto};

use crate::area::{Area, Full};
use prettyless_doc::doc::{Doc, DocPtr};
use prettyless_model::options::RenderOptions;
use prettyless_sink::error::RenderError;
use std::alloc::Global;

/// Puts a document's layout into an area of bytes from its start, as far as there is room, and makes it once.
///
/// `written` is how many bytes the area was given, also where it has no room for them. On success that is the layout's
/// length, and it is never more than `limit`. Where the document fails, these are the bytes before its failing node. If
/// memory runs out, they are a beginning of the layout. Where the layout is longer than `limit`, the answer is `Sink`,
/// and they are its first `limit` bytes. Past them the area stays as it was.
///
/// ```
/// lay_into(doc, alloc, RenderOptions::new(80), 1000, &mut out, &mut written)?; // `out` begins with "a\nb", `written` is 3
/// ```
pub fn lay_into<'a, T: DocPtr<'a>>(
    document: &Doc<'a, T>,
    alloc: Global,
    options: RenderOptions,
    limit: usize,
    out: &mut [u8],
    written: &mut usize,
) -> Result<(), RenderError<Full>>
    ensures { LaysInto options (tree_of T.tree document.now) limit out.old out.new written.new result }
{
    let mut area = Area::new(out, limit);
    let answer = document.render_raw_with(alloc, options, &mut area);
    *written = area.count();
    answer
}
