//! A sink over an area of bytes.
ghost use Rattle.std.specs.Prelude.{◌≡◌, ◌<◌, ◌≤◌, [], Some, length, min, take};
ghost use Rattle.prettyless_exports.specs.Account.{account};
ghost use Rattle.prettyless_exports.specs.Overlay.{limit_of, overlay};
ghost use Rattle.prettyless_exports.specs.Texts.{IsPut};
ghost use Rattle.prettyless_exports.specs.declared.area.Full.TheVariants.{Document};

use crate::text::Put;
use prettyless_sink::ghost_bytes::GhostBytes;
use prettyless_sink::render::Render;

/// The greatest length in bytes that this limit allows: 0 is no limit, and gives that of all areas.
pub fn limit_from(limit: usize) -> usize
    ensures { result ≡ limit_of limit }
{
    if limit == 0 { usize::MAX } else { limit }
}

/// Why an area takes no more.
#[derive(Clone, Copy, Debug, PartialEq, Eq)]
pub enum Full {
    /// The document fails.
    Document,
    /// More bytes were given than the limit.
    Limit,
}

/// A sink that puts what it is given into an area of bytes that it is lent, from the area's start.
///
/// What is past the area's end is counted and not kept. What is past the limit is neither: there a write fails.
#[derive(Drop)]
pub struct Area<'o> {
    out: &'o mut [u8],
    count: usize,
    limit: usize,
    failures: u64,
    before: GhostBytes,
    given: GhostBytes,
    // The area holds what it was given, as far as the limit, and past that what it held at first.
    pub ghost holds: { out.now ≡ overlay (take limit given.bytes) before.bytes },
    // What it was given is counted as far as the limit.
    pub ghost counts: { count ≡ min limit (length given.bytes) },
    // It fails only where it is given more than the limit, and then always.
    pub ghost past: { 0 < failures → limit < length given.bytes },
    pub ghost within: { failures ≡ 0 → length given.bytes ≤ limit },
}

impl<'o> Area<'o> {
    /// An area that was given nothing. It takes as many bytes as `limit`.
    ///
    /// ```
    /// Area::new(&mut out, 1000) // its `count` is 0
    /// ```
    pub fn new(out: &'o mut [u8], limit: usize) -> Self
        ensures same_reference { result.out.ghost_name ≡ out.entry.ghost_name }
        ensures limit { result.limit ≡ limit }
        ensures before { result.before.bytes ≡ out.old }
        ensures given { result.given.bytes ≡ [] }
        ensures failures { result.failures ≡ 0 }
    {
        let before = GhostBytes::of(out);
        Area {
            out,
            count: 0,
            limit,
            failures: 0,
            before,
            given: GhostBytes::of(b""),
        }
    }

    /// How many bytes it took: those that it was given, as far as the limit, also those that it has no room for.
    #[inline]
    pub fn count(&self) -> usize
        ensures { result ≡ self.now.count }
    {
        self.count
    }

    /// How many bytes it has room for.
    #[inline]
    pub fn capacity(&self) -> usize
        ensures { result ≡ length self.now.before.bytes }
    {
        self.out.len()
    }

    /// How much it holds of what it was given.
    ///
    /// `written` is how many bytes those are; after `Beginning` it is how many it was given.
    pub fn put(&self, written: &mut usize) -> Put
        ensures { IsPut self.now.limit self.now.given.bytes self.now.before.bytes self.now.out.now written.new result }
    {
        let capacity = self.out.len();
        *written = self.count.min(capacity);
        if self.failures > 0 {
            return Put::PastLimit;
        }
        if self.count <= capacity {
            return Put::Whole;
        }
        *written = self.count;
        Put::Beginning
    }
}

impl<'o> Render for Area<'o> {
    type Error = Full;

    // The account, and not only the bytes that it was given: what a sink has stays the beginning of what it has later. So
    // after a render the owner knows that the limit and what the area held at first are the same.
    ghost bytes = { λ area. Some (account area.limit area.before.bytes area.given.bytes) };

    ghost failures = { λ area. area.failures };

    ghost lender = { λ area. Some area.out.ghost_name };

    ghost document_errors = { λ _ e. e ≡ Document };

    /// Takes the whole text, and answers its length.
    #[inline]
    fn write_str(&mut self, s: &str) -> Result<usize, Full> {
        self.write_str_all(s)?;
        Ok(s.len())
    }

    /// Takes the whole text, and puts as much of it as there is room for. Where it goes past the limit, only what is
    /// before that is taken, and the failures rise by one.
    #[inline]
    fn write_str_all(&mut self, s: &str) -> Result<(), Full> {
        let piece = s.as_bytes();
        let taken = piece.len().min(self.limit - self.count);
        let start = self.count.min(self.out.len());
        let fits = taken.min(self.out.len() - start);
        self.out[start..start + fits].copy_from_slice(&piece[..fits]);
        self.count += taken;
        self.given = self.given.and(piece);
        if taken < piece.len() {
            self.failures = self.failures.saturating_add(1);
            return Err(Full::Limit);
        }
        Ok(())
    }

    fn fail_doc(&self) -> Full {
        Full::Document
    }
}
