//! Payloads: texts that hold line breaks of their own.
ghost use Rattle.std.specs.Prelude.{◌≡◌, true, false, IfOk, IfErr, IsOk};
ghost use Rattle.std.specs.Cow.{cow_str_bytes};
ghost use Rattle.prettyless_model.specs.Metrics.{metrics};
ghost use Rattle.prettyless_trees.specs.Breaks.{holds_break};
ghost use Rattle.prettyless_text.specs.Cached.{IsCacheOf};
ghost use Rattle.prettyless_text.specs.Source.{cache_of, source_bytes};
ghost use Rattle.prettyless_text.specs.TextBytes.{IfLent};

use crate::cached::CachedMetrics;
use crate::measure::measure;
use crate::text::{BuildError, CowStr};
use prettyless_model::metrics::Metrics;
use std::alloc::Global;
use std::boxed::BoxedStr;
use std::fmt;

// Where the source of a payload is, with its metrics beside it. It takes 32 bytes.
#[derive(Drop)]
enum MultilineSource<'a> {
    Owned(CachedMetrics, Box<BoxedStr>),
    Borrowed(CachedMetrics, &'a str),
}

/// A text that holds LF or CR, with its metrics. It is written byte for byte.
#[derive(Drop)]
pub struct MultilineTextData<'a> {
    source: MultilineSource<'a>,
    ghost broken: { holds_break (source_bytes source) ≡ true },
    ghost measured: { IsCacheOf (cache_of source) (metrics (source_bytes source)) },
}

impl<'a> MultilineTextData<'a> {
    ghost use Rattle.prettyless_text.specs.BuildErrors.{IsMemory};
    ghost use Rattle.prettyless_text.specs.Payload.{payload_bytes, is_owned_payload, IfBorrowed};

    /// The payload of a text, which has to hold LF or CR. Only an owned source takes memory, and fails if memory runs
    /// out.
    ///
    /// ```
    /// MultilineTextData::new(alloc, CowStr::Borrowed("a\nb"))? // its `as_str` is "a\nb"
    /// ```
    pub fn new(alloc: Global, text: CowStr<'a>) -> Result<Self, BuildError>
        requires { holds_break (cow_str_bytes text) ≡ true }
        ensures ok { IfOk result (λ p. payload_bytes p ≡ cow_str_bytes text.entry) }
        ensures borrowed { IfLent text.entry (IsOk result) }
        ensures err { IfErr result IsMemory }
    {
        let cached = CachedMetrics::new(measure(text.as_str()));
        let source = match text {
            CowStr::Owned(text) => {
                MultilineSource::Owned(cached, Box::new(alloc, text.into_boxed_str())?)
            }
            CowStr::Borrowed(text) => MultilineSource::Borrowed(cached, text),
        };
        Ok(MultilineTextData { source })
    }

    // The metrics that are kept, if any are.
    #[inline(always)]
    fn cached(&self) -> CachedMetrics
        ensures { result ≡ cache_of self.now.source }
    {
        match &self.source {
            MultilineSource::Owned(cached, _) => *cached,
            MultilineSource::Borrowed(cached, _) => *cached,
        }
    }

    /// The source.
    pub fn as_str(&self) -> &str
        ensures value { result.now ≡ payload_bytes self.now }
        ensures broken { holds_break result.now ≡ true }
    {
        match &self.source {
            MultilineSource::Owned(_, text) => text.as_str(),
            MultilineSource::Borrowed(_, text) => text,
        }
    }

    /// The metrics of the source. They are measured anew only where a part is 2^32 columns wide or
    /// more.
    #[inline(always)]
    pub fn metrics(&self) -> Metrics
        ensures { result ≡ metrics (payload_bytes self.now) }
    {
        match self.cached().get() {
            Some(metrics) => metrics,
            None => measure(self.as_str()),
        }
    }

    /// Whether the source has memory of its own.
    pub fn is_owned(&self) -> bool
        ensures { result ≡ is_owned_payload self.now }
    {
        matches!(self.source, MultilineSource::Owned(..))
    }

    /// The payload of `source`, a text of the same bytes, which is not measured again.
    pub fn over<'b>(&self, source: &'b str) -> MultilineTextData<'b>
        requires { source.now ≡ payload_bytes self.now }
        ensures bytes { payload_bytes result ≡ payload_bytes self.now }
        ensures borrowed { is_owned_payload result ≡ false }
    {
        MultilineTextData {
            source: MultilineSource::Borrowed(self.cached(), source),
        }
    }

    /// The same bytes. Only an owned source takes memory for them, and fails if memory runs out.
    pub fn clone(&self, alloc: Global) -> Result<Self, BuildError>
        ensures ok { IfOk result (λ p. payload_bytes p ≡ payload_bytes self.now) }
        ensures borrowed { IfBorrowed self.now (IsOk result) }
        ensures err { IfErr result IsMemory }
    {
        let source = match &self.source {
            MultilineSource::Owned(cached, text) => {
                let copy = BoxedStr::from_str(alloc, text.as_str())?;
                MultilineSource::Owned(*cached, Box::new(alloc, copy)?)
            }
            MultilineSource::Borrowed(cached, text) => MultilineSource::Borrowed(*cached, text),
        };
        Ok(MultilineTextData { source })
    }
}

/// Shows what `Debug` shows of the source.
impl fmt::Debug for MultilineTextData<'_> {
    fn fmt<W: fmt::Write>(&self, f: &mut fmt::Formatter<W>) -> fmt::Result {
        fmt::Debug::fmt(self.as_str(), f)
    }
}
