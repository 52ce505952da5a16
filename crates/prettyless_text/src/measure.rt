//! The widths of texts, and the metrics of payloads.
ghost use Rattle.std.specs.Prelude.{◌≡◌, ◌<◌, not, length, take, IfSome};
ghost use Rattle.std.specs.Option.{option_copied};
ghost use Rattle.prettyless_model.specs.Metrics as spec;
ghost use Rattle.prettyless_trees.specs.Breaks.{EndsFirstPart, holds_break, parts_left};

use prettyless_model::metrics::Metrics;
use unicode_width::UnicodeWidthStr;

/// Whether each byte is below 128.
///
/// It looks at every byte, in steps of several, where `str::is_ascii` ends at the first that is not, in steps of one.
pub fn is_ascii(text: &str) -> bool
    ensures { result ≡ spec.is_ascii text.now }
{
    let bytes = text.as_bytes();
    let mut all = 0;
    for byte in bytes {
        all |= *byte;
    }
    all < 128
}

/// The columns that a text takes: its bytes if it is ASCII, and else its display width. Whether it is, the caller says by
/// `ascii`, so that no text is looked through twice.
#[inline]
pub fn text_width(text: &str, ascii: bool) -> usize
    requires { ascii ≡ spec.is_ascii text.now }
    ensures { result ≡ spec.text_width text.now }
{
    if ascii { text.len() } else { text.width() }
}

fn is_break(byte: u8) -> bool
    ensures { result ≡ spec.is_break byte }
{
    byte == b'\n' || byte == b'\r'
}

/// Whether a text holds LF or CR.
pub fn holds_break(text: &str) -> bool
    ensures { result ≡ holds_break text.now }
{
    text.as_bytes().iter().any(|byte| is_break(*byte))
}

// What is measured of a part, which is what is between two breaks.
#[derive(Clone, Copy)]
struct PartMetrics {
    width: usize,
    nonempty: bool,
}

// Where the first part of a text ends, and whether it is ASCII.
fn scan_part(text: &str) -> (usize, bool)
    ensures end { EndsFirstPart text.now result.0 }
    ensures ascii { result.1 ≡ spec.is_ascii (take result.0 text.now) }
{
    let bytes = text.as_bytes();
    let mut ascii = true;
    for (i, byte) in bytes.iter().enumerate() {
        if is_break(*byte) {
            return (i, ascii);
        }
        if *byte >= 128 {
            ascii = false;
        }
    }
    (bytes.len(), ascii)
}

// The first part of a text, and what follows the break after it, if there is one.
fn split_part(text: &str) -> (PartMetrics, Option<&str>)
    ensures width { result.0.width ≡ spec.text_width (spec.first_of_parts (spec.parts text.now)) }
    ensures nonempty { result.0.nonempty
        ≡ not (spec.is_empty (spec.first_of_parts (spec.parts text.now))) }
    ensures rest { spec.later_parts (spec.parts text.now) ≡ parts_left (option_copied result.1) }
    ensures shorter { IfSome result.1 (λ r. length r.now < length text.now) }
{
    let (end, ascii) = scan_part(text);
    let part = PartMetrics {
        width: text_width(&text[..end], ascii),
        nonempty: end > 0,
    };
    if end < text.len() {
        (part, Some(&text[end + 1..]))
    } else {
        (part, None)
    }
}

/// The metrics of a source, found in one pass.
pub fn measure(source: &str) -> Metrics
    ensures { result ≡ spec.metrics source.now }
{
    let (first, mut rest) = split_part(source);
    let mut metrics = Metrics {
        first_width: first.width,
        first_nonempty: first.nonempty,
        rest_width: 0,
        last_width: first.width,
        last_nonempty: first.nonempty,
    };
    while let Some(text) = rest {
        let (part, after) = split_part(text);
        metrics.rest_width = metrics.rest_width.max(part.width);
        metrics.last_width = part.width;
        metrics.last_nonempty = part.nonempty;
        rest = after;
    }
    metrics
}
