//! Metrics in few bytes.
ghost use Rattle.std.specs.Prelude.{◌≡◌, ◌^◌, ◌<◌, true, false, MatchOption};
ghost use Rattle.prettyless_text.specs.Cached.{IsCacheOf, widened};

use prettyless_model::metrics::Metrics;

// Metrics with widths of 32 bits, so that a node stays small. Where one width needs more, none is kept. The widths are
// bytes, so that it may be at any address.
#[derive(Clone, Copy)]
pub(crate) struct CachedMetrics {
    first_width: [u8; 4],
    rest_width: [u8; 4],
    last_width: [u8; 4],
    first_nonempty: bool,
    last_nonempty: bool,
    kept: bool,
}

impl CachedMetrics {
    pub(crate) fn new(metrics: Metrics) -> Self
        ensures cache { IsCacheOf result metrics }
        ensures kept { metrics.first_width < 2 ^ 32 → metrics.rest_width < 2 ^ 32
            → metrics.last_width < 2 ^ 32 → result.kept ≡ true }
    {
        let widest = metrics
            .first_width
            .max(metrics.rest_width)
            .max(metrics.last_width);
        if widest > u32::MAX as usize {
            return CachedMetrics {
                first_width: [0; 4],
                rest_width: [0; 4],
                last_width: [0; 4],
                first_nonempty: false,
                last_nonempty: false,
                kept: false,
            };
        }
        CachedMetrics {
            first_width: (metrics.first_width as u32).to_le_bytes(),
            rest_width: (metrics.rest_width as u32).to_le_bytes(),
            last_width: (metrics.last_width as u32).to_le_bytes(),
            first_nonempty: metrics.first_nonempty,
            last_nonempty: metrics.last_nonempty,
            kept: true,
        }
    }

    // The metrics, where they are kept.
    pub(crate) fn get(self) -> Option<Metrics>
        ensures { MatchOption result (self.kept ≡ false)
            (λ m. (self.kept ≡ true) × (m ≡ widened self)) }
    {
        if !self.kept {
            return None;
        }
        Some(Metrics {
            first_width: u32::from_le_bytes(self.first_width) as usize,
            first_nonempty: self.first_nonempty,
            rest_width: u32::from_le_bytes(self.rest_width) as usize,
            last_width: u32::from_le_bytes(self.last_width) as usize,
            last_nonempty: self.last_nonempty,
        })
    }
}
