//! What is merely known of a value is a fact of it. Only proofs gain by it: the call here does nothing.

/// A fact of values.
pub trait Fact<X> {
    ghost holds: { X → Type 0 };
}

/// A struct's ghost field knows merely that there is a proof of a fact. After the call the fact holds.
///
/// ```
/// holds::<FormatterSink<W>, Streamed>(&sink); // the formatter took all that the sink was given, as long as none failed
/// ```
#[inline(always)]
pub fn holds<X, F: Fact<X>>(_x: &X)
    requires { ∥ F.holds _x.now ∥₁ }
    ensures { F.holds _x.now }
{}
