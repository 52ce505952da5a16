//! Bytes that only proofs read. They take no memory, and the calls here do nothing.
ghost use Rattle.std.specs.Prelude.{◌≡◌, ℕ, List, ◌++◌};
ghost use Rattle.std.specs.Borrow.{ftrue};

use std::marker::Model;

/// Bytes that only proofs read: what a sink was given, for instance. A clause reads the bytes as `bytes`.
#[derive(Drop)]
pub struct GhostBytes {
    pub ghost bytes: { List ℕ },
}

impl Model for GhostBytes {
    ghost also_owns = { λ _. ftrue };
}

impl GhostBytes {
    /// These bytes: none, where nothing was given yet.
    #[inline(always)]
    pub fn of(_bytes: &[u8]) -> GhostBytes
        ensures { result ≡ record { bytes = _bytes.now } }
    {
        GhostBytes {}
    }

    /// These bytes, and then those of a piece.
    #[inline(always)]
    pub fn and(&self, _piece: &[u8]) -> GhostBytes
        ensures { result ≡ record { bytes = self.now.bytes ++ _piece.now } }
    {
        GhostBytes {}
    }
}
