//! Texts that are in the node itself.
ghost use Rattle.std.specs.Prelude.{◌≡◌, ◌≤◌, ◌↔◌, length, IsSome, IfSome, IsUtf8};

use arrayvec::ArrayString;
use std::marker::Model;
use std::{fmt, str};

/// A text of at most 22 bytes, stored in the value itself. It takes 23 bytes of memory and may be at any address, so
/// that a node is no larger for it.
#[derive(Clone, Copy)]
pub struct SmallText {
    room: [u8; 22],
    len: u8,
}

impl Model for SmallText {
    ghost use Rattle.std.specs.Prelude.{◌≡◌, ◌≤◌, ◌++◌, length, take, drop, IsUtf8};
    ghost use Rattle.std.proofs.Common.{arith, take-append-drop, length-take-le};
    ghost use Rattle.prettyless_text.specs.Small.{Small};

    ghost Value = { Small };

    ghost view = { λ s. record { bytes = take s.len s.room; spare = drop s.len s.room } };

    ghost invariant = { λ s. (s.len ≤ 22) × (length s.room ≡ 22) × ∥ IsUtf8 (take s.len s.room) ∥₁ };

    ghost inverse = { λ s. record { room = s.bytes ++ s.spare; len = length s.bytes } };

    ghost inverse_ok = { λ s h i. record {
      room = take-append-drop s.len s.room i;
      len = length-take-le s.len s.room (omega (arith, h.0, h.1)) i;
    } };
}

impl SmallText {
    /// A copy of a text, where it has at most 22 bytes.
    ///
    /// ```
    /// SmallText::new("ab") // `Some`; `None` of a text of 23 bytes
    /// ```
    pub fn new(text: &str) -> Option<Self>
        ensures fits { IsSome result ↔ (length text.now ≤ 22) }
        ensures bytes { IfSome result (λ t. t.bytes ≡ text.now) }
    {
        if text.len() > 22 {
            return None;
        }
        let mut room = [0; 22];
        room[..text.len()].copy_from_slice(text.as_bytes());
        Some(SmallText {
            room,
            len: text.len() as u8,
        })
    }

    /// The text: UTF-8 of at most 22 bytes, which is not checked again.
    #[inline]
    pub fn as_str(&self) -> &str
        ensures bytes { result.now ≡ self.now.bytes }
        ensures fits { length self.now.bytes ≤ 22 }
        ensures utf8 { IsUtf8 self.now.bytes }
    {
        // The invariant says that these bytes are UTF-8.
        unsafe { str::from_utf8_unchecked(&self.room[..self.len as usize]) }
    }
}

/// Shows what `Debug` shows of the text.
impl fmt::Debug for SmallText {
    fn fmt<W: fmt::Write>(&self, f: &mut fmt::Formatter<W>) -> fmt::Result {
        fmt::Debug::fmt(self.as_str(), f)
    }
}

/// The same text.
impl From<ArrayString<22>> for SmallText {
    ghost from_gives = { λ text small. small.bytes ≡ text.bytes };

    fn from(text: ArrayString<22>) -> SmallText {
        let mut room = [0; 22];
        room[..text.len()].copy_from_slice(text.as_str().as_bytes());
        SmallText {
            room,
            len: text.len() as u8,
        }
    }
}

/// The same text.
impl From<SmallText> for ArrayString<22> {
    ghost from_gives = { λ small text. text.bytes ≡ small.bytes };

    fn from(small: SmallText) -> ArrayString<22> {
        let mut text = ArrayString::new();
        text.push_str(small.as_str());
        text
    }
}
