//! Texts of spaces. This file knows no sinks.
ghost use Rattle.std.specs.Prelude.{◌≡◌, ◌≤◌};
ghost use Rattle.prettyless_model.specs.Spaces.{spaces};

const HUNDRED_SPACES: &str =
    "                                                                                                    ";

/// A text of at most 100 spaces.
#[inline]
pub fn some_spaces(count: usize) -> &'static str
    requires { count ≤ 100 }
    ensures { result.now ≡ spaces count }
{
    &HUNDRED_SPACES[..count]
}
