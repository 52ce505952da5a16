ghost use Rattle.std.specs.Prelude.{◌≡◌, true};

/// How a text is laid out.
#[derive(Clone, Copy, Debug, Drop, PartialEq, Eq)]
pub struct Style {
    /// The width of a line, in columns.
    pub width: usize,
    /// By how many columns the members of a broken array are indented relative to its brackets.
    pub indent: u32,
    /// Whether comments at the ends of lines that follow each other are aligned.
    pub align: bool,
}

impl Default for Style {
    ghost is_default = { λ style. (style.width ≡ 80) × (style.indent ≡ 2) × (style.align ≡ true) };

    /// 80 columns, indents of 2, and aligned comments.
    fn default() -> Style {
        Style {
            width: 80,
            indent: 2,
            align: true,
        }
    }
}
