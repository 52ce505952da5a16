//! What is to become of layouts, and of which files.
ghost use Rattle.std.specs.Prelude.{◌≡◌};
ghost use Rattle.formatter_files.specs.Editor.{unsaid};

use crate::action::Action;
use editor_config::Settings;

/// What is to become of the layouts, and of which files.
#[derive(Drop)]
pub struct Task<'w> {
    /// What is done with each layout.
    pub action: Action,
    /// Whether `.editorconfig` files are read.
    pub editorconfig: bool,
    /// Whether the words say the width, and the indent. Then no other file does.
    pub has_width: bool,
    pub has_indent: bool,
    /// The names of files, and of folders for the files below them. `-` is standard input, and so it is where there is none. Its
    /// layout is written to standard output.
    pub files: Vec<&'w str>,
}

impl Task<'_> {
    /// The settings of which the words say nothing.
    pub(crate) fn unsaid(&self, settings: Settings) -> Settings
        ensures { result ≡ unsaid self.now settings }
    {
        let mut unsaid = settings;
        if self.has_width {
            unsaid.max_line_length = None;
        }
        if self.has_indent {
            unsaid.indent_style = None;
            unsaid.indent_size = None;
        }
        unsaid
    }
}
