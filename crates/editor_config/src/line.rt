//! The lines of an `.editorconfig`.

/// What a line says.
#[derive(Clone, Copy, Debug, Drop)]
pub enum ConfigLine<'t> {
    /// From here on properties are those of the files whose paths this pattern fits.
    Section(&'t str),
    /// A property and its value.
    Property { key: &'t str, value: &'t str },
    /// It is empty, a comment, or no line of an `.editorconfig`.
    Nothing,
}

/// What a line says. Blanks around it, and around what it names, say nothing.
pub fn line_of(text: &str) -> ConfigLine<'_> {
    let text = text.trim();
    if text.starts_with('#') || text.starts_with(';') {
        return ConfigLine::Nothing;
    }
    if let Some(rest) = text.strip_prefix('[') {
        return rest
            .strip_suffix(']')
            .map_or(ConfigLine::Nothing, ConfigLine::Section);
    }
    match text.split_once('=') {
        Some((key, value)) => ConfigLine::Property {
            key: key.trim(),
            value: value.trim(),
        },
        None => ConfigLine::Nothing,
    }
}
