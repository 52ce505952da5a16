//! The entries of a configuration.

/// A name, its value, and the comment after it, if there is one. A comment begins with its sign, as in `# why`, and goes up to
/// the end of its line.
#[derive(Debug, Drop, PartialEq)]
pub struct ConfigurationSetting {
    pub name: String,
    pub value: String,
    pub comment: Option<String>,
}

/// A setting, or a name with entries of its own.
#[derive(Debug, Drop, PartialEq)]
pub enum ConfigurationEntry {
    Setting(ConfigurationSetting),
    Block(String, Vec<ConfigurationEntry>),
}
