//! `.editorconfig` files, and what they say of a path.
ghost use Rattle.std.specs.Prelude.{◌≡◌, IfOk};
ghost use Rattle.editor_config.specs.Said.{said_by_files, said_by_sections};

use crate::glob::read_pattern;
use crate::line::{ConfigLine, line_of};
use crate::pattern::Pattern;
use crate::settings::{Settings, is};
use std::alloc::{AllocError, Global};

/// The files whose paths fit a pattern, and what is said of them.
#[derive(Debug, Drop)]
pub struct Section {
    pub pattern: Pattern,
    pub settings: Settings,
}

/// What an `.editorconfig` has.
#[derive(Debug, Drop)]
pub struct Config {
    /// Whether those in the folders above say nothing.
    pub is_root: bool,
    /// In the order of the file.
    pub sections: Vec<Section>,
}

impl Config {
    /// What is read in the text of an `.editorconfig` in this folder, whose path has no slash at its end. Lines that are none say
    /// nothing.
    ///
    /// `AllocError` where memory is refused.
    pub fn read(alloc: Global, text: &str, folder: &str) -> Result<Config, AllocError> {
        let mut sections: Vec<Section> = Vec::new(alloc);
        let mut is_root = false;
        for line in text.lines() {
            match line_of(line) {
                ConfigLine::Section(name) => sections.push(Section {
                    pattern: read_pattern(alloc, folder, name)?,
                    settings: Settings::silent(),
                })?,
                ConfigLine::Property { key, value } => match sections.last_mut() {
                    Some(section) => section.settings.set(key, value),
                    None => is_root = if is(key, "root") {
                        is(value, "true")
                    } else {
                        is_root
                    },
                },
                ConfigLine::Nothing => {}
            }
        }
        Ok(Config { is_root, sections })
    }

    /// What it says of the file with this path. Of the sections whose patterns fit, the last that says a property counts.
    ///
    /// `AllocError` where memory is refused.
    fn settings_of(&self, alloc: Global, path: &[char]) -> Result<Settings, AllocError>
        ensures { IfOk result (λ settings. settings ≡ said_by_sections path.now self.now.sections.items) }
    {
        let mut settings = Settings::silent();
        for place in (0..self.sections.len()).rev() {
            let section = &self.sections[place];
            if section.pattern.fits(alloc, path)? {
                settings = settings.over(section.settings);
            }
        }
        Ok(settings)
    }
}

/// What `.editorconfig` files, the nearest first, say of the file with this path. The nearest that says a property counts, and in it
/// the last section that says it of those whose patterns fit.
///
/// `AllocError` where memory is refused.
pub fn settings_of(alloc: Global, configs: &[Config], path: &[char]) -> Result<Settings, AllocError>
    ensures { IfOk result (λ settings. settings ≡ said_by_files path.now configs.now) }
{
    let mut settings = Settings::silent();
    for place in (0..configs.len()).rev() {
        settings = configs[place].settings_of(alloc, path)?.over(settings);
    }
    Ok(settings)
}
