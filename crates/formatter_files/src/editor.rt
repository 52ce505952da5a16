//! What `.editorconfig` files say of a file.
ghost use Rattle.std.specs.Prelude.{◌≡◌, IfOk};

use editor_config::{Config, Settings, settings_of};
use std::fs::Files;
use std::io::ErrorKind;
use std::{fs, io};

/// What could be read, if it could. Where memory is refused, that error.
fn if_readable<T>(outcome: io::Result<T>) -> io::Result<Option<T>>
    ensures { IfOk outcome (λ read. result ≡ Ok (Some read)) }
{
    match outcome {
        Ok(read) => Ok(Some(read)),
        Err(error) if error.kind() == ErrorKind::OutOfMemory => Err(error),
        Err(_) => Ok(None),
    }
}

/// The `.editorconfig` in a folder, if it can be read as text.
fn config_in<R: AllocGlobal + Files>(rt: &R, folder: &str) -> io::Result<Option<Config>> {
    let path = format!(in rt.alloc(); "{folder}/.editorconfig")?;
    match if_readable(fs::read_to_string(rt, path.as_str()))? {
        Some(text) => Ok(Some(Config::read(rt.alloc(), text.as_str(), folder)?)),
        None => Ok(None),
    }
}

/// The `.editorconfig` files in the folder of a file and in those above, the nearest first, up to one that is the root.
fn configs_above<R: AllocGlobal + Files>(rt: &R, path: &str) -> io::Result<Vec<Config>> {
    let mut configs = Vec::new(rt.alloc());
    let mut rest = path;
    for _ in 0..path.len() {
        let Some((folder, _)) = rest.rsplit_once('/') else {
            break
        };
        if let Some(config) = config_in(rt, folder)? {
            let is_root = config.is_root;
            configs.push(config)?;
            if is_root {
                break;
            }
        }
        rest = folder;
    }
    Ok(configs)
}

/// What `.editorconfig` files say of the file with this name. Where its path is not known, or not UTF-8, they say nothing.
///
/// An error where memory is refused.
pub(crate) fn settings_for<R: AllocGlobal + Files>(rt: &R, name: &str) -> io::Result<Settings> {
    let Some(path) = if_readable(fs::canonicalize(rt, name))? else {
        return Ok(Settings::silent());
    };
    let path = path.into_string();
    let configs = configs_above(rt, path.as_str())?;
    let path: Vec<char> = path.as_str().chars().collect(rt.alloc())?;
    Ok(settings_of(rt.alloc(), &configs, &path)?)
}
