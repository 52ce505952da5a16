//! Whether a file is as it was when it was read.
ghost use Rattle.std.specs.Prelude.{◌≡◌, ◌↔◌, IsOk, Some};

use std::fs::Metadata;
use std::io;
use std::io::ErrorKind;
use std::os::unix::fs::MetadataExt;

/// What shows that a file changed: how long it is, and when its text or what is known of it last changed.
#[derive(Clone, Copy, Debug, Drop, PartialEq, Eq)]
pub struct Stamp {
    pub len: u64,
    /// Since 1970.
    pub seconds: i64,
    pub nanoseconds: i64,
}

impl Stamp {
    /// What a file shows of itself.
    pub fn of(data: &Metadata) -> Stamp {
        Stamp {
            len: data.len(),
            // No program can set this time back, as it can that of the text.
            // The time that no program can set back.
            seconds: data.ctime(),
            nanoseconds: data.ctime_nsec(),
        }
    }
}

/// An error where a file is not as it was when it was read.
pub fn check_unchanged(read: Option<Stamp>, found: Stamp) -> io::Result<()>
    ensures { IsOk result ↔ (read ≡ Some found) }
{
    if read == Some(found) {
        return Ok(());
    }
    let error = "it changed since it was read, and is left as it is";
    Err(io::Error::new(ErrorKind::Other, error))
}
