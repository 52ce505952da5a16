//! The greatest memory that the process has held, as Linux counts it.

use std::fs;
use std::rt::Files;

// The figure that a status names as the greatest memory, in KiB.
fn peak_in(status: &str) -> Option<&str> {
    let (_, after) = status.split_once("VmHWM:")?;
    let (figure, _) = after.split_once(" kB")?;
    Some(figure.trim())
}

/// Has Linux count the greatest memory from here on, and says whether it does.
pub(crate) fn forget_peak<R: Files>(rt: &R) -> bool {
    fs::write(rt, "/proc/self/clear_refs", "5").is_ok()
}

/// The greatest memory in KiB, where Linux says it and there is memory for its figure.
pub(crate) fn peak<R: AllocGlobal + Files>(rt: &R) -> Option<String> {
    let status = fs::read_to_string(rt, "/proc/self/status").ok()?;
    String::from_str(rt.alloc(), peak_in(status.as_str())?).ok()
}
