//! What no contract says of sinks that work. `replay` shows what becomes of layouts where they fail.
ghost use Rattle.std.specs.Prelude.{⊤, None};

use prettyless::{FmtWrite, IoWrite, OpaqueWriter, Render};
use std::alloc::AllocError;
use std::io;

fn is_of_kind(answer: io::Result<()>, kind: io::ErrorKind) -> bool {
    match answer {
        Ok(()) => false,
        Err(e) => e.kind() == kind,
    }
}

#[test]
fn a_text_is_taken_whole(rt: HostRuntime) {
    let mut text = String::new(rt.alloc());
    let mut writer = OpaqueWriter(&mut text);
    assert!(rt; matches!(FmtWrite::new(&mut writer).write_str("é"), Ok(2)));
    assert!(rt; text.as_str() == "é");
}

#[test]
fn a_byte_writer_takes_a_text_whole(rt: HostRuntime) {
    let mut bytes: Vec<u8> = Vec::new(rt.alloc());
    assert!(rt; matches!(IoWrite::new(&mut bytes).write_str("é"), Ok(2)));
    assert!(rt; bytes.as_slice() == "é".as_bytes());
}

#[test]
fn a_document_that_fails_is_of_kind_other(rt: HostRuntime) {
    let mut bytes: Vec<u8> = Vec::new(rt.alloc());
    let sink = IoWrite::new(&mut bytes);
    assert!(rt; is_of_kind(Err(sink.fail_doc()), io::ErrorKind::Other));
    assert!(rt; is_of_kind(Err(sink.write_fault()), io::ErrorKind::Other));
}

// A sink that counts its calls and keeps no bytes.
#[derive(Drop)]
struct Calls(u64);

impl Render for Calls {
    type Error = AllocError;

    ghost bytes = { λ _. None };

    ghost failures = { λ _. 0 };

    ghost document_errors = { λ _ _. ⊤ };

    fn write_str(&mut self, s: &str) -> Result<usize, AllocError> {
        self.0 = self.0.saturating_add(1);
        Ok(s.len())
    }

    fn fail_doc(&self) -> AllocError {
        AllocError
    }
}

#[test]
fn an_empty_text_is_no_call(rt: HostRuntime) {
    let mut sink = Calls(0);
    assert!(rt; sink.write_str_all("").is_ok() && sink.0 == 0);
    assert!(rt; sink.write_str_all("é").is_ok() && sink.0 == 1);
}
