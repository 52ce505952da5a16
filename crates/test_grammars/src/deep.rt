//! Brackets in brackets, deeper by far than the stack has room for calls.
use json_validity::{MAX_DEPTH, is_json};
use std::alloc::{AllocError, Global};
use std::process::Abort;
use std::test::Fail;
use toml_grammar::{Expected, fault_of};

fn push_times(out: &mut String, text: &str, times: usize) -> Result<(), AllocError> {
    for _ in 0..times {
        out.push_str(text)?;
    }
    Ok(())
}

// A text, and so many brackets around a 1 after it.
fn nested(
    memory: Global,
    front: &str,
    (opening, closing): (&str, &str),
    depth: usize,
) -> Result<String, AllocError> {
    let mut text = String::from_str(memory, front)?;
    push_times(&mut text, opening, depth)?;
    text.push('1')?;
    push_times(&mut text, closing, depth)?;
    Ok(text)
}

// Brackets, and how many levels each of them has.
const BRACKETS: &[((&str, &str), usize)] = &[
    (("[", "]"), 1),
    (("{\"a\":", "}"), 1),
    (("[2,{\"a\":", "}]"), 2),
];

#[test]
fn json_is_as_deep_as_it_may(rt: HostRuntime) -> Result<(), Fail> {
    let memory = rt.alloc();
    for &(brackets, levels) in BRACKETS {
        let deepest = nested(memory, "", brackets, MAX_DEPTH / levels)?;
        assert!(rt; is_json(memory, &deepest)?);
        let deeper = nested(memory, "", brackets, MAX_DEPTH / levels + 1)?;
        assert!(rt; !is_json(memory, &deeper)?);
    }
    Ok(())
}

#[test]
fn toml_is_as_deep_as_memory(rt: HostRuntime) -> Result<(), Fail> {
    let mut text = nested(rt.alloc(), "a = ", ("[", "]"), 100_000)?;
    assert!(rt; fault_of(rt.alloc(), &text)?.is_none());
    let end = text.len();
    text.push(']')?;
    let fault = fault_of(rt.alloc(), &text)?;
    assert!(rt;
        fault.is_some_and(|fault| fault.offset == end && fault.expected == Expected::LineEnd)
    );
    Ok(())
}
