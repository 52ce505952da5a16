//! How many bytes nodes and what is in them take, through each pointer.
use prettyless::text::{MultilineTextData, SmallText, Text};
use prettyless::{BoxDoc, BuildDoc, Doc, RcDoc, RefDoc};

#[test]
fn texts_and_payloads(rt: HostRuntime) {
    assert!(rt; size_of::<SmallText>() == 23);
    assert!(rt; size_of::<Text<'static>>() == 24);
    assert!(rt; size_of::<MultilineTextData<'static>>() == 32);
}

#[test]
fn pointers(rt: HostRuntime) {
    assert!(rt; size_of::<BoxDoc<'static>>() == 8);
    assert!(rt; size_of::<RcDoc<'static>>() == 8);
    assert!(rt; size_of::<RefDoc<'static>>() == 8);
}

#[test]
fn nodes(rt: HostRuntime) {
    assert!(rt; size_of::<Doc<'static, BoxDoc<'static>>>() == 40);
    assert!(rt; size_of::<Doc<'static, RcDoc<'static>>>() == 40);
    assert!(rt; size_of::<Doc<'static, RefDoc<'static>>>() == 40);
}

#[test]
fn documents_in_the_making(rt: HostRuntime) {
    assert!(rt; size_of::<BuildDoc<'static, BoxDoc<'static>>>() == 48);
    assert!(rt; size_of::<BuildDoc<'static, RcDoc<'static>>>() == 48);
    assert!(rt; size_of::<BuildDoc<'static, RefDoc<'static>>>() == 48);
}
