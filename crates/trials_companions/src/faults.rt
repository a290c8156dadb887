//! A damaged text is rejected with the fault that reading reports.
use mend_report::{Asked, LookFault, Texts, report_map};
use std::alloc::Global;
use std::test::Fail;
use test_aids::fixed_seed;
use topo_reader::read_walks;

/// A map with a ring through a position twice.
const MAP: &str =
    r#"{"type":"Topology","objects":{"a":{"type":"MultiPolygon","id":1,"arcs":[[[0]]]}},"arcs":[[[0,0],[4,0],[2,2],[4,4],[0,4],[2,2],[0,0]]]}"#;

/// Whether looking tells of the text what reading tells.
fn is_same(alloc: Global, text: &[u8]) -> bool {
    let Some(seed) = fixed_seed() else {
        return false;
    };
    let mut texts = Texts::new(alloc, false);
    let looked = report_map(alloc, alloc, seed, text, Asked::with_most(0), &mut texts).err();
    let read = read_walks(alloc, alloc, seed, text).err();
    match (looked, read) {
        (Some(LookFault::Open(told)), Some(fault)) => told == fault,
        (None, None) => true,
        _ => false,
    }
}

#[test]
fn a_cut_text_has_the_fault_of_reading(rt: HostRuntime) {
    let text = MAP.as_bytes();
    for end in 0..=text.len() {
        assert!(rt; is_same(rt.alloc(), &text[..end]), "{end}");
    }
}

/// Whether the same is reported of the map where any one byte is this.
fn are_same(alloc: Global, byte: u8) -> Result<bool, Fail> {
    for at in 0..MAP.len() {
        let mut text = Vec::from_slice(alloc, MAP.as_bytes())?;
        text[at] = byte;
        if !is_same(alloc, text.as_slice()) {
            return Ok(false);
        }
    }
    Ok(true)
}

#[test]
fn a_text_with_a_byte_changed_has_the_fault_of_reading(rt: HostRuntime) -> Result<(), Fail> {
    for byte in *b"[]{},:\"0x-. \n\xff" {
        let are_same = are_same(rt.alloc(), byte)?;
        assert!(rt; are_same, "{byte}");
    }
    Ok(())
}
