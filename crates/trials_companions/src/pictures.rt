//! Pictures of texts.
use map_drawing::View;
use std::alloc::{Allocator, Global};
use std::process::Abort;
use test_aids::fixed_seed;
use topo_reader::{RawDoc, read};

/// What an allocation that nothing refuses is expected to find.
pub(crate) const MEMORY: &str = "there is memory";

/// All of a map, without ids.
pub(crate) const ALL: View = View {
    part: None,
    has_ids: false,
    feature: None,
    conflict: None,
};

/// What is read of a map; `None` where an allocation fails.
pub(crate) fn read_map<A: Allocator + Copy>(
    heap: A,
    alloc: Global,
    map: &str,
) -> Option<RawDoc<'_, A>> {
    read(heap, alloc, fixed_seed()?, map.as_bytes()).ok()
}

/// Whether a text has these bytes one after another.
fn has(text: &[u8], bytes: &str) -> bool {
    text.windows(bytes.len().max(1))
        .any(|part| part == bytes.as_bytes())
}

/// Whether the text has all of these parts, and none of those.
pub(crate) fn shows<R: Abort>(rt: &R, text: &[u8], parts: &[&str], others: &[&str]) {
    for part in parts {
        assert!(rt; has(text, *part), "no {part}");
    }
    for part in others {
        assert!(rt; !has(text, *part), "{part}");
    }
}
