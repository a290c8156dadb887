//! The texts of faults: of a name, and of those that no text leads to: of memory, and of segments in conflict, which
//! are looked for in a map that has been read.
use crate::told::holds;
use grid_geometry::{Pos, Seg};
use std::alloc::Global;
use std::process::Abort;
use topo_outline::{OpenFault, Token};

/// The segment between two positions, which are in range and differ.
fn seg<R: Abort>(rt: &R, p: (i64, i64), q: (i64, i64)) -> Seg {
    let p = Pos::new(p.0, p.1).expect(rt, "in range");
    let q = Pos::new(q.0, q.1).expect(rt, "in range");
    Seg::new(p, q).expect(rt, "two positions")
}

/// That the fault has this text.
fn has_text<R: Abort>(rt: &R, alloc: Global, fault: &OpenFault<'_>, want: &str) {
    let told = format!(in alloc; "{fault}").expect(rt, "memory");
    holds(rt, want, told.as_str() == want);
}

#[test]
fn texts_of_faults(rt: HostRuntime) {
    let s = seg(&rt, (0, 0), (4, -4));
    let t = seg(&rt, (3, 0), (1, -4));
    let conflict = OpenFault::Conflict { s, t };
    has_text(&rt, rt.alloc(), &conflict, "conflict 0 0 4 -4 / 1 -4 3 0");
    has_text(&rt, rt.alloc(), &OpenFault::OutOfMemory, "out of memory");
    let name = Token {
        text: br"arc\u0073",
    };
    has_text(
        &rt,
        rt.alloc(),
        &OpenFault::BadMember { name },
        r"bad member arc\u0073",
    );
}
