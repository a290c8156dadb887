ghost use Rattle.std.specs.Prelude.{◌≡◌, ◌+◌, ◌≤◌, ◌&&◌, length, min, not};
ghost use Rattle.std.specs.List.{list_any};
ghost use Rattle.grid_geometry.specs.Conflict as geometry;
ghost use Rattle.grid_geometry.specs.Common.{box_of, boxes_meet};
ghost use Rattle.ring_machine.specs.Common.{pair_lt};
ghost use Rattle.local_planarity.specs.Edits.{goes_away};
ghost use Rattle.local_planarity.specs.Pairs as spec;

use crate::count::TestCount;
use crate::leaving::{Leaving, leaves};
use grid_geometry::{Rect, Seg};
use segment_index::reaches;

/// Whether a pair comes before another: by the first segment, then by the second.
fn precedes(u: &(Seg, Seg), v: &(Seg, Seg)) -> bool
    ensures { result ≡ pair_lt u.now v.now }
{
    u.0 < v.0 || (u.0 == v.0 && u.1 < v.1)
}

/// Two segments, the lesser one first.
fn ordered(s: Seg, t: Seg) -> (Seg, Seg)
    ensures { result ≡ spec.ordered s t }
{
    if t < s { (t, s) } else { (s, t) }
}

/// The lesser of the pair that was found, if any, and another.
fn lesser(found: Option<(Seg, Seg)>, pair: (Seg, Seg)) -> (Seg, Seg)
    ensures { result ≡ spec.lesser found pair }
{
    let Some(known) = found else {
        return pair;
    };
    if precedes(&pair, &known) { pair } else { known }
}

/// The least of the pair that was found before, if any, and of the pairs of s with others that it
/// conflicts with. Each of the others is one test.
pub(crate) fn first_against(
    s: Seg,
    others: &[Seg],
    before: Option<(Seg, Seg)>,
    tests: &mut TestCount,
) -> Option<(Seg, Seg)>
    ensures first { result ≡ spec.first_against s others.now before }
    ensures few { tests.new ≤ tests.old + length others.now }
    ensures counted { min (tests.old + length others.now) u64.MAX ≤ tests.new }
{
    let mut found = before;
    for t in others {
        if tests.test(s, *t) {
            found = Some(lesser(found, ordered(s, *t)));
        }
    }
    found
}

/// Whether t does not leave, and its box meets this one.
fn is_tried(leaving: &Leaving, t: Seg, rect: Rect) -> bool
    ensures { result ≡ (boxes_meet (box_of t) rect && not (goes_away leaving.now t)) }
{
    reaches(t, rect) && !leaves(*leaving, t)
}

/// The least of the pair that was found before, if any, and of the pairs of s with others that it
/// conflicts with and that do not leave. Each of those whose box meets that of s is one test.
pub(crate) fn first_staying(
    s: Seg,
    others: &[Seg],
    leaving: &Leaving,
    before: Option<(Seg, Seg)>,
    tests: &mut TestCount,
) -> Option<(Seg, Seg)>
    ensures first { result ≡ spec.first_against s (spec.tried leaving.now s others.now) before }
    ensures few { tests.new ≤ tests.old + length (spec.tried leaving.now s others.now) }
    ensures counted { min (tests.old + length (spec.tried leaving.now s others.now)) u64.MAX
        ≤ tests.new }
{
    let rect = s.rect();
    let mut found = before;
    for t in others {
        if is_tried(leaving, *t, rect) && tests.test(s, *t) {
            found = Some(lesser(found, ordered(s, *t)));
        }
    }
    found
}

/// Whether s conflicts with one of the others that do not leave. Each of those whose box meets that
/// of s is one test, up to the first that does.
pub(crate) fn conflicts_with(
    s: Seg,
    others: &[Seg],
    leaving: &Leaving,
    tests: &mut TestCount,
) -> bool
    ensures some { result ≡ list_any (geometry.conflict s) (spec.tried leaving.now s others.now) }
    ensures few { tests.new ≤ tests.old
        + spec.tests_to_conflict s (spec.tried leaving.now s others.now) }
    ensures counted { min (tests.old
        + spec.tests_to_conflict s (spec.tried leaving.now s others.now)) u64.MAX ≤ tests.new }
{
    let rect = s.rect();
    for t in others {
        if is_tried(leaving, *t, rect) && tests.test(s, *t) {
            return true;
        }
    }
    false
}
