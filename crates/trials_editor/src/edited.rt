//! What a map of a few squares tells, also after an edit: counts, ids, and how many pairs of segments
//! were tested.
use crate::answers::Wanted;
use crate::maps::GridMap;
use crate::stage::{Stage, Step};
use arc_store::Spot;
use grid_geometry::{Pos, Seg};

/// 64 squares in a row, each of side 10, every 100
pub(crate) const ROW: &str =
    r#"{"type":"Topology","objects":{"m":{"type":"GeometryCollection","geometries":[
{"type":"Polygon","arcs":[[0]]},{"type":"Polygon","arcs":[[1]]},{"type":"Polygon","arcs":[[2]]},{"type":"Polygon","arcs":[[3]]},{"type":"Polygon","arcs":[[4]]},{"type":"Polygon","arcs":[[5]]},{"type":"Polygon","arcs":[[6]]},{"type":"Polygon","arcs":[[7]]},
{"type":"Polygon","arcs":[[8]]},{"type":"Polygon","arcs":[[9]]},{"type":"Polygon","arcs":[[10]]},{"type":"Polygon","arcs":[[11]]},{"type":"Polygon","arcs":[[12]]},{"type":"Polygon","arcs":[[13]]},{"type":"Polygon","arcs":[[14]]},{"type":"Polygon","arcs":[[15]]},
{"type":"Polygon","arcs":[[16]]},{"type":"Polygon","arcs":[[17]]},{"type":"Polygon","arcs":[[18]]},{"type":"Polygon","arcs":[[19]]},{"type":"Polygon","arcs":[[20]]},{"type":"Polygon","arcs":[[21]]},{"type":"Polygon","arcs":[[22]]},{"type":"Polygon","arcs":[[23]]},
{"type":"Polygon","arcs":[[24]]},{"type":"Polygon","arcs":[[25]]},{"type":"Polygon","arcs":[[26]]},{"type":"Polygon","arcs":[[27]]},{"type":"Polygon","arcs":[[28]]},{"type":"Polygon","arcs":[[29]]},{"type":"Polygon","arcs":[[30]]},{"type":"Polygon","arcs":[[31]]},
{"type":"Polygon","arcs":[[32]]},{"type":"Polygon","arcs":[[33]]},{"type":"Polygon","arcs":[[34]]},{"type":"Polygon","arcs":[[35]]},{"type":"Polygon","arcs":[[36]]},{"type":"Polygon","arcs":[[37]]},{"type":"Polygon","arcs":[[38]]},{"type":"Polygon","arcs":[[39]]},
{"type":"Polygon","arcs":[[40]]},{"type":"Polygon","arcs":[[41]]},{"type":"Polygon","arcs":[[42]]},{"type":"Polygon","arcs":[[43]]},{"type":"Polygon","arcs":[[44]]},{"type":"Polygon","arcs":[[45]]},{"type":"Polygon","arcs":[[46]]},{"type":"Polygon","arcs":[[47]]},
{"type":"Polygon","arcs":[[48]]},{"type":"Polygon","arcs":[[49]]},{"type":"Polygon","arcs":[[50]]},{"type":"Polygon","arcs":[[51]]},{"type":"Polygon","arcs":[[52]]},{"type":"Polygon","arcs":[[53]]},{"type":"Polygon","arcs":[[54]]},{"type":"Polygon","arcs":[[55]]},
{"type":"Polygon","arcs":[[56]]},{"type":"Polygon","arcs":[[57]]},{"type":"Polygon","arcs":[[58]]},{"type":"Polygon","arcs":[[59]]},{"type":"Polygon","arcs":[[60]]},{"type":"Polygon","arcs":[[61]]},{"type":"Polygon","arcs":[[62]]},{"type":"Polygon","arcs":[[63]]}]}},"arcs":[
[[0,0],[10,0],[10,10],[0,10],[0,0]],[[100,0],[110,0],[110,10],[100,10],[100,0]],[[200,0],[210,0],[210,10],[200,10],[200,0]],[[300,0],[310,0],[310,10],[300,10],[300,0]],[[400,0],[410,0],[410,10],[400,10],[400,0]],[[500,0],[510,0],[510,10],[500,10],[500,0]],[[600,0],[610,0],[610,10],[600,10],[600,0]],[[700,0],[710,0],[710,10],[700,10],[700,0]],
[[800,0],[810,0],[810,10],[800,10],[800,0]],[[900,0],[910,0],[910,10],[900,10],[900,0]],[[1000,0],[1010,0],[1010,10],[1000,10],[1000,0]],[[1100,0],[1110,0],[1110,10],[1100,10],[1100,0]],[[1200,0],[1210,0],[1210,10],[1200,10],[1200,0]],[[1300,0],[1310,0],[1310,10],[1300,10],[1300,0]],[[1400,0],[1410,0],[1410,10],[1400,10],[1400,0]],[[1500,0],[1510,0],[1510,10],[1500,10],[1500,0]],
[[1600,0],[1610,0],[1610,10],[1600,10],[1600,0]],[[1700,0],[1710,0],[1710,10],[1700,10],[1700,0]],[[1800,0],[1810,0],[1810,10],[1800,10],[1800,0]],[[1900,0],[1910,0],[1910,10],[1900,10],[1900,0]],[[2000,0],[2010,0],[2010,10],[2000,10],[2000,0]],[[2100,0],[2110,0],[2110,10],[2100,10],[2100,0]],[[2200,0],[2210,0],[2210,10],[2200,10],[2200,0]],[[2300,0],[2310,0],[2310,10],[2300,10],[2300,0]],
[[2400,0],[2410,0],[2410,10],[2400,10],[2400,0]],[[2500,0],[2510,0],[2510,10],[2500,10],[2500,0]],[[2600,0],[2610,0],[2610,10],[2600,10],[2600,0]],[[2700,0],[2710,0],[2710,10],[2700,10],[2700,0]],[[2800,0],[2810,0],[2810,10],[2800,10],[2800,0]],[[2900,0],[2910,0],[2910,10],[2900,10],[2900,0]],[[3000,0],[3010,0],[3010,10],[3000,10],[3000,0]],[[3100,0],[3110,0],[3110,10],[3100,10],[3100,0]],
[[3200,0],[3210,0],[3210,10],[3200,10],[3200,0]],[[3300,0],[3310,0],[3310,10],[3300,10],[3300,0]],[[3400,0],[3410,0],[3410,10],[3400,10],[3400,0]],[[3500,0],[3510,0],[3510,10],[3500,10],[3500,0]],[[3600,0],[3610,0],[3610,10],[3600,10],[3600,0]],[[3700,0],[3710,0],[3710,10],[3700,10],[3700,0]],[[3800,0],[3810,0],[3810,10],[3800,10],[3800,0]],[[3900,0],[3910,0],[3910,10],[3900,10],[3900,0]],
[[4000,0],[4010,0],[4010,10],[4000,10],[4000,0]],[[4100,0],[4110,0],[4110,10],[4100,10],[4100,0]],[[4200,0],[4210,0],[4210,10],[4200,10],[4200,0]],[[4300,0],[4310,0],[4310,10],[4300,10],[4300,0]],[[4400,0],[4410,0],[4410,10],[4400,10],[4400,0]],[[4500,0],[4510,0],[4510,10],[4500,10],[4500,0]],[[4600,0],[4610,0],[4610,10],[4600,10],[4600,0]],[[4700,0],[4710,0],[4710,10],[4700,10],[4700,0]],
[[4800,0],[4810,0],[4810,10],[4800,10],[4800,0]],[[4900,0],[4910,0],[4910,10],[4900,10],[4900,0]],[[5000,0],[5010,0],[5010,10],[5000,10],[5000,0]],[[5100,0],[5110,0],[5110,10],[5100,10],[5100,0]],[[5200,0],[5210,0],[5210,10],[5200,10],[5200,0]],[[5300,0],[5310,0],[5310,10],[5300,10],[5300,0]],[[5400,0],[5410,0],[5410,10],[5400,10],[5400,0]],[[5500,0],[5510,0],[5510,10],[5500,10],[5500,0]],
[[5600,0],[5610,0],[5610,10],[5600,10],[5600,0]],[[5700,0],[5710,0],[5710,10],[5700,10],[5700,0]],[[5800,0],[5810,0],[5810,10],[5800,10],[5800,0]],[[5900,0],[5910,0],[5910,10],[5900,10],[5900,0]],[[6000,0],[6010,0],[6010,10],[6000,10],[6000,0]],[[6100,0],[6110,0],[6110,10],[6100,10],[6100,0]],[[6200,0],[6210,0],[6210,10],[6200,10],[6200,0]],[[6300,0],[6310,0],[6310,10],[6300,10],[6300,0]]]}"#;

/// Gives a line to the editor; whether it is answered as is wanted, with so many tests.
fn is_tested(stage: &mut Stage<'_>, line: &str, wanted: &Wanted, tests: u64) -> bool {
    let is_wanted = stage.take(&Step::Say(line, wanted)).is_wanted();
    is_wanted & (stage.editor.map().tests() == tests)
}

/// A corner of the first square moves, and then none is found where it was. In cells of 99 by 1 the
/// first square stands alone in a column. Its right and upper sides leave. The new right side is
/// tested against the lower side, and the new upper side against the left side, once each, though
/// these two have two cells in common; the boxes of the others do not meet. The two new sides are
/// tested against each other. No side that stays has its box at the way of the corner.
pub(crate) fn moves_a_corner(stage: &mut Stage<'_>) -> bool {
    let count = stage.editor.map().segment_count();
    let tests = stage.editor.map().tests();
    let is_moved = is_tested(stage, "move 10 10 9 9", &Wanted::Done, 1 + 1 + 1);
    let none = Wanted::Refused("no vertex");
    let is_gone = is_tested(stage, "remove 10 10", &none, 0);
    (count == 256) & (tests == 0) & is_moved & is_gone
}

/// So many rings have the segment.
fn is_used(map: &GridMap<'_>, p: Pos, q: Pos, rings: usize) -> bool {
    match Seg::new(p, q) {
        Some(s) => map.uses(s) == rings,
        None => false,
    }
}

/// Two squares have these counts.
fn has_counts(map: &GridMap<'_>) -> bool {
    let counts = [
        map.feature_count(),
        map.vertex_count(),
        map.segment_count(),
        map.position_count(),
    ];
    counts == [2, 6, 7, 8]
}

/// The common side is in both squares, another one in one, and the diagonal in none.
fn are_sides(map: &GridMap<'_>, corner: Pos, right: Pos, end: Pos) -> bool {
    let is_common = is_used(map, right, end, 2);
    let is_own = is_used(map, corner, right, 1);
    is_common & is_own & is_used(map, corner, end, 0)
}

/// Borders meet at the end of the common side, and a corner of one square stands between two others of
/// its ring of four.
fn are_spots(map: &GridMap<'_>, corner: Pos, right: Pos, end: Pos) -> bool {
    let between = Some(Spot::Between(Pos::new(0, 10).unwrap(), right, 4));
    let is_junction = map.spot(end) == Some(Spot::Junction);
    is_junction & (map.spot(corner) == between)
}

/// What a map of two squares tells; within one of them no vertex stands.
pub(crate) fn sees_squares(map: &GridMap<'_>) -> bool {
    let (corner, right) = (Pos::new(0, 0).unwrap(), Pos::new(10, 0).unwrap());
    let (end, within) = (Pos::new(10, 10).unwrap(), Pos::new(5, 5).unwrap());
    let are_so = are_sides(map, corner, right, end) & are_spots(map, corner, right, end);
    has_counts(map) & are_so & map.spot(within).is_none()
}

/// A line with an id, each character that JSON lets one escape in another form than serde_json's.
const RENAME: &str =
    "rename 1 \"a\\u0022\\/\\u005C\\u000a\\u0009\\u0008\\u000C\\u000D\\u0001\\u001F\u{7f}\\u00E9\\u20ac\\ud83d\\uDDFA\"";

/// What serde_json 1.0 writes of the id.
const ESCAPED: &str = "\"a\\\"/\\\\\\n\\t\\b\\f\\r\\u0001\\u001f\u{7f}\u{e9}\u{20ac}\u{1f5fa}\"";

/// The second square has the id that it is given.
pub(crate) fn gives_an_id(stage: &mut Stage<'_>) -> bool {
    let is_renamed = stage.take(&Step::Say(RENAME, &Wanted::Done)).is_wanted();
    match stage.editor.map().feature(1) {
        Some(feature) => is_renamed & (feature.id() == Some(ESCAPED.as_bytes())),
        None => false,
    }
}
