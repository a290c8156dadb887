//! Maps made by hand.
ghost use Rattle.topo_reader.specs.Common.{IsOfRings, view_raw};

use arc_store::Map;
use segment_index::TreeIndex;
use std::alloc::Global;
use std::hash::RandomState;
use test_aids::fixed_seed;
use topo_reader::{RawDoc, read};

/// A square with a hole, an island that fills the hole, a square that touches the first at a corner,
/// and a feature without a polygon.
pub(crate) const DONUT: &str =
    r#"{"type":"Topology","objects":{"land":{"type":"GeometryCollection","geometries":[{"type":"Polygon","arcs":[[0],[1]]},{"type":"MultiPolygon","arcs":[[[-2]]]},{"type":"Polygon","arcs":[[2]]},{"type":null}]}},"arcs":[[[0,0],[30,0],[30,30],[0,30],[0,0]],[[10,10],[10,20],[20,20],[20,10],[10,10]],[[30,30],[40,30],[40,40],[30,40],[30,30]]]}"#;

/// A square with a square hole, in it a smaller square with a hole, and in that a square.
pub(crate) const NESTED: &str =
    r#"{"type":"Topology","objects":{"m":{"type":"GeometryCollection","geometries":[{"type":"Polygon","arcs":[[0],[1]]},{"type":"Polygon","arcs":[[2],[3]]},{"type":"Polygon","arcs":[[4]]}]}},"arcs":[[[0,0],[100,0],[100,100],[0,100],[0,0]],[[20,20],[80,20],[80,80],[20,80],[20,20]],[[30,30],[70,30],[70,70],[30,70],[30,30]],[[40,40],[60,40],[60,60],[40,60],[40,40]],[[45,45],[55,45],[55,55],[45,55],[45,45]]]}"#;

/// An L, two squares that begin in its box and end beyond it, the second one with a triangle.
pub(crate) const CUT: &str =
    r#"{"type":"Topology","objects":{"m":{"type":"GeometryCollection","geometries":[{"type":"Polygon","arcs":[[0]]},{"type":"Polygon","arcs":[[1]]},{"type":"MultiPolygon","arcs":[[[2]],[[3]]]}]}},"arcs":[[[0,0],[20,0],[20,5],[5,5],[5,20],[0,20],[0,0]],[[10,8],[30,8],[30,15],[10,15],[10,8]],[[12,17],[40,17],[40,19],[12,19],[12,17]],[[50,0],[60,10],[50,20],[50,0]]]}"#;

/// Seventy squares, each in the one before.
pub(crate) const MANY: &str =
    r#"{"type":"Topology","objects":{"m":{"type":"GeometryCollection","geometries":[{"type":"Polygon","arcs":[[0]]},{"type":"Polygon","arcs":[[1]]},{"type":"Polygon","arcs":[[2]]},{"type":"Polygon","arcs":[[3]]},{"type":"Polygon","arcs":[[4]]},{"type":"Polygon","arcs":[[5]]},{"type":"Polygon","arcs":[[6]]},{"type":"Polygon","arcs":[[7]]},{"type":"Polygon","arcs":[[8]]},{"type":"Polygon","arcs":[[9]]},{"type":"Polygon","arcs":[[10]]},{"type":"Polygon","arcs":[[11]]},{"type":"Polygon","arcs":[[12]]},{"type":"Polygon","arcs":[[13]]},{"type":"Polygon","arcs":[[14]]},{"type":"Polygon","arcs":[[15]]},{"type":"Polygon","arcs":[[16]]},{"type":"Polygon","arcs":[[17]]},{"type":"Polygon","arcs":[[18]]},{"type":"Polygon","arcs":[[19]]},{"type":"Polygon","arcs":[[20]]},{"type":"Polygon","arcs":[[21]]},{"type":"Polygon","arcs":[[22]]},{"type":"Polygon","arcs":[[23]]},{"type":"Polygon","arcs":[[24]]},{"type":"Polygon","arcs":[[25]]},{"type":"Polygon","arcs":[[26]]},{"type":"Polygon","arcs":[[27]]},{"type":"Polygon","arcs":[[28]]},{"type":"Polygon","arcs":[[29]]},{"type":"Polygon","arcs":[[30]]},{"type":"Polygon","arcs":[[31]]},{"type":"Polygon","arcs":[[32]]},{"type":"Polygon","arcs":[[33]]},{"type":"Polygon","arcs":[[34]]},{"type":"Polygon","arcs":[[35]]},{"type":"Polygon","arcs":[[36]]},{"type":"Polygon","arcs":[[37]]},{"type":"Polygon","arcs":[[38]]},{"type":"Polygon","arcs":[[39]]},{"type":"Polygon","arcs":[[40]]},{"type":"Polygon","arcs":[[41]]},{"type":"Polygon","arcs":[[42]]},{"type":"Polygon","arcs":[[43]]},{"type":"Polygon","arcs":[[44]]},{"type":"Polygon","arcs":[[45]]},{"type":"Polygon","arcs":[[46]]},{"type":"Polygon","arcs":[[47]]},{"type":"Polygon","arcs":[[48]]},{"type":"Polygon","arcs":[[49]]},{"type":"Polygon","arcs":[[50]]},{"type":"Polygon","arcs":[[51]]},{"type":"Polygon","arcs":[[52]]},{"type":"Polygon","arcs":[[53]]},{"type":"Polygon","arcs":[[54]]},{"type":"Polygon","arcs":[[55]]},{"type":"Polygon","arcs":[[56]]},{"type":"Polygon","arcs":[[57]]},{"type":"Polygon","arcs":[[58]]},{"type":"Polygon","arcs":[[59]]},{"type":"Polygon","arcs":[[60]]},{"type":"Polygon","arcs":[[61]]},{"type":"Polygon","arcs":[[62]]},{"type":"Polygon","arcs":[[63]]},{"type":"Polygon","arcs":[[64]]},{"type":"Polygon","arcs":[[65]]},{"type":"Polygon","arcs":[[66]]},{"type":"Polygon","arcs":[[67]]},{"type":"Polygon","arcs":[[68]]},{"type":"Polygon","arcs":[[69]]}]}},"arcs":[[[0,0],[200,0],[200,200],[0,200],[0,0]],[[1,1],[199,1],[199,199],[1,199],[1,1]],[[2,2],[198,2],[198,198],[2,198],[2,2]],[[3,3],[197,3],[197,197],[3,197],[3,3]],[[4,4],[196,4],[196,196],[4,196],[4,4]],[[5,5],[195,5],[195,195],[5,195],[5,5]],[[6,6],[194,6],[194,194],[6,194],[6,6]],[[7,7],[193,7],[193,193],[7,193],[7,7]],[[8,8],[192,8],[192,192],[8,192],[8,8]],[[9,9],[191,9],[191,191],[9,191],[9,9]],[[10,10],[190,10],[190,190],[10,190],[10,10]],[[11,11],[189,11],[189,189],[11,189],[11,11]],[[12,12],[188,12],[188,188],[12,188],[12,12]],[[13,13],[187,13],[187,187],[13,187],[13,13]],[[14,14],[186,14],[186,186],[14,186],[14,14]],[[15,15],[185,15],[185,185],[15,185],[15,15]],[[16,16],[184,16],[184,184],[16,184],[16,16]],[[17,17],[183,17],[183,183],[17,183],[17,17]],[[18,18],[182,18],[182,182],[18,182],[18,18]],[[19,19],[181,19],[181,181],[19,181],[19,19]],[[20,20],[180,20],[180,180],[20,180],[20,20]],[[21,21],[179,21],[179,179],[21,179],[21,21]],[[22,22],[178,22],[178,178],[22,178],[22,22]],[[23,23],[177,23],[177,177],[23,177],[23,23]],[[24,24],[176,24],[176,176],[24,176],[24,24]],[[25,25],[175,25],[175,175],[25,175],[25,25]],[[26,26],[174,26],[174,174],[26,174],[26,26]],[[27,27],[173,27],[173,173],[27,173],[27,27]],[[28,28],[172,28],[172,172],[28,172],[28,28]],[[29,29],[171,29],[171,171],[29,171],[29,29]],[[30,30],[170,30],[170,170],[30,170],[30,30]],[[31,31],[169,31],[169,169],[31,169],[31,31]],[[32,32],[168,32],[168,168],[32,168],[32,32]],[[33,33],[167,33],[167,167],[33,167],[33,33]],[[34,34],[166,34],[166,166],[34,166],[34,34]],[[35,35],[165,35],[165,165],[35,165],[35,35]],[[36,36],[164,36],[164,164],[36,164],[36,36]],[[37,37],[163,37],[163,163],[37,163],[37,37]],[[38,38],[162,38],[162,162],[38,162],[38,38]],[[39,39],[161,39],[161,161],[39,161],[39,39]],[[40,40],[160,40],[160,160],[40,160],[40,40]],[[41,41],[159,41],[159,159],[41,159],[41,41]],[[42,42],[158,42],[158,158],[42,158],[42,42]],[[43,43],[157,43],[157,157],[43,157],[43,43]],[[44,44],[156,44],[156,156],[44,156],[44,44]],[[45,45],[155,45],[155,155],[45,155],[45,45]],[[46,46],[154,46],[154,154],[46,154],[46,46]],[[47,47],[153,47],[153,153],[47,153],[47,47]],[[48,48],[152,48],[152,152],[48,152],[48,48]],[[49,49],[151,49],[151,151],[49,151],[49,49]],[[50,50],[150,50],[150,150],[50,150],[50,50]],[[51,51],[149,51],[149,149],[51,149],[51,51]],[[52,52],[148,52],[148,148],[52,148],[52,52]],[[53,53],[147,53],[147,147],[53,147],[53,53]],[[54,54],[146,54],[146,146],[54,146],[54,54]],[[55,55],[145,55],[145,145],[55,145],[55,55]],[[56,56],[144,56],[144,144],[56,144],[56,56]],[[57,57],[143,57],[143,143],[57,143],[57,57]],[[58,58],[142,58],[142,142],[58,142],[58,58]],[[59,59],[141,59],[141,141],[59,141],[59,59]],[[60,60],[140,60],[140,140],[60,140],[60,60]],[[61,61],[139,61],[139,139],[61,139],[61,61]],[[62,62],[138,62],[138,138],[62,138],[62,62]],[[63,63],[137,63],[137,137],[63,137],[63,63]],[[64,64],[136,64],[136,136],[64,136],[64,64]],[[65,65],[135,65],[135,135],[65,135],[65,65]],[[66,66],[134,66],[134,134],[66,134],[66,66]],[[67,67],[133,67],[133,133],[67,133],[67,67]],[[68,68],[132,68],[132,132],[68,132],[68,68]],[[69,69],[131,69],[131,131],[69,131],[69,69]]]}"#;

/// A feature of two triangles.
pub(crate) const TWO_POLYGONS: &str =
    r#"{"type":"Topology","objects":{"land":{"type":"MultiPolygon","arcs":[[[0]],[[1]]]}},"arcs":[[[0,0],[4,0],[0,4],[0,0]],[[20,0],[24,0],[20,4],[20,0]]]}"#;

/// A map in a tree.
pub(crate) type TreeMap = Map<'static, TreeIndex>;

/// The map of what was read.
fn built(alloc: Global, seed: RandomState, raw: RawDoc<'static>) -> Option<TreeMap>
    requires { IsOfRings (view_raw raw) }
{
    let index = TreeIndex::new(alloc, raw.extent());
    Map::build(alloc, alloc, seed, raw, index).ok()
}

/// The map of a text that opens, where there is memory.
pub(crate) fn map_of(alloc: Global, text: &'static str) -> Option<TreeMap> {
    let seed = fixed_seed()?;
    match read(alloc, alloc, seed, text.as_bytes()) {
        Ok(raw) => built(alloc, seed, raw),
        Err(_) => None,
    }
}
