//! What `--help` says.

/// What the program does.
pub(crate) const ABOUT: &str = "Writes a layer of a TopoJSON map as GeoJSON";

/// What is written, the statuses, and examples. They are those of docs/MENDING.md and docs/FORMATS.md.
pub(crate) const LINES: &str = "\
Each feature is a line. Ids, properties and members that the editor does not know stand there as they do
in MAP. Every coordinate is the exact decimal, the same in each polygon that has the vertex; where the
transform makes long ones, as many decimals are written as keep each vertex on its side of each border.

Status: 0 FILE holds the layer; 2 MAP can't be read, or the layer not be written so; 3 a file or memory
failed; 64 the arguments are wrong. FILE is unchanged unless it is 0.

Examples:
  border_export map.json --out areas.geojson
  border_export map.json --layer land --decimals 6 --out land.geojson";

// What each argument asks for.
pub(crate) const MAP: &str = "The TopoJSON map";

pub(crate) const OUT: &str = "Write the layer in this file";

pub(crate) const LAYER: &str =
    "The layer with this name; without it MAP has to have a single layer";

pub(crate) const DECIMALS: &str = "Write at most K decimals, from 0 to 36";

pub(crate) const WINDING: &str =
    "With keep, rings keep their direction; else outer rings turn to the left and holes to the right";

pub(crate) const FLATTEN: &str =
    "Write each geometry within a collection of the layer as a feature of its own";
