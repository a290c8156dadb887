//! What `--help` says.

/// What the program does.
pub(crate) const ABOUT: &str = "Draws a TopoJSON map, or what an edit did to it, as an SVG picture";

/// What is drawn, the statuses, and two examples. They are those of docs/FORMATS.md.
pub(crate) const LINES: &str = "\
With MAP alone the picture has its features, and where borders cross the first two segments that do.
With AFTER it has the borders that are gone and new, the changed features, and a list of their areas.

Status: 0 FILE holds the picture; 1 no feature, or several, are what --feature names; 2 a map can't
be read; 3 a file or memory failed; 64 the arguments are wrong. FILE is unchanged unless it is 0.

Examples:
  border_show map.json --ids --out map.svg
  border_show before.json after.json --feature 1206 --out change.svg";

// What each argument asks for.
pub(crate) const MAP: &str = "The TopoJSON map to draw; the one before the edit if AFTER is given";

pub(crate) const AFTER: &str = "The map after an edit: the picture shows what the edit did";

pub(crate) const OUT: &str = "Write the picture in this file";

pub(crate) const AT: &str =
    "Draw a square of this width about the position X Y, in units of the grid";

pub(crate) const FEATURE: &str =
    "Draw the surroundings of the feature with this id, or, if no id is ID, with this number";

pub(crate) const IDS: &str = "Write the number and the id of each feature in it";
