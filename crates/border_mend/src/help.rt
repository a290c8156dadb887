//! What `--help` says.

/// What the program does.
pub(crate) const ABOUT: &str =
    "Lists every problem that keeps a map from opening in border_edit, and repairs it; makes maps of GeoJSON";

/// The lines of the report, the statuses, and examples. They are those of docs/MENDING.md.
pub(crate) const LINES: &str = "\
Lines of the report, in this order (F P R is ring R of polygon P of feature F, numbered from 0;
X Y is a position on the grid):
  opens                    The map opens as it is
  geojson                  MAP is GeoJSON, of which --out makes a TopoJSON map
  decimals D digits K rounded N
                           Coordinates have up to D decimals, the grid has K of them (--digits), and
                           N positions were rounded
  heights N                N positions had further numbers, which were left out (--drop heights)
  lines N                  N lines were left out (--drop lines)
  short F P R              The ring has fewer than three positions
  repeats F P R X Y        The ring passes the position more than once
  on X Y / X1 Y1 X2 Y2     The vertex lies on the segment and is not one of its ends
  cross X1 Y1 X2 Y2 / X3 Y3 X4 Y4
                           The segments cross
  counts short N repeats N on N cross N
                           How many there are of each, whatever --most is

With --out these lines come before the last one, which then also has paths N parts N areas N:
  path X1 Y1 X2 Y2 .. XN YN
                           The segment from the first to the last position now follows these
  parts F P N              Polygon P of feature F is now N polygons (0: it bounded nothing)
  area F A B S             Twice the area of F was A and is B; its borders swept over at most S

Status: 0 the map opens, or with --out is saved; 1 it does not open, and the report says why; 2 it
is not a map that can be read or repaired; 3 a file or memory failed; 64 the arguments are wrong.

Examples:
  border_mend map.json --most 20 --places places.json
  border_mend map.json --out mended.json
  border_mend areas.geojson --out map.json
  border_mend map.json --digits 5 --out mended.json";

// What each argument asks for.
pub(crate) const MOST: &str =
    "The most lines of one kind in the report, from 0 to 4000000; 1000 by default";

pub(crate) const PLACES: &str =
    "Write the places of the problems to this file, as a topology of points and lines";

pub(crate) const OUT: &str =
    "Save the repaired map in this file; it may be MAP, unless that is GeoJSON";

pub(crate) const DIGITS: &str =
    "Keep at most K decimals of coordinates, from 0 to 24; by default all that fit";

pub(crate) const REFINE: &str =
    "Make the grid 10^K times as fine, K from 0 to 12, so that borders bend less";

pub(crate) const DROP: &str =
    "Leave out heights (further numbers of positions), lines, or heights,lines";
