//! What the words of the program ask for.
ghost use Rattle.std.specs.Prelude.{◌≡◌, ◌≤◌, IsTrue};

use mend_report::Asked;
use program_ends::{FileArgument, Role};

/// What the words of the program ask for.
#[derive(Drop)]
pub struct Words {
    /// The path of the map.
    pub map: String,
    /// The grid that its coordinates are put on, and how many lines of one kind the report has at most.
    pub asked: Asked,
    /// Whether lines (TopoJSON 1.0, 2.2.3 and 2.2.4) are left out.
    pub drop_lines: bool,
    /// The path of the file that the places are written in.
    pub places: Option<String>,
    /// The path of the file that the mended map is saved in.
    pub out: Option<String>,
    ghost most_lines: { asked.most ≤ 4000000 },
}

impl Words {
    /// Whether they ask nothing that a map which opens in the editor has not as it is: neither a finer grid
    /// nor a text without lines, nor places.
    pub(crate) fn take_as_is(&self) -> bool
        ensures { IsTrue result → self.now.asked.grid.finer ≡ 0 }
    {
        self.asked.grid.finer == 0 && !self.drop_lines && self.places.is_none()
    }

    /// The files that the words name, those that are written first. MAP is used so.
    pub(crate) fn files(&self, map: Role) -> [FileArgument<'_>; 3] {
        [
            FileArgument {
                argument: "--places",
                path: self.places.as_ref().map(|path| path.as_str()),
                role: Role::Written,
            },
            FileArgument {
                argument: "--out",
                path: self.out.as_ref().map(|path| path.as_str()),
                role: Role::Saved,
            },
            FileArgument {
                argument: "MAP",
                path: Some(self.map.as_str()),
                role: map,
            },
        ]
    }
}
