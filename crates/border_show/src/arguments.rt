//! What the arguments of the program ask for.

use map_drawing::Window;
use program_ends::{FileArgument, Role};

/// The part of a map that is drawn.
#[derive(Drop)]
pub enum Part {
    /// All of it.
    Whole,
    /// A part of the grid.
    Square(Window),
    /// The surroundings of the feature that this text names.
    Feature(String),
}

/// What the arguments of the program ask for.
#[derive(Drop)]
pub struct Arguments {
    /// The path of the map, or of the map before an edit.
    pub before: String,
    /// The path of the map after an edit.
    pub after: Option<String>,
    /// The path of the file that the picture is written in.
    pub out: String,
    /// The part that is drawn.
    pub part: Part,
    /// Whether numbers and ids are written in the features.
    pub has_ids: bool,
}

impl Arguments {
    /// The files that the arguments name, the one that is written first.
    pub(crate) fn files(&self) -> [FileArgument<'_>; 3] {
        [
            FileArgument {
                argument: "--out",
                path: Some(self.out.as_str()),
                role: Role::Written,
            },
            FileArgument {
                argument: "MAP",
                path: Some(self.before.as_str()),
                role: Role::Read,
            },
            FileArgument {
                argument: "AFTER",
                path: self.after.as_ref().map(|path| path.as_str()),
                role: Role::Read,
            },
        ]
    }
}
