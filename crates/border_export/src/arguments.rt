//! What the arguments of the program ask for.
ghost use Rattle.std.specs.Prelude.{◌≡◌, option_map, string_bytes};
ghost use Rattle.geo_text.specs.Common.{view_asked};
ghost use Rattle.border_export.specs.Asked.{wants_of};

use geo_text::Asked;
use program_ends::{FileArgument, Role};

/// What the arguments of the program ask for.
#[derive(Drop)]
pub struct Arguments {
    /// The path of the map.
    pub map: String,
    /// The path of the file that the text is written in.
    pub out: String,
    /// The name of the layer.
    pub layer: Option<String>,
    /// How many decimals coordinates have at the most.
    pub decimals: Option<usize>,
    /// Whether rings keep the direction that they have.
    pub keeps_winding: bool,
    /// Whether collections within the layer are taken apart.
    pub flattens: bool,
}

/// The text of a name.
fn text_of(name: &Option<String>) -> Option<&str>
    ensures { option_map (λ text. text.now) result ≡ option_map string_bytes name.now }
{
    match name {
        Some(text) => Some(text.as_str()),
        None => None,
    }
}

impl Arguments {
    /// What is asked of the text.
    pub(crate) fn asked(&self) -> Asked<'_>
        ensures { view_asked result ≡ wants_of self.now }
    {
        Asked {
            layer: text_of(&self.layer),
            decimals: self.decimals,
            keeps_winding: self.keeps_winding,
            flattens: self.flattens,
        }
    }

    /// The files that the arguments name, the one that is written first.
    pub(crate) fn files(&self) -> [FileArgument<'_>; 2] {
        [
            FileArgument {
                argument: "--out",
                path: Some(self.out.as_str()),
                role: Role::Written,
            },
            FileArgument {
                argument: "MAP",
                path: Some(self.map.as_str()),
                role: Role::Read,
            },
        ]
    }
}
