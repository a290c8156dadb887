// What a picture is to show.
use map_features::{Conflict, Window};

/// What is drawn of a map, and how.
#[derive(Clone, Copy)]
pub struct View {
    /// The part that is drawn; all of it where there is none.
    pub part: Option<Window>,
    /// Whether numbers and ids are written in the features.
    pub has_ids: bool,
    /// The number of the feature whose outline is drawn over the map.
    pub feature: Option<usize>,
    /// Two segments in conflict, which are marked.
    pub conflict: Option<Conflict>,
}
