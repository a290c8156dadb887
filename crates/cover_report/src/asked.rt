//! What is asked of a report.

/// What is asked of a report.
#[derive(Clone, Copy, Debug)]
pub struct Asked<'w> {
    /// The names of the layers that are looked at; without one all are.
    pub layers: &'w [&'w str],
    /// The greatest width of a face that is told, in units.
    pub width: Option<u128>,
    /// The greatest area of one, twice as large.
    pub area: Option<u128>,
    /// How many lines of one kind the report has at most.
    pub most: usize,
}
