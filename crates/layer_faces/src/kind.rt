// The kinds of faces.
ghost use Rattle.std.specs.Prelude.{◌≡◌};
ghost use Rattle.layer_faces.specs.Faces as faces;
ghost use Rattle.layer_faces.specs.Sums as sums;
ghost use Rattle.layer_faces.specs.Weighed as weighed;

/// The kind of a face.
#[derive(Clone, Copy, Debug, PartialEq, Eq)]
pub enum Kind {
    /// Two features or more hold it.
    Overlap,
    /// Two polygons or more of one feature hold it, and no other feature.
    Twice,
    /// No polygon holds it, and two features or more are beside it.
    Gap,
    /// No polygon holds it, and one feature alone is beside it.
    Lake,
    /// One polygon holds it.
    Land,
    /// The face around all others, which no polygon holds.
    Outside,
}

/// The kind of a face, from the polygons that hold it and the features that are reported for it.
pub(crate) fn kind_of(holders: &[u32], features: &[usize]) -> Kind
    ensures { result ≡ faces.kind_of holders.now features.now }
{
    match holders {
        [] if features.len() == 1 => Kind::Lake,
        [] => Kind::Gap,
        [_] => Kind::Land,
        _ if features.len() == 1 => Kind::Twice,
        _ => Kind::Overlap,
    }
}

/// Whether no polygon holds a face of this kind, and it is not the outside.
pub(crate) fn is_gap(kind: Kind) -> bool
    ensures { result ≡ sums.is_gap kind }
{
    match kind {
        Kind::Gap | Kind::Lake => true,
        Kind::Overlap | Kind::Twice | Kind::Land | Kind::Outside => false,
    }
}

/// Whether it is the kind of the outside.
pub(crate) fn is_outside(kind: Kind) -> bool
    ensures { result ≡ faces.is_outside kind }
{
    match kind {
        Kind::Outside => true,
        Kind::Overlap | Kind::Twice | Kind::Gap | Kind::Lake | Kind::Land => false,
    }
}

/// Whether some polygon holds a face of this kind.
pub(crate) fn is_land(kind: Kind) -> bool
    ensures { result ≡ weighed.is_land kind }
{
    !is_gap(kind) && !is_outside(kind)
}
