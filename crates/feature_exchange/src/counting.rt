// How many positions there are in features that are exchanged.
ghost use Rattle.std.specs.Prelude.{◌≡◌, ◌<◌, ◌^◌, option_map};
ghost use Rattle.edit_records.specs.Common.{weight, weights};
ghost use Rattle.feature_exchange.specs.Changed.{feature_seen, seen};

use crate::change::{Change, WholeFeature};
use ring_parts::count_all;
use std::alloc::Allocator;

/// How many positions the rings of a feature have; none where there is none.
fn count_feature<'a, A: Allocator + Copy>(was: &Option<WholeFeature<'a, A>>) -> usize
    requires { weight (option_map (feature_seen 0) was.now) < 2 ^ 64 }
    ensures { result ≡ weight (option_map (feature_seen 0) was.now) }
{
    match was {
        Some(whole) => count_all(whole.polygons.as_slice()),
        None => 0,
    }
}

/// How many positions the rings of the features have that are in these changes.
pub fn count_changes<'a, A: Allocator + Copy>(changes: &[Change<'a, A>]) -> usize
    requires { weights (seen changes.now) < 2 ^ 64 }
    ensures { result ≡ weights (seen changes.now) }
{
    let mut count = 0;
    for change in changes {
        count += count_feature(&change.was);
    }
    count
}
