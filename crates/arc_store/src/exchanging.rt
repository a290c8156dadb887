// Features exchanged in a map: what every edit of features goes through.
ghost use Rattle.std.specs.Prelude.{◌≡◌, ◌∷◌, [], true, Some, IfOk, OnOk, OnErr};
ghost use Rattle.edit_records.specs.Common.{had_before};
ghost use Rattle.ring_machine.specs.Common.{has_feature};
ghost use Rattle.ring_parts.specs.Common.{rings_seen, polygons_seen};
ghost use Rattle.feature_exchange.specs.Common.{seen};
ghost use Rattle.arc_store.specs.Exchanged.{MayExchange, exchanged_state, feature_with, part_of};

use crate::map::Map;
use feature_exchange::{Change, WholeFeature, count_changes, exchange_features, one_polygon};
use grid_geometry::Pos;
use segment_index::SegIndex;
use std::alloc::{AllocError, Allocator};

impl<'a, I: SegIndex, A: Allocator + Copy> Map<'a, I, A> {
    /// Feature `n` with these polygons in the place of its own. Fails only on allocation failure.
    pub(crate) fn with_polygons(
        &self,
        n: u32,
        polygons: Vec<Vec<Vec<Pos, A>, A>, A>,
    ) -> Result<Change<'a, A>, AllocError>
        requires { has_feature self.now.doc n ≡ true }
        ensures { IfOk result (λ change. seen (change ∷ [])
            ≡ (n, Some (feature_with self.now.doc n (polygons_seen polygons.items))) ∷ []) }
    {
        let Some(texts) = self.frame.texts(n)? else {
            unreachable!()
        };
        Ok(Change {
            number: n,
            was: Some(WholeFeature { texts, polygons }),
        })
    }

    /// A new Polygon of these rings under this number, with this id and the properties and unknown
    /// members of feature `n`. Fails only on allocation failure.
    pub(crate) fn part_of(
        &self,
        n: u32,
        number: u32,
        id: Vec<u8, A>,
        rings: Vec<Vec<Pos, A>, A>,
    ) -> Result<Change<'a, A>, AllocError>
        requires { has_feature self.now.doc n ≡ true }
        ensures { IfOk result (λ change. seen (change ∷ [])
            ≡ (number, Some (part_of self.now.doc n number id.items (rings_seen rings.items))) ∷ []) }
    {
        let Some(texts) = self.frame.texts(n)? else {
            unreachable!()
        };
        let polygons = one_polygon(self.rings.alloc, rings)?;
        Ok(Change {
            number,
            was: Some(WholeFeature {
                texts: texts.part(id),
                polygons,
            }),
        })
    }

    /// Gives the numbers of these changes the features that they name, each in the place of its number;
    /// where `after` is a feature, a new number comes directly after it first. Afterwards the changes
    /// have what was there. Fails only on allocation failure, and then changes nothing.
    pub(crate) fn exchange(
        &mut self,
        after: Option<u32>,
        changes: &mut [Change<'a, A>],
    ) -> Result<(), AllocError>
        requires { MayExchange after (seen changes.old) self.old }
        ensures exchanged { OnOk result (self.new ≡ exchanged_state after (seen changes.old) self.old) }
        ensures had { OnOk result (seen changes.new ≡ had_before self.old.doc (seen changes.old)) }
        ensures unchanged { OnErr result (self.new ≡ self.old) }
        ensures still { OnErr result (changes.new ≡ changes.old) }
    {
        let _ = self.frame.next(); // it tells where numbers stand
        let came = count_changes(changes);
        match exchange_features(&mut self.frame, &mut self.rings, after, changes) {
            Ok(()) => {}
            Err(e) => return Err(e),
        }
        let _ = self.frame.next(); // and where they stand now
        let gone = count_changes(changes);
        self.positions = self.positions + came - gone;
        Ok(())
    }
}
