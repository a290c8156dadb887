// Copies of a frame, in memory of the same allocator. Texts that were read are slices, and are
// shared.
ghost use Rattle.std.specs.Prelude.{◌≡◌, IfOk};

use crate::feature::Feature;
use crate::tables::{Frame, Geometry, Layer, Slot, Tables};
use std::alloc::{AllocError, Allocator};

impl<'a, A: Allocator + Copy> Clone for Feature<'a, A> {
    ghost use Rattle.std.specs.Prelude.{◌≡◌};
    ghost use Rattle.map_frame.specs.Copied.{seen};

    ghost is_clone = { λ feature copy. seen copy ≡ seen feature };

    fn clone(&self) -> Result<Feature<'a, A>, AllocError> {
        Ok(Feature {
            texts: self.texts.clone()?,
            polygons: self.polygons.clone()?,
        })
    }
}

impl<'a, A: Allocator + Copy> Clone for Slot<'a, A> {
    ghost use Rattle.std.specs.Prelude.{◌≡◌};
    ghost use Rattle.map_frame.specs.Copied.{slot_text};

    ghost is_clone = { λ slot copy. slot_text copy ≡ slot_text slot };

    fn clone(&self) -> Result<Slot<'a, A>, AllocError> {
        match self {
            Slot::Open(head) => Ok(Slot::Open(head.clone()?)),
            Slot::Close => Ok(Slot::Close),
            Slot::Kept(text) => Ok(Slot::Kept(*text)),
            Slot::Leaves(numbers) => Ok(Slot::Leaves(numbers.clone()?)),
        }
    }
}

impl<'a, A: Allocator + Copy> Clone for Geometry<'a, A> {
    ghost use Rattle.std.specs.Prelude.{◌≡◌};
    ghost use Rattle.map_frame.specs.Copied.{geometry_text};

    ghost is_clone = { λ geometry copy. geometry_text copy ≡ geometry_text geometry };

    fn clone(&self) -> Result<Geometry<'a, A>, AllocError> {
        match self {
            Geometry::Alone(number) => Ok(Geometry::Alone(*number)),
            Geometry::Items(slots) => Ok(Geometry::Items(slots.clone()?)),
        }
    }
}

impl<'a, A: Allocator + Copy> Clone for Layer<'a, A> {
    ghost use Rattle.std.specs.Prelude.{◌≡◌};
    ghost use Rattle.map_frame.specs.Copied.{layer_text};

    ghost is_clone = { λ layer copy. layer_text copy ≡ layer_text layer };

    fn clone(&self) -> Result<Layer<'a, A>, AllocError> {
        Ok(Layer {
            name: self.name,
            geometry: self.geometry.clone()?,
        })
    }
}

impl<'a, A: Allocator + Copy> Frame<'a, A> {
    /// The same document with the same next number. Fails only on allocation failure.
    pub fn copy(&self) -> Result<Frame<'a, A>, AllocError>
        ensures { IfOk result (λ copy. copy ≡ self.now) }
    {
        let tables = &self.tables;
        let layers = tables.layers.clone()?;
        let members = tables.members.clone()?;
        let features = tables.features.clone()?;
        let stands = Vec::from_slice(tables.alloc, tables.stands.as_slice())?;
        let names = Vec::from_slice(tables.alloc, tables.names.as_slice())?;
        let empty = tables.empty.clone()?;
        Ok(Frame {
            tables: Tables {
                alloc: tables.alloc,
                transform: tables.transform,
                layers,
                members,
                features,
                stands,
                count: tables.count,
                names,
                empty,
            },
        })
    }
}
