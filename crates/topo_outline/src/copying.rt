//! Copies of what is kept, in memory of the same allocator. Texts are slices, and are shared.
ghost use Rattle.std.specs.Prelude.{◌≡◌};
ghost use Rattle.topo_outline.specs.Views.{view_head, view_item, view_layer};

use crate::document::{Head, Item, RawFeature, RawLayer};
use std::alloc::{AllocError, Allocator};

impl<'a, A: Allocator + Copy> Clone for Head<'a, A> {
    ghost is_clone = { λ head copy. view_head copy ≡ view_head head };

    fn clone(&self) -> Result<Head<'a, A>, AllocError> {
        Ok(Head {
            id: self.id,
            properties: self.properties,
            members: self.members.clone()?,
        })
    }
}

impl<'a, A: Allocator + Copy> Clone for RawFeature<'a, A> {
    ghost is_clone = { λ feature copy. (copy.form ≡ feature.form) × (view_head copy.head ≡ view_head feature.head) × (copy.arcs ≡ feature.arcs) };

    fn clone(&self) -> Result<RawFeature<'a, A>, AllocError> {
        Ok(RawFeature {
            form: self.form,
            head: self.head.clone()?,
            arcs: self.arcs,
        })
    }
}

impl<'a, A: Allocator + Copy> Clone for Item<'a, A> {
    ghost is_clone = { λ item copy. view_item copy ≡ view_item item };

    fn clone(&self) -> Result<Item<'a, A>, AllocError> {
        match self {
            Item::Open(head) => Ok(Item::Open(head.clone()?)),
            Item::Close => Ok(Item::Close),
            Item::Leaf(feature) => Ok(Item::Leaf(feature.clone()?)),
            Item::Kept(text) => Ok(Item::Kept(*text)),
        }
    }
}

impl<'a, A: Allocator + Copy> Clone for RawLayer<'a, A> {
    ghost is_clone = { λ layer copy. view_layer copy ≡ view_layer layer };

    fn clone(&self) -> Result<RawLayer<'a, A>, AllocError> {
        Ok(RawLayer {
            name: self.name,
            items: self.items.clone()?,
        })
    }
}
