// A feature with the numbers of its rings, and where a feature stands.
ghost use Rattle.std.specs.Prelude.{◌≡◌, Some, map, option_map};
ghost use Rattle.ring_machine.specs.Common.{Polygon};
ghost use Rattle.topo_outline.specs.Common.{form_of, view_head, view_kept};
ghost use Rattle.map_frame.specs.Texts.{read_texts};

use std::alloc::{AllocError, Allocator, Global};
use std::marker::Model;
use std::mem;
use topo_outline::{Form, Head, KeptMember};

/// Where the text of an `id` comes from.
#[derive(Clone, Drop)]
pub(crate) enum IdSource<'a, A: Allocator + Copy = Global> {
    /// As it was read, or none.
    Read(Option<&'a [u8]>),
    /// Given to the feature since.
    Given(Vec<u8, A>),
}

/// The text of `id`, any JSON value (TopoJSON 1.0, 2.2). It is seen as this text, and as none where
/// there is no `id`.
#[derive(Clone, Drop)]
pub struct Id<'a, A: Allocator + Copy = Global> {
    source: IdSource<'a, A>,
}

impl<'a, A: Allocator + Copy> Model for Id<'a, A> {
    ghost use Rattle.std.specs.Prelude.{Option};
    ghost use Rattle.ring_machine.specs.Document.{Text};
    ghost use Rattle.map_frame.specs.Ids.{view_id};

    ghost Value = { Option Text };

    ghost view = { λ id. view_id id.source };
}

impl<'a, A: Allocator + Copy> Id<'a, A> {
    /// The `id` with this text, a JSON value (RFC 8259, 3).
    pub fn given(text: Vec<u8, A>) -> Id<'a, A>
        ensures { result ≡ Some text.items }
    {
        Id {
            source: IdSource::Given(text),
        }
    }

    /// The text, and none where there is no `id`.
    pub(crate) fn text(&self) -> Option<&[u8]>
        ensures { option_map (λ t. t.now) result ≡ self.now }
    {
        match &self.source {
            IdSource::Read(text) => *text,
            IdSource::Given(text) => Some(text.as_slice()),
        }
    }
}

/// What a feature has beside its number and its rings. It is seen as its texts and its form.
#[derive(Drop)]
pub struct FeatureTexts<'a, A: Allocator + Copy = Global> {
    pub(crate) id: Id<'a, A>,
    pub(crate) form: Form,
    /// The text of `properties`, any JSON value.
    pub(crate) properties: Option<&'a [u8]>,
    /// The members that are neither known nor a `bbox`, in order.
    pub(crate) members: Vec<KeptMember<'a>, A>,
}

impl<'a, A: Allocator + Copy> Model for FeatureTexts<'a, A> {
    ghost use Rattle.std.specs.Prelude.{map, option_map};
    ghost use Rattle.topo_outline.specs.Views.{form_of, view_kept};
    ghost use Rattle.map_frame.specs.Texts.{Texts};

    ghost Value = { Texts };

    ghost view = { λ t. record {
      id = t.id;
      form = form_of t.form;
      properties = option_map (λ x. x.now) t.properties;
      members = map view_kept t.members.items;
    } };
}

impl<'a, A: Allocator + Copy> FeatureTexts<'a, A> {
    /// The texts that were read of a feature.
    pub(crate) fn read(form: Form, head: Head<'a, A>) -> FeatureTexts<'a, A>
        ensures { result ≡ read_texts (form_of form) (view_head head.entry) }
    {
        FeatureTexts {
            id: Id {
                source: IdSource::Read(head.id),
            },
            form,
            properties: head.properties,
            members: head.members,
        }
    }

    /// What a new Polygon has that is a part of this feature: this id, a JSON value (RFC 8259, 3), and
    /// the same properties and unknown members.
    pub fn part(self, id: Vec<u8, A>) -> FeatureTexts<'a, A>
        ensures { result ≡ record self.entry { id = Some id.items; form = Polygon } }
    {
        FeatureTexts {
            id: Id::given(id),
            form: Form::Polygon,
            properties: self.properties,
            members: self.members,
        }
    }

    /// Gives it this id, and hands out the one that it had.
    pub(crate) fn give_id(&mut self, id: Id<'a, A>) -> Id<'a, A>
        ensures given { self.new ≡ record self.old { id = id.entry } }
        ensures old { result ≡ self.old.id }
    {
        mem::replace(&mut self.id, id)
    }
}

impl<'a, A: Allocator + Copy> Clone for FeatureTexts<'a, A> {
    ghost use Rattle.std.specs.Prelude.{◌≡◌};

    ghost is_clone = { λ texts copy. copy ≡ texts };

    fn clone(&self) -> Result<FeatureTexts<'a, A>, AllocError> {
        Ok(FeatureTexts {
            id: self.id.clone()?,
            form: self.form,
            properties: self.properties,
            members: self.members.clone()?,
        })
    }
}

/// A feature with the numbers of its rings.
#[derive(Drop)]
pub(crate) struct Feature<'a, A: Allocator + Copy = Global> {
    pub(crate) texts: FeatureTexts<'a, A>,
    /// The polygons, each by the number of its outer ring and those of its holes.
    pub(crate) polygons: Vec<Vec<usize, A>, A>,
}

/// Where the feature with a number stands, also once it was taken out.
#[derive(Clone, Copy, Drop)]
pub(crate) struct Stand {
    /// The number of its layer.
    pub(crate) layer: usize,
    /// The number of its slot in that layer, 0 where it is alone.
    pub(crate) slot: usize,
}
