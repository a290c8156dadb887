// The picture of a map.
ghost use Rattle.std.specs.Prelude.{◌≡◌, ◌≤ℤ◌, ◌++◌, codes, pos, IfOk, IfSome, OnOk};
ghost use Rattle.map_drawing.specs.Marks.{IsNamedIn, NamesConflict};
ghost use Rattle.map_drawing.specs.Names.{AddsNames, AddsNamesAsked, IsLabelled, IsLabelledIn, IsNumberAndId};

use crate::fineness::{parts_for, positions_in};
use crate::labels::{Label, place_in, rows_inside};
use crate::layout::{Layout, MARGIN, ROW, WIDTH};
use crate::outlines::push_outline;
use crate::paths::push_rings;
use crate::points::Point;
use crate::rows::{Row, Stretch};
use crate::styles::prelude;
use crate::view::View;
use map_features::{
    Bounds, Shape, Units, Window, bounds_of, by_size, feature_number, number_and_id, shapes_of,
    shortened,
};
use std::alloc::{AllocError, Allocator, Global};
use svg_text::{
    close_group, close_picture, open_picture, open_view, push_attribute, push_escaped, push_words,
};
use topo_reader::RawDoc;

/// How far the line of the title is from the top.
const TITLE: i64 = 30;

/// The most bytes of a title that are shown, since the bar of length follows.
const MOST_TITLE: usize = 76;

/// How a feature or a border looks.
#[derive(Clone, Copy, PartialEq, Eq)]
pub(crate) enum Look {
    /// A feature of a map.
    Plain,
    /// A feature that an edit left as it was.
    Kept,
    /// A feature that an edit changed.
    Changed,
    /// A feature that an edit took away.
    Lost,
    /// Borders that an edit took away.
    Gone,
    /// Borders that an edit made.
    New,
    /// The outline of the feature that the view names.
    Named,
    /// Segments in conflict.
    Conflict,
}

impl Look {
    /// The name of its style, if it has one of its own.
    fn class(self) -> Option<&'static str> {
        match self {
            Look::Plain => None,
            Look::Kept => Some("kept"),
            Look::Changed => Some("changed"),
            Look::Lost => Some("lost"),
            Look::Gone => Some("gone"),
            Look::New => Some("new"),
            Look::Named => Some("named"),
            Look::Conflict => Some("conflict"),
        }
    }
}

/// A picture that grows.
#[derive(Drop)]
pub(crate) struct Picture<A: Allocator + Copy> {
    /// What holds all but decoded ids.
    pub(crate) alloc: A,
    /// What holds decoded ids.
    pub(crate) heap: Global,
    /// Whether all is drawn, and not a part alone.
    pub(crate) is_whole: bool,
    /// Where the part of the grid that is drawn lies, in hundredths of a pixel.
    pub(crate) layout: Layout,
    /// The same in the parts of a pixel in which features and borders are drawn.
    pub(crate) drawn: Layout,
    /// The text so far.
    pub(crate) text: Vec<u8, A>,
}

impl<A: Allocator + Copy> Picture<A> {
    /// A picture of what has these bounds, or of this part of the grid, with nothing in it.
    pub(crate) fn of_part(
        alloc: A,
        heap: Global,
        part: Option<Window>,
        bounds: Option<Bounds>,
        units: &Units,
    ) -> Picture<A> {
        let window = part.unwrap_or(Window::of(bounds));
        let layout = Layout::new(window, units.ratio);
        Picture {
            alloc,
            heap,
            is_whole: part.is_none(),
            layout,
            drawn: layout,
            text: Vec::new(alloc),
        }
    }

    /// How many positions of features are drawn.
    pub(crate) fn positions(&self, shapes: &[Shape<'_, A>]) -> usize {
        positions_in(&self.layout.window, shapes)
    }

    /// Draws features and borders as fine as so many positions may be drawn.
    pub(crate) fn draw_for(&mut self, positions: usize) {
        self.drawn = self.layout.with_parts(parts_for(positions));
    }

    /// Begins the picture, with a title and a bar of length above the map and so many lines of a list below.
    pub(crate) fn open(&mut self, units: &Units, title: &str, rows: i64) -> Result<(), AllocError>
        requires { (pos 0 ≤ℤ rows) × (rows ≤ℤ pos 104) }
    {
        let height = self.layout.first_line() + ROW * rows + MARGIN;
        open_picture(&mut self.text, WIDTH, height)?;
        self.text.extend_from_slice(prelude().as_bytes())?;
        let title = shortened(self.alloc, title.as_bytes(), MOST_TITLE)?;
        push_words(&mut self.text, "head", MARGIN, TITLE, title.as_slice())?;
        self.push_bar(units)?;
        self.open_map()
    }

    /// Begins the map.
    fn open_map(&mut self) -> Result<(), AllocError> {
        let (width, height) = (self.drawn.width(), self.drawn.height());
        open_view(&mut self.text, self.drawn.place, width, height)?;
        self.text.extend_from_slice(b"<rect class=\"gap\" width=\"100%\" height=\"100%\"/>\n<g")?;
        push_attribute(&mut self.text, "stroke-width", self.drawn.parts)?;
        self.text.extend_from_slice(b">\n")
    }

    /// Appends the name of a style as an attribute.
    fn push_class(&mut self, class: &str) -> Result<(), AllocError> {
        self.text.extend_from_slice(b" class=\"")?;
        self.text.extend_from_slice(class.as_bytes())?;
        self.text.extend_from_slice(b"\"")
    }

    /// Begins a path.
    pub(crate) fn open_path(&mut self, look: Look) -> Result<(), AllocError> {
        self.text.extend_from_slice(b"<path")?;
        match look.class() {
            Some(class) => self.push_class(class),
            None => Ok(()),
        }
    }

    /// Appends a feature, if the window shows some of it. Its number and its `id` are shown where one points
    /// at it.
    pub(crate) fn push_shape(
        &mut self,
        shape: &Shape<'_, A>,
        look: Look,
    ) -> Result<(), AllocError> {
        let window = self.layout.window;
        if let Some(bounds) = shape.bounds()
            && window.meets(&bounds)
        {
            let rings = self.outline(&self.drawn, shape)?;
            self.open_path(look)?;
            self.text.extend_from_slice(b" d=\"")?;
            push_rings(&mut self.text, rings.as_slice())?;
            self.text.extend_from_slice(b"\"><title>")?;
            let name = number_and_id(self.alloc, self.heap, shape)?;
            push_escaped(&mut self.text, name.as_slice())?;
            self.text.extend_from_slice(b"</title></path>\n")?;
        }
        Ok(())
    }

    /// The rings of a feature as they are drawn in a layout.
    pub(crate) fn outline(
        &self,
        layout: &Layout,
        shape: &Shape<'_, A>,
    ) -> Result<Vec<Vec<Point, A>, A>, AllocError> {
        let mut rings = Vec::new(self.alloc);
        push_outline(&mut rings, self.alloc, layout, shape.polygons)?;
        Ok(rings)
    }

    /// Appends the name of a feature at the place of a label, if it covers none of the labels so far.
    fn push_at(
        &mut self,
        label: Label,
        name: &[u8],
        labels: &mut Vec<Label, A>,
    ) -> Result<(), AllocError>
        requires { IsNumberAndId name.now }
        ensures { OnOk result (AddsNames self.old.text.items self.new.text.items) }
    {
        if label.is_free(labels.as_slice()) {
            let (x, y) = self.layout.pixel(label.base());
            push_words(&mut self.text, "name", x, y, name)?;
            labels.push(label)?;
            Ok(())
        } else {
            Ok(())
        }
    }

    /// Appends the number and the `id` of a feature in one of these rows, or the number alone, if there is room
    /// for it.
    fn push_within(
        &mut self,
        shape: &Shape<'_, A>,
        rows: &[(Row, Stretch)],
        labels: &mut Vec<Label, A>,
    ) -> Result<(), AllocError>
        ensures { OnOk result (AddsNames self.old.text.items self.new.text.items) }
    {
        let whole = number_and_id(self.alloc, self.heap, shape)?;
        let name = whole.as_slice();
        if let Some(label) = place_in(rows, name) {
            return self.push_at(label, name, labels);
        }
        let short = feature_number(self.alloc, shape)?;
        let number = short.as_slice();
        match place_in(rows, number) {
            Some(label) => self.push_at(label, number, labels),
            None => Ok(()),
        }
    }

    /// Appends the label of a feature.
    fn push_label(
        &mut self,
        shape: &Shape<'_, A>,
        labels: &mut Vec<Label, A>,
    ) -> Result<(), AllocError>
        ensures { OnOk result (AddsNames self.old.text.items self.new.text.items) }
    {
        let rings = self.outline(&self.layout, shape)?;
        let ends = Stretch {
            left: 0,
            right: self.layout.width(),
        };
        let height = self.layout.height();
        let rows = rows_inside(self.alloc, rings.as_slice(), ends, height)?;
        self.push_within(shape, rows.as_slice(), labels)
    }

    /// Appends the labels of features, the largest features first.
    fn push_labels(&mut self, shapes: &[Shape<'_, A>]) -> Result<(), AllocError>
        ensures { OnOk result (AddsNames self.old.text.items self.new.text.items) }
    {
        let shapes = by_size(self.alloc, shapes)?;
        let mut labels = Vec::new(self.alloc);
        for shape in &shapes {
            self.push_label(shape, &mut labels)?;
        }
        Ok(())
    }

    /// The same where labels are asked for, and else nothing.
    fn push_asked(&mut self, asked: bool, shapes: &[Shape<'_, A>]) -> Result<(), AllocError>
        ensures { OnOk result (AddsNamesAsked asked self.old.text.items self.new.text.items) }
    {
        if asked {
            self.push_labels(shapes)
        } else {
            Ok(())
        }
    }

    /// Ends the map, and appends what is written over it: the names of features where the view has
    /// them. What is in conflict is marked, and named in the first line below the map.
    pub(crate) fn close_map(
        &mut self,
        view: View,
        shapes: &[Shape<'_, A>],
    ) -> Result<(), AllocError>
        ensures named { OnOk result (IfSome view.conflict (λ c. NamesConflict c self.new.text.items)) }
        ensures labelled { OnOk result (IsLabelled view.has_ids view.conflict self.new.text.items) }
    {
        if let Some(number) = view.feature {
            self.push_named(shapes.get(number))?;
        }
        self.push_segments(view.conflict)?;
        close_group(&mut self.text)?;
        close_picture(&mut self.text)?;
        self.push_asked(view.has_ids, shapes)?;
        self.push_place(view.conflict)
    }

    /// Appends a map.
    fn push_map(
        &mut self,
        view: View,
        units: &Units,
        title: &str,
        shapes: &[Shape<'_, A>],
    ) -> Result<(), AllocError>
        ensures named { OnOk result (IfSome view.conflict (λ c. NamesConflict c self.new.text.items)) }
        ensures labelled { OnOk result (IsLabelled view.has_ids view.conflict self.new.text.items) }
    {
        self.open(units, title, 0)?;
        for shape in shapes {
            self.push_shape(shape, Look::Plain)?;
        }
        self.close_map(view, shapes)
    }

    /// Ends the picture, and answers its text.
    pub(crate) fn close(self) -> Result<Vec<u8, A>, AllocError>
        ensures { IfOk result (λ text. text.items ≡ self.text.items ++ codes "</svg>\n") }
    {
        let Picture { mut text, .. } = self;
        close_picture(&mut text)?;
        Ok(text)
    }

    /// A map as a whole picture.
    fn with_map(
        self,
        view: View,
        units: &Units,
        title: &str,
        shapes: &[Shape<'_, A>],
    ) -> Result<Vec<u8, A>, AllocError>
        ensures named { IfOk result (λ picture. IfSome view.conflict (IsNamedIn picture.items)) }
        ensures labelled { IfOk result (λ picture.
            IsLabelledIn picture.items view.has_ids view.conflict) }
    {
        let mut picture = self;
        picture.push_map(view, units, title, shapes)?;
        picture.close()
    }
}

/// The picture of a map under this title. The two segments in conflict that the view names are marked.
///
/// `heap` holds decoded ids; `alloc` all else. An error says that an allocation failed.
pub fn draw_map<A: Allocator + Copy>(
    alloc: A,
    heap: Global,
    map: &RawDoc<'_, A>,
    view: View,
    title: &str,
) -> Result<Vec<u8, A>, AllocError>
    ensures named { IfOk result (λ picture. IfSome view.conflict (IsNamedIn picture.items)) }
    ensures labelled { IfOk result (λ picture. IsLabelledIn picture.items view.has_ids view.conflict) }
{
    let shapes = shapes_of(alloc, map, map.polygons.as_slice())?;
    let bounds = bounds_of(None, shapes.as_slice());
    let units = Units::of(map.transform, bounds, view.part);
    let mut picture = Picture::of_part(alloc, heap, view.part, bounds, &units);
    let positions = picture.positions(shapes.as_slice());
    picture.draw_for(positions);
    picture.with_map(view, &units, title, shapes.as_slice())
}
