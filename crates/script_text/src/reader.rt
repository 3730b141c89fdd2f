ghost use Rattle.std.specs.Prelude.{◌≡◌, ◌<◌, IfOk, length};
ghost use Rattle.script_text.specs.Grammar.{reading, whole};
ghost use Rattle.script_text.specs.Reading.{Gives, GivesAs};
ghost use Rattle.script_text.specs.Rules.{column_form, columns_form, coordinate_form, corner_form};
ghost use Rattle.script_text.specs.Rules.{field_form, kind_form, op_form, place_form, places_form, plain_form, rect_form};
ghost use Rattle.script_text.specs.Rules.{shape_form, spatial_form, spot_form, spots_form, test_form, tests_form, value_form, values_form};
ghost use Rattle.script_text.specs.Rules.{is_ordered, is_ring, point_or_segment_form, polygon, polygon_form, way_form, within_form};

use crate::cursor::Cursor;
use crate::stuck::Stuck;
use crate::token::Symbol;
use crate::{Column, MOST_WITHIN, Op, Place, Test};
use sand_base::{COORDINATE_BITS, Kind, Label, Point, Rect, Ring, Segment, Shape, Value};
use std::alloc::Global;

// Whether the low corner is at most the high one.
fn is_ordered(window: &Rect) -> bool
    ensures { result ≡ is_ordered window.now }
{
    window.low.x <= window.high.x && window.low.y <= window.high.y
}

// The polygon with this border, and whether it can be one; else a point stands for it.
fn polygon(corners: Vec<Point>) -> (Shape, bool)
    ensures shape { result.0 ≡ polygon corners.items }
    ensures can { result.1 ≡ is_ring corners.items }
{
    match Ring::new(corners) {
        Ok(ring) => (Shape::Polygon(ring), true),
        Err(_) => (Shape::Point(Point { x: 0, y: 0 }), false),
    }
}

impl<'t> Cursor<'t> {
    /// Reads `relation.column`.
    pub fn column(&mut self, alloc: Global) -> Result<Column, Stuck>
        ensures { Gives (reading column_form) self.old self.new result }
    {
        let relation = self.name(alloc)?;
        self.mark(Symbol::Dot)?;
        let column = self.name(alloc)?;
        Ok(Column { relation, column })
    }

    /// Reads `k.column`.
    pub fn place(&mut self, alloc: Global) -> Result<Place, Stuck>
        ensures { Gives (reading place_form) self.old self.new result }
    {
        let k = self.natural(1, 255)?;
        self.mark(Symbol::Dot)?;
        let column = self.name(alloc)?;
        Ok(Place { k, column })
    }

    // Reads a coordinate.
    fn coordinate(&mut self) -> Result<u32, Stuck>
        ensures { Gives (reading coordinate_form) self.old self.new result }
    {
        self.natural(0, (1 << COORDINATE_BITS) - 1)
    }

    /// Reads `(x y)`.
    pub fn spot(&mut self) -> Result<Point, Stuck>
        ensures gives { Gives (reading spot_form) self.old self.new result }
        ensures falls { IfOk result (λ _. length self.new.left < length self.old.left) }
    {
        self.mark(Symbol::Open)?;
        let x = self.coordinate()?;
        let y = self.coordinate()?;
        self.mark(Symbol::Close)?;
        Ok(Point { x, y })
    }

    // Reads what may follow a spot: a minus and another one.
    fn way(&mut self) -> Result<Option<Point>, Stuck>
        ensures { Gives (reading way_form) self.old self.new result }
    {
        if !self.accept_mark(Symbol::Minus) {
            return Ok(None);
        }
        let b = self.spot()?;
        Ok(Some(b))
    }

    // Reads the spots of a polygon.
    fn spots(&mut self, alloc: Global) -> Result<Vec<Point>, Stuck>
        ensures { GivesAs (λ list. list.items) (reading spots_form) self.old self.new result }
    {
        let mut items = Vec::new(alloc);
        'spots: loop {
            items.push(self.spot()?)?;
            if !self.is_mark(Symbol::Open) {
                return Ok(items);
            }
        }
    }

    // Reads a point or a segment, after its first bracket.
    fn point_or_segment(&mut self) -> Result<Shape, Stuck>
        ensures { Gives (reading point_or_segment_form) self.old self.new result }
    {
        let x = self.coordinate()?;
        let y = self.coordinate()?;
        self.mark(Symbol::Close)?;
        match self.way()? {
            None => Ok(Shape::Point(Point { x, y })),
            Some(b) => Ok(Shape::Segment(Segment {
                a: Point { x, y },
                b,
            })),
        }
    }

    // Reads a polygon, after its first bracket.
    fn polygon(&mut self, alloc: Global) -> Result<Shape, Stuck>
        ensures { Gives (reading polygon_form) self.old self.new result }
    {
        let corners = self.spots(alloc)?;
        let (shape, is_ring) = polygon(corners);
        self.note(is_ring);
        self.mark(Symbol::Close)?;
        Ok(shape)
    }

    /// Reads a shape.
    pub fn shape(&mut self, alloc: Global) -> Result<Shape, Stuck>
        ensures { Gives (reading shape_form) self.old self.new result }
    {
        self.mark(Symbol::Open)?;
        if self.is_number() {
            return self.point_or_segment();
        }
        self.polygon(alloc)
    }

    /// Reads a shape, which is all that is left.
    #[tactic(auto, unfolding(crate::specs::Grammar::whole))]
    pub fn whole_shape(&mut self, alloc: Global) -> Result<Shape, Stuck>
        ensures { Gives (whole shape_form) self.old self.new result }
    {
        let shape = self.shape(alloc)?;
        self.end()?;
        Ok(shape)
    }

    /// Reads an int or a text.
    pub fn plain(&mut self, alloc: Global) -> Result<Value, Stuck>
        ensures { Gives (reading plain_form) self.old self.new result }
    {
        if self.is_number() {
            let number = self.int()?;
            return Ok(Value::Int(number));
        }
        let text = self.text(alloc)?;
        Ok(Value::Text(text))
    }

    // Reads a value.
    fn value(&mut self, alloc: Global) -> Result<Value, Stuck>
        ensures { Gives (reading value_form) self.old self.new result }
    {
        if self.is_number() {
            let number = self.int()?;
            return Ok(Value::Int(number));
        }
        if self.is_text() {
            let text = self.text(alloc)?;
            return Ok(Value::Text(text));
        }
        let shape = self.shape(alloc)?;
        Ok(Value::Shape(shape))
    }

    /// Reads the values of a row.
    pub fn values(&mut self, alloc: Global) -> Result<Vec<Value>, Stuck>
        ensures { GivesAs (λ list. list.items) (reading values_form) self.old self.new result }
    {
        let mut items = Vec::new(alloc);
        'values: loop {
            items.push(self.value(alloc)?)?;
            if !self.accept_mark(Symbol::Comma) {
                return Ok(items);
            }
        }
    }

    // Reads the word of a kind that shapes have.
    fn spatial_kind(&mut self) -> Result<Kind, Stuck>
        ensures { Gives (reading spatial_form) self.old self.new result }
    {
        if self.accept_word("point") {
            return Ok(Kind::Point);
        }
        if self.accept_word("segment") {
            return Ok(Kind::Segment);
        }
        self.word("polygon")?;
        Ok(Kind::Polygon)
    }

    // Reads the word of a kind.
    fn kind(&mut self) -> Result<Kind, Stuck>
        ensures { Gives (reading kind_form) self.old self.new result }
    {
        if self.accept_word("int") {
            return Ok(Kind::Int);
        }
        if self.accept_word("text") {
            return Ok(Kind::Text);
        }
        self.spatial_kind()
    }

    // Reads a column's name and its kind.
    fn field(&mut self, alloc: Global) -> Result<(Label, Kind), Stuck>
        ensures { Gives (reading field_form) self.old self.new result }
    {
        let name = self.name(alloc)?;
        let kind = self.kind()?;
        Ok((name, kind))
    }

    /// Reads the columns of a relation.
    pub fn columns(&mut self, alloc: Global) -> Result<Vec<(Label, Kind)>, Stuck>
        ensures { GivesAs (λ list. list.items) (reading columns_form) self.old self.new result }
    {
        let mut items = Vec::new(alloc);
        'columns: loop {
            items.push(self.field(alloc)?)?;
            if !self.accept_mark(Symbol::Comma) {
                return Ok(items);
            }
        }
    }

    // Reads how a test compares.
    fn op(&mut self) -> Result<Op, Stuck>
        ensures { Gives (reading op_form) self.old self.new result }
    {
        if self.accept_mark(Symbol::Equal) {
            return Ok(Op::Equal);
        }
        if self.accept_mark(Symbol::NotEqual) {
            return Ok(Op::NotEqual);
        }
        if self.accept_mark(Symbol::Less) {
            return Ok(Op::Less);
        }
        if self.accept_mark(Symbol::AtMost) {
            return Ok(Op::AtMost);
        }
        if self.accept_mark(Symbol::Greater) {
            return Ok(Op::Greater);
        }
        self.mark(Symbol::AtLeast)?;
        Ok(Op::AtLeast)
    }

    // Reads a test.
    fn test(&mut self, alloc: Global) -> Result<Test, Stuck>
        ensures { Gives (reading test_form) self.old self.new result }
    {
        let place = self.place(alloc)?;
        let op = self.op()?;
        let value = self.plain(alloc)?;
        Ok(Test { place, op, value })
    }

    /// Reads the tests of a `filter`.
    pub fn tests(&mut self, alloc: Global) -> Result<Vec<Test>, Stuck>
        ensures { GivesAs (λ list. list.items) (reading tests_form) self.old self.new result }
    {
        let mut items = Vec::new(alloc);
        'tests: loop {
            items.push(self.test(alloc)?)?;
            if !self.accept_word("and") {
                return Ok(items);
            }
        }
    }

    /// Reads the places of a `fetch`.
    pub fn places(&mut self, alloc: Global) -> Result<Vec<Place>, Stuck>
        ensures { GivesAs (λ list. list.items) (reading places_form) self.old self.new result }
    {
        let mut items = Vec::new(alloc);
        'places: loop {
            items.push(self.place(alloc)?)?;
            if !self.accept_mark(Symbol::Comma) {
                return Ok(items);
            }
        }
    }

    /// Reads `within` and a distance, where they stand.
    pub fn within(&mut self) -> Result<Option<u32>, Stuck>
        ensures { Gives (reading within_form) self.old self.new result }
    {
        if !self.accept_word("within") {
            return Ok(None);
        }
        let distance = self.natural(0, MOST_WITHIN)?;
        Ok(Some(distance))
    }

    // Reads a corner of a window.
    fn corner(&mut self) -> Result<Point, Stuck>
        ensures { Gives (reading corner_form) self.old self.new result }
    {
        let x = self.coordinate()?;
        let y = self.coordinate()?;
        Ok(Point { x, y })
    }

    /// Reads a window.
    pub fn rect(&mut self) -> Result<Rect, Stuck>
        ensures { Gives (reading rect_form) self.old self.new result }
    {
        let low = self.corner()?;
        let high = self.corner()?;
        let window = Rect { low, high };
        self.note(is_ordered(&window));
        Ok(window)
    }
}
