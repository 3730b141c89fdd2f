ghost use Rattle.std.specs.Prelude.{◌≡◌, IfOk, codes};
ghost use Rattle.script_text.specs.Page.{with_pieces};
ghost use Rattle.script_text.specs.Printing.{comma, column_words, each, field_words, fixed, kind_word, list_words, more_words};
ghost use Rattle.script_text.specs.Printing.{op_symbol, place_words, shape_words, spot_words, test_words, value_words, within_words};

use crate::printer::Printer;
use crate::token::Symbol;
use crate::{Column, Op, Place, Test};
use sand_base::{Kind, Label, NoMemory, Point, Shape, Value};

// The word of a kind.
fn kind_word(kind: Kind) -> &'static str
    ensures { result.now ≡ kind_word kind }
{
    match kind {
        Kind::Int => "int",
        Kind::Text => "text",
        Kind::Point => "point",
        Kind::Segment => "segment",
        Kind::Polygon => "polygon",
    }
}

// The symbol by which a test compares.
fn op_symbol(op: Op) -> Symbol
    ensures { result ≡ op_symbol op }
{
    match op {
        Op::Equal => Symbol::Equal,
        Op::NotEqual => Symbol::NotEqual,
        Op::Less => Symbol::Less,
        Op::AtMost => Symbol::AtMost,
        Op::Greater => Symbol::Greater,
        Op::AtLeast => Symbol::AtLeast,
    }
}

#[tactic(auto, using(crate::proofs::Pages::put_append), unfolding(crate::specs::Page::with_pieces))]
impl Printer {
    /// Writes `relation.column`.
    pub fn column(&mut self, column: &Column) -> Result<(), NoMemory>
        ensures { IfOk result (λ _. self.new ≡ with_pieces self.old (column_words column.now)) }
    {
        self.name(column.relation.as_str())?;
        self.mark(Symbol::Dot)?;
        self.name(column.column.as_str())?;
        Ok(())
    }

    /// Writes `k.column`.
    pub fn place(&mut self, place: &Place) -> Result<(), NoMemory>
        ensures { IfOk result (λ _. self.new ≡ with_pieces self.old (place_words place.now)) }
    {
        self.natural(place.k)?;
        self.mark(Symbol::Dot)?;
        self.name(place.column.as_str())?;
        Ok(())
    }

    /// Writes `(x y)`.
    pub fn spot(&mut self, spot: Point) -> Result<(), NoMemory>
        ensures { IfOk result (λ _. self.new ≡ with_pieces self.old (spot_words spot)) }
    {
        self.mark(Symbol::Open)?;
        self.natural(spot.x)?;
        self.natural(spot.y)?;
        self.mark(Symbol::Close)?;
        Ok(())
    }

    // Writes the spots of a polygon.
    #[tactic(auto, using(crate::proofs::Pages::each_step, crate::proofs::Pages::each_end), unfolding(crate::specs::Page::with_pieces))]
    fn spots(&mut self, spots: &[Point]) -> Result<(), NoMemory>
        ensures { IfOk result (λ _. self.new ≡ with_pieces self.old (each spot_words spots.now)) }
    {
        'spots: for spot in spots {
            self.spot(*spot)?;
        }
        Ok(())
    }

    /// Writes a shape.
    pub fn shape(&mut self, shape: &Shape) -> Result<(), NoMemory>
        ensures { IfOk result (λ _. self.new ≡ with_pieces self.old (shape_words shape.now)) }
    {
        match shape {
            Shape::Point(at) => self.spot(*at)?,
            Shape::Segment(segment) => {
                self.spot(segment.a)?;
                self.mark(Symbol::Minus)?;
                self.spot(segment.b)?;
            }
            Shape::Polygon(ring) => {
                self.mark(Symbol::Open)?;
                self.spots(ring.corners())?;
                self.mark(Symbol::Close)?;
            }
        }
        Ok(())
    }

    /// Writes a value.
    pub fn value(&mut self, value: &Value) -> Result<(), NoMemory>
        ensures { IfOk result (λ _. self.new ≡ with_pieces self.old (value_words value.now)) }
    {
        match value {
            Value::Int(n) => self.int(*n)?,
            Value::Text(text) => self.text(text)?,
            Value::Shape(shape) => self.shape(shape)?,
        }
        Ok(())
    }

    // Writes the values behind the first one.
    #[tactic(auto, using(crate::proofs::Pages::more_step, crate::proofs::Pages::more_end), unfolding(crate::specs::Page::with_pieces))]
    fn more_values(&mut self, values: &[Value]) -> Result<(), NoMemory>
        ensures { IfOk result (λ _. self.new ≡ with_pieces self.old (more_words comma value_words values.now)) }
    {
        'values: for value in values {
            self.mark(Symbol::Comma)?;
            self.value(value)?;
        }
        Ok(())
    }

    /// Writes the values of a row.
    pub fn values(&mut self, values: &[Value]) -> Result<(), NoMemory>
        ensures { IfOk result (λ _. self.new ≡ with_pieces self.old (list_words comma value_words values.now)) }
    {
        let [first, more @ ..] = values else {
            return Ok(());
        };
        self.value(first)?;
        self.more_values(more)?;
        Ok(())
    }

    // Writes a column's name and kind.
    fn field(&mut self, name: &Label, kind: Kind) -> Result<(), NoMemory>
        ensures { IfOk result (λ _. self.new ≡ with_pieces self.old (field_words (name.now, kind))) }
    {
        self.name(name.as_str())?;
        self.name(kind_word(kind))?;
        Ok(())
    }

    // Writes the columns behind the first one.
    #[tactic(auto, using(crate::proofs::Pages::more_step, crate::proofs::Pages::more_end), unfolding(crate::specs::Page::with_pieces))]
    fn more_fields(&mut self, columns: &[(Label, Kind)]) -> Result<(), NoMemory>
        ensures { IfOk result (λ _. self.new ≡ with_pieces self.old (more_words comma field_words columns.now)) }
    {
        'columns: for (name, kind) in columns {
            self.mark(Symbol::Comma)?;
            self.field(name, *kind)?;
        }
        Ok(())
    }

    /// Writes the columns of a relation.
    pub fn fields(&mut self, columns: &[(Label, Kind)]) -> Result<(), NoMemory>
        ensures { IfOk result (λ _. self.new ≡ with_pieces self.old (list_words comma field_words columns.now)) }
    {
        let [(name, kind), more @ ..] = columns else {
            return Ok(());
        };
        self.field(name, *kind)?;
        self.more_fields(more)?;
        Ok(())
    }

    // Writes a test.
    fn test(&mut self, test: &Test) -> Result<(), NoMemory>
        ensures { IfOk result (λ _. self.new ≡ with_pieces self.old (test_words test.now)) }
    {
        self.place(&test.place)?;
        self.mark(op_symbol(test.op))?;
        self.value(&test.value)?;
        Ok(())
    }

    // Writes the tests behind the first one.
    #[tactic(auto, using(crate::proofs::Pages::more_step, crate::proofs::Pages::more_end), unfolding(crate::specs::Page::with_pieces))]
    fn more_tests(&mut self, tests: &[Test]) -> Result<(), NoMemory>
        ensures { IfOk result (λ _. self.new ≡ with_pieces self.old (more_words (fixed (codes "and")) test_words tests.now)) }
    {
        'tests: for test in tests {
            self.name("and")?;
            self.test(test)?;
        }
        Ok(())
    }

    /// Writes the tests of a `filter`.
    pub fn tests(&mut self, tests: &[Test]) -> Result<(), NoMemory>
        ensures { IfOk result (λ _. self.new ≡ with_pieces self.old (list_words (fixed (codes "and")) test_words tests.now)) }
    {
        let [first, more @ ..] = tests else {
            return Ok(());
        };
        self.test(first)?;
        self.more_tests(more)?;
        Ok(())
    }

    // Writes the places behind the first one.
    #[tactic(auto, using(crate::proofs::Pages::more_step, crate::proofs::Pages::more_end), unfolding(crate::specs::Page::with_pieces))]
    fn more_places(&mut self, places: &[Place]) -> Result<(), NoMemory>
        ensures { IfOk result (λ _. self.new ≡ with_pieces self.old (more_words comma place_words places.now)) }
    {
        'places: for place in places {
            self.mark(Symbol::Comma)?;
            self.place(place)?;
        }
        Ok(())
    }

    /// Writes the places of a `fetch`.
    pub fn places(&mut self, places: &[Place]) -> Result<(), NoMemory>
        ensures { IfOk result (λ _. self.new ≡ with_pieces self.old (list_words comma place_words places.now)) }
    {
        let [first, more @ ..] = places else {
            return Ok(());
        };
        self.place(first)?;
        self.more_places(more)?;
        Ok(())
    }

    /// Writes a distance, where there is one.
    pub fn within(&mut self, within: Option<u32>) -> Result<(), NoMemory>
        ensures { IfOk result (λ _. self.new ≡ with_pieces self.old (within_words within)) }
    {
        if let Some(distance) = within {
            self.name("within")?;
            self.natural(distance)?;
        }
        Ok(())
    }
}
