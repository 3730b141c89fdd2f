// The texts of shapes and values.
ghost use Rattle.std.specs.Prelude.{◌≡◌, ◌+◌, ◌≤◌, ◌∷◌, ◌++◌, [], length, map, codes, OnOk, OnErr};
ghost use Rattle.std.specs.Fmt.{signed_decimal};
ghost use Rattle.sand_base.specs.Faults.{HasCause};
ghost use Rattle.sand_model.specs.OutputText.{point_text, shape_text, spaced, value_text};
ghost use Rattle.output_text.specs.Forming.{Forms};
ghost use Rattle.output_text.specs.Joined.{led};
ghost use Rattle.output_text.specs.Writing.{AddsPrefix};
ghost use Rattle.output_text.specs.declared.pending.TheConstants.{CAPACITY, MOST_BEFORE};
ghost use Rattle.output_text.specs.declared.shapes.TheConstants.{MOST_POINT};

use crate::pending::{MOST_DIGITS, Pending};
use sand_base::{Failed, Point, Segment, Shape, Sink, Value};

// How many bytes a point has at most: two numbers, two brackets and a space.
const MOST_POINT: usize = 2 * MOST_DIGITS + 3;

impl Pending {
    // `(x y)`, for which there is room.
    fn append_point(&mut self, at: Point)
        requires { length self.old + MOST_POINT ≤ CAPACITY }
        ensures text { self.new ≡ self.old ++ point_text at }
        ensures len { length self.new ≤ length self.old + MOST_POINT }
    {
        self.push(b'(');
        self.append_number(u64::from(at.x));
        self.push(b' ');
        self.append_number(u64::from(at.y));
        self.push(b')');
    }

    // A point behind some bytes.
    fn put_point<K: Sink>(&mut self, out: &mut K, before: &[u8], at: Point) -> Result<(), Failed>
        requires { length before.now ≤ MOST_BEFORE }
        ensures formed { OnOk result (Forms (K.took out.old) (K.took out.new) self.old self.new (before.now ++ point_text at)) }
        ensures prefix { OnErr result (AddsPrefix (K.took out.old) (K.took out.new) (self.old ++ (before.now ++ point_text at))) }
        ensures cause { HasCause (K.faults out.old) (K.faults out.new) result }
    {
        self.reserve(out, before.len() + MOST_POINT)?;
        self.append(before);
        self.append_point(at);
        Ok(())
    }

    // `(x y)-(x y)`.
    fn put_segment<K: Sink>(&mut self, out: &mut K, way: Segment) -> Result<(), Failed>
        ensures formed { OnOk result (Forms (K.took out.old) (K.took out.new) self.old self.new (point_text way.a ++ codes "-" ++ point_text way.b)) }
        ensures prefix { OnErr result (AddsPrefix (K.took out.old) (K.took out.new) (self.old ++ (point_text way.a ++ codes "-" ++ point_text way.b))) }
        ensures cause { HasCause (K.faults out.old) (K.faults out.new) result }
    {
        self.reserve(out, 2 * MOST_POINT + 1)?;
        self.append_point(way.a);
        self.push(b'-');
        self.append_point(way.b);
        Ok(())
    }

    // Points, each behind a space.
    fn put_more_points<K: Sink>(&mut self, out: &mut K, points: &[Point]) -> Result<(), Failed>
        ensures formed { OnOk result (Forms (K.took out.old) (K.took out.new) self.old self.new (led (codes " ") (map point_text points.now))) }
        ensures prefix { OnErr result (AddsPrefix (K.took out.old) (K.took out.new) (self.old ++ led (codes " ") (map point_text points.now))) }
        ensures cause { HasCause (K.faults out.old) (K.faults out.new) result }
    {
        'points: for at in points {
            self.put_point(out, b" ", *at)?;
        }
        Ok(())
    }

    // Points with a space between each two.
    fn put_points<K: Sink>(&mut self, out: &mut K, points: &[Point]) -> Result<(), Failed>
        ensures formed { OnOk result (Forms (K.took out.old) (K.took out.new) self.old self.new (spaced (map point_text points.now))) }
        ensures prefix { OnErr result (AddsPrefix (K.took out.old) (K.took out.new) (self.old ++ spaced (map point_text points.now))) }
        ensures cause { HasCause (K.faults out.old) (K.faults out.new) result }
    {
        let [first, more @ ..] = points else {
            return Ok(());
        };
        self.put_point(out, b"", *first)?;
        self.put_more_points(out, more)?;
        Ok(())
    }

    // `((x y) (x y) (x y))`.
    fn put_polygon<K: Sink>(&mut self, out: &mut K, corners: &[Point]) -> Result<(), Failed>
        ensures formed { OnOk result (Forms (K.took out.old) (K.took out.new) self.old self.new (codes "(" ++ spaced (map point_text corners.now) ++ codes ")")) }
        ensures prefix { OnErr result (AddsPrefix (K.took out.old) (K.took out.new) (self.old ++ (codes "(" ++ spaced (map point_text corners.now) ++ codes ")"))) }
        ensures cause { HasCause (K.faults out.old) (K.faults out.new) result }
    {
        self.put(out, b"(")?;
        self.put_points(out, corners)?;
        self.put(out, b")")?;
        Ok(())
    }

    // A shape as it stands in a script.
    fn put_shape<K: Sink>(&mut self, out: &mut K, shape: &Shape) -> Result<(), Failed>
        ensures formed { OnOk result (Forms (K.took out.old) (K.took out.new) self.old self.new (shape_text shape.now)) }
        ensures prefix { OnErr result (AddsPrefix (K.took out.old) (K.took out.new) (self.old ++ shape_text shape.now)) }
        ensures cause { HasCause (K.faults out.old) (K.faults out.new) result }
    {
        match shape {
            Shape::Point(at) => {
                self.put_point(out, b"", *at)?;
                Ok(())
            }
            Shape::Segment(way) => {
                self.put_segment(out, *way)?;
                Ok(())
            }
            Shape::Polygon(ring) => {
                self.put_polygon(out, ring.corners())?;
                Ok(())
            }
        }
    }

    // A whole number in decimal.
    fn put_int<K: Sink>(&mut self, out: &mut K, number: i64) -> Result<(), Failed>
        ensures formed { OnOk result (Forms (K.took out.old) (K.took out.new) self.old self.new (signed_decimal number)) }
        ensures prefix { OnErr result (AddsPrefix (K.took out.old) (K.took out.new) (self.old ++ signed_decimal number)) }
        ensures cause { HasCause (K.faults out.old) (K.faults out.new) result }
    {
        self.reserve(out, MOST_DIGITS + 1)?;
        self.append_int(number);
        Ok(())
    }

    /// A value: a text as it is, a shape as it stands in a script.
    pub fn put_value<K: Sink>(&mut self, out: &mut K, value: &Value) -> Result<(), Failed>
        ensures formed { OnOk result (Forms (K.took out.old) (K.took out.new) self.old self.new (value_text value.now)) }
        ensures prefix { OnErr result (AddsPrefix (K.took out.old) (K.took out.new) (self.old ++ value_text value.now)) }
        ensures cause { HasCause (K.faults out.old) (K.faults out.new) result }
    {
        match value {
            Value::Int(number) => {
                self.put_int(out, *number)?;
                Ok(())
            }
            Value::Text(text) => {
                self.put(out, text.as_str().as_bytes())?;
                Ok(())
            }
            Value::Shape(shape) => {
                self.put_shape(out, shape)?;
                Ok(())
            }
        }
    }
}
