// Values at the front of some bytes, passed over.
ghost use Rattle.std.specs.Prelude.{◌≡◌, ℕ, true, Some, List, ◌++◌, length};
ghost use Rattle.sand_base.specs.declared.value.Value.{Value as Held};
ghost use Rattle.tuple_codec.specs.Encoding.{value_bytes};
ghost use Rattle.tuple_codec.specs.Decoding.{IsValueOf};

use crate::reader::Reader;
use sand_base::Kind;

// How many bytes of a value of the kind are left, behind the byte with their number where it has one.
fn count_of(reader: &mut Reader, kind: Kind) -> Option<usize>
    ensures { (v : Held) (rest : List ℕ) → IsValueOf kind v → reader.old.left.now ≡ value_bytes v ++ rest
        → (bytes : List ℕ) × ((result ≡ Some (length bytes)) × (reader.new.left.now ≡ bytes ++ rest)) }
{
    match kind {
        Kind::Int | Kind::Point => Some(8),
        Kind::Segment => Some(16),
        Kind::Text => Some(usize::from(reader.byte()?)),
        Kind::Polygon => Some(8 * usize::from(reader.byte()?)),
    }
}

// Passes over a value of the kind, and says whether its bytes were there.
pub(crate) fn pass_value(reader: &mut Reader, kind: Kind) -> bool
    ensures { (v : Held) (rest : List ℕ) → IsValueOf kind v → reader.old.left.now ≡ value_bytes v ++ rest
        → (result ≡ true) × (reader.new.left.now ≡ rest) }
{
    let Some(count) = count_of(reader, kind) else {
        return false;
    };
    reader.piece(count).is_some()
}
