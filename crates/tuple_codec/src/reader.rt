// Numbers at the front of some bytes.
ghost use Rattle.std.specs.Prelude.{◌≡◌, ◌<◌, ◌^◌, ◌↔◌, true, [], ◌∷◌, ◌++◌, length, MatchOption};
ghost use Rattle.sand_base.specs.InRange.{IsIntInRange};
ghost use Rattle.tuple_codec.specs.Encoding.{coordinate_bytes, int_bytes};
ghost use Rattle.tuple_codec.specs.Front.{Takes};

// The bytes that are left to read.
#[derive(Drop)]
pub(crate) struct Reader<'a> {
    pub(crate) left: &'a [u8],
}

impl<'a> Reader<'a> {
    pub(crate) fn over(bytes: &'a [u8]) -> Reader<'a>
        ensures { result.left.now ≡ bytes.now }
    {
        Reader { left: bytes }
    }

    pub(crate) fn is_empty(&self) -> bool
        ensures { (result ≡ true) ↔ (self.now.left.now ≡ []) }
    {
        self.left.is_empty()
    }

    // The next byte, or None where no byte is left.
    pub(crate) fn byte(&mut self) -> Option<u8>
        ensures { MatchOption result (self.old.left.now ≡ []) (λ byte. self.old.left.now ≡ byte ∷ self.new.left.now) }
    {
        let (byte, rest) = self.left.split_first()?;
        self.left = rest;
        Some(*byte)
    }

    // The next so many bytes, or None where fewer are left.
    pub(crate) fn piece(&mut self, count: usize) -> Option<&'a [u8]>
        ensures { MatchOption result (length self.old.left.now < count)
            (λ piece. (length piece.now ≡ count) × (self.old.left.now ≡ piece.now ++ self.new.left.now)) }
    {
        let (piece, rest) = self.left.split_at_checked(count)?;
        self.left = rest;
        Some(piece)
    }

    // The next four bytes as a coordinate.
    pub(crate) fn coordinate(&mut self) -> Option<u32>
        ensures { Takes (λ n. n < 2 ^ 32) coordinate_bytes self.old.left.now result self.new.left.now }
    {
        let Some((bytes, rest)) = self.left.split_first_chunk::<4>() else {
            return None;
        };
        self.left = rest;
        Some(coordinate_of(*bytes))
    }

    // The next eight bytes as a whole number.
    pub(crate) fn int(&mut self) -> Option<i64>
        ensures { Takes IsIntInRange int_bytes self.old.left.now result self.new.left.now }
    {
        let Some((bytes, rest)) = self.left.split_first_chunk::<8>() else {
            return None;
        };
        self.left = rest;
        Some(int_of(*bytes))
    }
}

// The coordinate that four bytes write.
fn coordinate_of(bytes: [u8; 4]) -> u32
    ensures { coordinate_bytes result ≡ bytes }
{
    u32::from_be_bytes(bytes)
}

// The whole number that eight bytes write.
fn int_of(bytes: [u8; 8]) -> i64
    ensures { int_bytes result ≡ bytes }
{
    u64::from_be_bytes(bytes).cast_signed()
}
