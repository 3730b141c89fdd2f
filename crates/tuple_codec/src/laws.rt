ghost use Rattle.tuple_codec.specs.Decoding.{HaveOneEncoding};

/// Does nothing: its clause says that two rows of one schema with one encoding are one row.
pub fn rows_with_one_encoding_are_one()
    ensures { HaveOneEncoding }
{}
