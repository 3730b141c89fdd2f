// The row whose record is appended, as a journal writes it.
/// The body of a change: one row of 100 bytes of a relation `p`.
pub fn body() -> [u8; 109] {
    let mut body = [b'r'; 109];
    body[..9].copy_from_slice(b"\x02\x01p\x00\x00\x00\x01\x00\x64");
    body
}
