// The summary of a text with refused lines, which comes in pieces.
use sand_base::Sink;
use std::test::Fail;
use work_gen::TallySink;

// Of the five lines that are ended the second and the fourth are refused.
static PIECES: [&str; 4] = [
    "ok\nrefu",
    "sed 1 Memory\nid 1\nrefused\n",
    "refuse\nref",
    "used 5",
];

#[test]
fn refused_lines_are_counted_across_pieces(rt: HostRuntime) -> Result<(), Fail> {
    let mut sink = TallySink::new();
    for piece in &PIECES {
        assert_eq!(rt; sink.write(piece.as_bytes()), Ok(piece.len()));
    }
    let text = sink.summary(6);
    assert!(rt;
        text.as_bytes()
            .starts_with(b"lines 6\nrefused 2\nbytes 49\n")
    );
    Ok(())
}
