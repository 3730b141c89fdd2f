// Lines and fields to be read.
use sand_base::Kind;

/// Lines that are read, and what each is printed as; lines that are not, by their first bad token or byte; and lines with
/// a number or a length out of range.
pub static LINES: [&str; 33] = [
    "  \t# a \"",
    "",
    "create create (create int,b segment)",
    "insert r((0 0)(4 0)(4 4)),-02,\"\"\"\"",
    "load p \"\" header",
    "index p.at 64",
    "open c=filter(rank p.at from(0 0) - (1 1))where 1.n=9",
    "show 1 pick p.n from 9 to -0",
    "show 2 fetch (match (scan p) 1.k=q.k) 255.b,1.a",
    "show 3 rank p.at from (524288 524290) within 15",
    "show 3 rnk p.at from (0 0)",
    "insert p (0",
    "insert p (2000000 1)",
    "insert p (1048576 0)",
    "insert p (1048575 1048575)",
    "insert p ((0 0) (1 1))",
    "insert p 9223372036854775808",
    "insert p -9223372036854775808",
    "delete p -1",
    "index p.at 65",
    "next c 0",
    "show 1 window p.at 1 0 0 0",
    "close",
    "insert p (1 1) (2 2)",
    "create q (at point,)",
    "show 1 scan p within",
    "show 1 first 1 scan p)",
    "\u{0}",
    "index 5 !",
    "insert p \"x",
    "load p \"ab\"\"",
    "load p \"a\tb\"",
    "insert p\u{e9} (0 1)",
];

/// Bytes of a text that are no well-formed characters, behind 8 others.
pub static BROKEN: [&[u8]; 4] = [
    b"load p \"\x80\"",
    b"load p \"\xC0\x80\"",
    b"load p \"\xED\xA0\x80\"",
    b"load p \"\"\"\xE2\x82\"",
];

/// Fields of a data file with the kinds of their columns.
pub static FIELDS: [(Kind, &str); 12] = [
    (Kind::Int, "-007"),
    (Kind::Int, " 7"),
    (Kind::Int, "-"),
    (Kind::Text, "a \"b\""),
    (Kind::Text, "a\tb"),
    (Kind::Point, " ( 1  2 )"),
    (Kind::Point, "(1\t2)"),
    (Kind::Point, "(1 1048576)"),
    (Kind::Segment, "(0 0)-(1 1)"),
    (Kind::Segment, "(0 0)"),
    (Kind::Polygon, "((0 0)(1 0)(0 1))"),
    (Kind::Polygon, "((0 0)(1 0))"),
];

/// A line in three parts, of which the second stands there so many times.
#[derive(Clone, Copy)]
pub struct Repeated {
    pub first: &'static str,
    pub item: &'static str,
    pub count: usize,
    pub last: &'static str,
}

/// Long lines.
pub static LONG: [Repeated; 9] = [
    Repeated {
        first: "insert p (7 ",
        item: "0",
        count: 8000,
        last: "9)",
    },
    Repeated {
        first: "load p \"",
        item: "x",
        count: 255,
        last: "\"",
    },
    Repeated {
        first: "load p \"",
        item: "x",
        count: 256,
        last: "\"",
    },
    Repeated {
        first: "load p \"",
        item: "\"\"",
        count: 255,
        last: "\"",
    },
    Repeated {
        first: "insert p (",
        item: "(0 0)",
        count: 64,
        last: ")",
    },
    Repeated {
        first: "insert p (",
        item: "(0 0)",
        count: 65,
        last: ")",
    },
    Repeated {
        first: "create p (a int",
        item: ", a int",
        count: 11,
        last: ")",
    },
    Repeated {
        first: "create p (a int",
        item: ", a int",
        count: 12,
        last: ")",
    },
    Repeated {
        first: "show 1 ",
        item: "first 1(",
        count: 908,
        last: "scan p",
    },
];
