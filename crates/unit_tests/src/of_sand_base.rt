use sand_base::{
    Calls, Failed, Label, MemShelf, MemSource, NoMemory, Point, Ring, Row, Shape, Shelf, Source,
    SureSource, Value,
};
use std::alloc::{AllocError, Global};
use std::process::Abort;
use std::test::Fail;

// Calls have these numbers and answers, one after the other.
fn are_numbered(rt: &impl Abort, calls: &mut Calls, answers: &[(u64, Result<(), Failed>)]) {
    for &(number, answer) in answers {
        assert_eq!(rt; (calls.begin(), calls.made()), (answer, number));
    }
}

#[test]
fn calls_are_numbered_from_1_and_fail_where_the_list_names_them(
    rt: HostRuntime,
) -> Result<(), AllocError> {
    let mut calls = Calls::new(vec![in rt.alloc(); 3, 0, 1, 3]?);
    are_numbered(
        &rt,
        &mut calls,
        &[
            (1, Err(Failed {})),
            (2, Ok(())),
            (3, Err(Failed {})),
            (4, Ok(())),
        ],
    );
    Ok(())
}

// Reads into a piece of four bytes give these answers and bytes, one after the other.
fn gives<S: Source>(rt: &impl Abort, source: &mut S, answers: &[(Result<usize, Failed>, [u8; 4])]) {
    for (count, bytes) in answers {
        let mut piece = [0; 4];
        assert_eq!(rt; (source.read(&mut piece), piece), (*count, *bytes));
    }
}

const END: (Result<usize, Failed>, [u8; 4]) = (Ok(0), [0; 4]);

// A source of eight bytes gives them in chunks of three.
fn gives_chunks_of_three(rt: &impl Abort, alloc: Global, bytes: Vec<u8>) {
    let answers = [
        (Ok(3), [1, 2, 3, 0]),
        (Ok(3), [4, 5, 6, 0]),
        (Ok(2), [7, 8, 0, 0]),
        END,
    ];
    gives(rt, &mut SureSource::new(alloc, bytes, 3), &answers);
}

// And so does one that fails at this call, before and after.
fn gives_them_after_a_failure(rt: &impl Abort, alloc: Global, bytes: Vec<u8>, failing: Vec<u64>) {
    let answers = [
        (Ok(3), [1, 2, 3, 0]),
        (Err(Failed {}), [0; 4]),
        (Ok(3), [4, 5, 6, 0]),
        (Ok(2), [7, 8, 0, 0]),
        END,
    ];
    let mut source = MemSource::new(alloc, bytes, 3, failing);
    gives(rt, &mut source, &answers);
}

#[test]
fn a_source_gives_chunks_and_a_failed_read_loses_nothing(
    rt: HostRuntime,
) -> Result<(), AllocError> {
    let alloc = rt.alloc();
    let eight = vec![in alloc; 1, 2, 3, 4, 5, 6, 7, 8]?;
    gives_chunks_of_three(&rt, alloc, eight.clone()?);
    gives_them_after_a_failure(&rt, alloc, eight, vec![in alloc; 2]?);
    Ok(())
}

#[test]
fn a_read_gives_no_more_than_the_piece_holds(rt: HostRuntime) -> Result<(), AllocError> {
    let alloc = rt.alloc();
    let mut wide = MemSource::new(alloc, vec![in alloc; 1, 2, 3, 4, 5, 6]?, 5, vec![in alloc]?);
    gives(
        &rt,
        &mut wide,
        &[(Ok(4), [1, 2, 3, 4]), (Ok(2), [5, 6, 0, 0]), END],
    );
    gives(&rt, &mut SureSource::new(alloc, vec![in alloc]?, 1), &[END]);
    Ok(())
}

// A row of a text and a triangle, if memory is left.
fn row_of(alloc: Global, text: &str, at: Point) -> Option<Row> {
    let Ok(text) = Label::new(alloc, text) else {
        return None;
    };
    let ring = Ring::new(vec![in alloc; at; 3].ok()?).ok()?;
    let values = vec![in alloc; Value::Text(text), Value::Shape(Shape::Polygon(ring))].ok()?;
    Some(Row::new(values))
}

// Whether the row has this text, and a polygon whose three vertices are all here.
fn is_row_of(row: &Row, text: &str, at: Point) -> bool {
    match row.values() {
        [Value::Text(name), Value::Shape(Shape::Polygon(ring))] => {
            name.as_str() == text && ring.corners() == [at; 3].as_slice()
        }
        _ => false,
    }
}

#[test]
fn a_row_is_copied_where_memory_is_left(rt: HostRuntime) -> Result<(), Fail> {
    let at = Point { x: 3, y: 4 };
    let row = row_of(rt.alloc(), "north", at).ok_or("no row is made")?;
    let copy = row.copy(rt.alloc())?;
    assert!(rt; is_row_of(&copy, "north", at));
    Ok(())
}

// A file of three bytes that are all this one.
fn file(alloc: Global, name: &str, byte: u8) -> Result<(Label, Vec<u8>), NoMemory> {
    let name = Label::new(alloc, name)?;
    Ok((name, Vec::from_slice(alloc, &[byte; 3])?))
}

// Three files, two of them of one name.
fn three_files(alloc: Global) -> Result<Vec<(Label, Vec<u8>)>, NoMemory> {
    let mut files = Vec::new(alloc);
    for &(name, byte) in &[("a", 1), ("b", 2), ("a", 3)] {
        files.push(file(alloc, name, byte)?)?;
    }
    Ok(files)
}

// A shelf of these files, whose fourth call fails.
fn shelf_of_three(alloc: Global) -> Result<MemShelf, NoMemory> {
    let failing = vec![in alloc; 4]?;
    Ok(MemShelf::new(alloc, three_files(alloc)?, failing))
}

// The shelf opens the first of two files of one name, and of its calls the fourth alone fails.
fn opens_the_first(rt: &impl Abort, shelf: &mut MemShelf) {
    assert_eq!(rt;
        (shelf.choose("c"), shelf.choose("a")),
        (Err(Failed {}), Ok(()))
    );
    let mut piece = [0; 2];
    assert_eq!(rt; (shelf.read(&mut piece), piece), (Ok(2), [1, 1]));
    let more = [
        shelf.read(&mut piece),
        shelf.read(&mut piece),
        shelf.read(&mut piece),
    ];
    assert_eq!(rt; more, [Err(Failed {}), Ok(1), Ok(0)]);
}

#[test]
fn a_shelf_opens_the_first_of_equal_names_and_none_after_a_fault(
    rt: HostRuntime,
) -> Result<(), NoMemory> {
    let mut shelf = shelf_of_three(rt.alloc())?;
    opens_the_first(&rt, &mut shelf);
    Ok(())
}
