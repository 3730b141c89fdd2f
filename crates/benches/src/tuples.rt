// Rows in slotted pages beside a map in memory: mixed puts, takes, fetches and steps of a scan.
ghost use Rattle.std.specs.Prelude.{◌≤◌, ◌<◌};

use crate::draws::Draws;
use crate::open_pool::OpenPool;
use page_pool::PageFault;
use sand_base::{Kind, Label, NoMemory, Row, Schema, Value};
use std::alloc::Global;
use std::collections::BTreeMap;
use tuple_file::TupleFile;

// What a row holds: a number, and the length of its text.
type Content = (i64, u8);

// The rows by their ids, in memory.
type Twin = BTreeMap<u32, Content>;

// The columns of all rows.
fn columns(alloc: Global) -> Result<Schema, NoMemory> {
    let mut columns = Vec::new(alloc);
    columns.push((Label::new(alloc, "number")?, Kind::Int))?;
    columns.push((Label::new(alloc, "name")?, Kind::Text))?;
    Ok(Schema::new(columns))
}

// Puts a row: the number's eight bytes, the text's length, and the text.
fn put(
    pool: &mut OpenPool,
    file: &mut TupleFile,
    id: u32,
    (number, length): Content,
) -> Result<(), PageFault> {
    let mut bytes = [b'a'; 264];
    bytes[..8].copy_from_slice(&number.to_be_bytes());
    bytes[8] = length;
    pool.put(file, id, &bytes[..9 + usize::from(length)])
}

// Whether the row holds this.
fn holds(row: &Row, content: &Content) -> bool {
    let [Value::Int(number), Value::Text(text)] = row.values() else {
        return false;
    };
    *number == content.0 && text.as_str().len() == usize::from(content.1)
}

// Whether both have this row, or both have none.
fn same(row: &Option<Row>, content: Option<&Content>) -> bool {
    match row {
        Some(row) => match content {
            Some(content) => holds(row, content),
            None => false,
        },
        None => content.is_none(),
    }
}

// Puts a row that isn't there, and takes one that is; tells whether both say that it was.
fn toggle(
    pool: &mut OpenPool,
    file: &mut TupleFile,
    twin: &mut Twin,
    id: u32,
    content: Content,
) -> Result<bool, PageFault> {
    if twin.remove(&id).is_some() {
        return pool.take(file, id);
    }
    let Ok(_none) = twin.insert(id, content) else {
        return Err(PageFault::Memory);
    };
    put(pool, file, id, content)?;
    Ok(true)
}

// Whether both fetch the same row.
fn fetches_same(
    alloc: Global,
    pool: &mut OpenPool,
    schema: &Schema,
    file: &TupleFile,
    twin: &Twin,
    id: u32,
) -> Result<bool, PageFault> {
    let row = pool.fetch(alloc, file, schema, id)?;
    Ok(same(&row, twin.get(&id)))
}

// The least id in memory from this one on.
fn least_from(twin: &Twin, id: u32) -> Option<u32> {
    'ids: for key in twin.keys() {
        if *key >= id {
            return Some(*key);
        }
    }
    None
}

// Whether both have the same least id from this one on.
fn scans_same(
    pool: &mut OpenPool,
    file: &TupleFile,
    twin: &Twin,
    id: u32,
) -> Result<bool, PageFault> {
    let found = pool.scan(file, id)?;
    Ok(found == least_from(twin, id))
}

// One drawn call; tells whether both answer the same.
fn call(
    alloc: Global,
    pool: &mut OpenPool,
    schema: &Schema,
    file: &mut TupleFile,
    twin: &mut Twin,
    draws: &mut Draws,
) -> Result<bool, PageFault> {
    let kind = draws.word() % 4;
    let id = (draws.word() % 500) as u32;
    let number = draws.word() as i64;
    let length = (draws.word() % 256) as u8;
    if kind < 2 {
        return toggle(pool, file, twin, id, (number, length));
    }
    if kind == 2 {
        return fetches_same(alloc, pool, schema, file, twin, id);
    }
    scans_same(pool, file, twin, id)
}

// So many drawn calls of a new file and of the map; tells whether all answers were the same.
fn call_all(
    alloc: Global,
    pool: &mut OpenPool,
    twin: &mut Twin,
    calls: u32,
) -> Result<bool, PageFault> {
    let schema = columns(alloc)?;
    let mut file = pool.plant_file()?;
    let mut draws = Draws::begin(calls.into());
    'calls: for _ in 0..calls {
        if !call(alloc, pool, &schema, &mut file, twin, &mut draws)? {
            return Ok(false);
        }
    }
    Ok(true)
}

/// So many drawn calls of a file and of a map in memory; gives the number of rows left where all answers were the same.
pub fn mixed(alloc: Global, pool: &mut OpenPool, calls: u32) -> Result<Option<usize>, PageFault> {
    let mut twin = BTreeMap::new(alloc);
    if !call_all(alloc, pool, &mut twin, calls)? {
        return Ok(None);
    }
    Ok(Some(twin.len()))
}

// A file of so many rows.
fn filled(pool: &mut OpenPool, rows: u32) -> Result<TupleFile, PageFault> {
    let mut file = pool.plant_file()?;
    'rows: for id in 1..=rows {
        put(pool, &mut file, id, (i64::from(id), 40))?;
    }
    Ok(file)
}

// Whether a row is there.
fn is_there(
    alloc: Global,
    pool: &mut OpenPool,
    schema: &Schema,
    file: &TupleFile,
    id: u32,
) -> Result<bool, PageFault> {
    let row = pool.fetch(alloc, file, schema, id)?;
    Ok(row.is_some())
}

// So many rows fetched at random; gives how many are there.
fn fetched(
    alloc: Global,
    pool: &mut OpenPool,
    file: &TupleFile,
    rows: u32,
    fetches: u32,
) -> Result<u64, PageFault> {
    let schema = columns(alloc)?;
    let mut draws = Draws::begin(3);
    let mut there = 0u64;
    'fetches: for _ in 0..fetches {
        let id = draws.word() % u64::from(rows).max(1) + 1;
        if is_there(alloc, pool, &schema, file, id as u32)? {
            there = there.wrapping_add(1);
        }
    }
    Ok(there)
}

/// So many rows put into a file, and then so many fetched at random; gives how many are there.
pub fn put_and_fetched(alloc: Global, rows: u32, fetches: u32) -> Result<u64, PageFault> {
    let mut pool = OpenPool::start(alloc, 4_096)?;
    let file = filled(&mut pool, rows)?;
    fetched(alloc, &mut pool, &file, rows, fetches)
}
