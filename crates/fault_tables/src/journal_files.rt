// Files of records made by hand.
use crate::byte_draws::Draws;
use sand_base::NoMemory;
use std::alloc::Global;

/// A file of whole records and a shut gate, and the places of its gates.
#[derive(Drop)]
pub struct Sample {
    pub bytes: Vec<u8>,
    pub gates: Vec<usize>,
}

// Adds rows of at most 19 bytes, behind how many they are.
fn add_rows(body: &mut Vec<u8>, draws: &mut Draws) -> Result<(), NoMemory> {
    let count = draws.below(4);
    body.extend_from_slice(&count.to_be_bytes())?;
    for _ in 0..count {
        let size = draws.below(20);
        body.extend_from_slice(&[0, size as u8])?;
        for _ in 0..size {
            body.push(draws.byte())?;
        }
    }
    Ok(())
}

// The body of a change: a line, or rows of a relation.
fn drawn_body(alloc: Global, draws: &mut Draws) -> Result<Vec<u8>, NoMemory> {
    let mut body = Vec::new(alloc);
    match draws.below(4) {
        0 => body.extend_from_slice(b"\x01index p.at")?,
        1 => body.extend_from_slice(b"\x01create p (at point)")?,
        2 => body.extend_from_slice(b"\x01delete p 7")?,
        _ => {
            body.extend_from_slice(b"\x02\x01p")?;
            add_rows(&mut body, draws)?;
        }
    }
    Ok(body)
}

/// A file of so many records.
pub fn make_sample(alloc: Global, seed: u32, count: u32) -> Result<Sample, NoMemory> {
    let mut draws = Draws::new(seed);
    let mut bytes = Vec::new(alloc);
    let mut gates = Vec::new(alloc);
    for _ in 0..count {
        let body = drawn_body(alloc, &mut draws)?;
        gates.push(bytes.len())?;
        bytes.push(1)?;
        bytes.extend_from_slice(&u32::try_from(body.len()).unwrap_or(0).to_be_bytes())?;
        bytes.extend_from_slice(&body)?;
    }
    gates.push(bytes.len())?;
    bytes.push(0)?;
    Ok(Sample { bytes, gates })
}
