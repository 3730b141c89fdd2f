// Data files of points.
use sand_base::NoMemory;
use std::alloc::Global;
use std::fmt::Write;

/// Numbers from 0 to 65,535 by a linear congruential generator.
#[derive(Drop)]
struct Draws {
    seed: u32,
}

impl Draws {
    // The next number.
    fn next(&mut self) -> u32 {
        self.seed = self.seed.wrapping_mul(1_103_515_245).wrapping_add(12_345) & 0x7fff_ffff;
        self.seed / 32_768
    }
}

/// A file of so many drawn points.
pub fn points(alloc: Global, count: u32) -> Result<String, NoMemory> {
    let mut draws = Draws { seed: 15 };
    let mut text = String::new(alloc);
    for _ in 0..count {
        let x = draws.next();
        let y = draws.next();
        write!(text, "({x} {y})\n")?;
    }
    Ok(text)
}

/// A file of so many drawn points, each with a drawn number.
pub fn numbered_points(alloc: Global, count: u32) -> Result<String, NoMemory> {
    let mut draws = Draws { seed: 16 };
    let mut text = String::new(alloc);
    for _ in 0..count {
        let x = draws.next();
        let y = draws.next();
        let number = draws.next();
        write!(text, "({x} {y}),{number}\n")?;
    }
    Ok(text)
}

/// A file of so many points on a grid of 160 columns, 400 apart.
pub fn grid(alloc: Global, count: u32) -> Result<String, NoMemory> {
    let mut text = String::new(alloc);
    for number in 0..count {
        let x = (number % 160).wrapping_mul(400).wrapping_add(1);
        let y = (number / 160).wrapping_mul(400).wrapping_add(1);
        write!(text, "({x} {y})\n")?;
    }
    Ok(text)
}
