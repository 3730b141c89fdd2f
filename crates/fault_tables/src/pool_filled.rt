// What the pages of a map should hold.
use crate::pool_trouble::Trouble;
use std::alloc::Global;

/// A page, and the number of which its bytes are made.
#[derive(Clone, Copy, PartialEq, Eq)]
pub struct Filled {
    pub page: u64,
    pub value: u32,
}

/// Fills a page with the bytes that are made of this number.
pub fn fill(page: &mut [u8; 4096], value: u32) {
    let [first, second, third, fourth] = value.to_be_bytes();
    *page = [fourth; 4096];
    page[0] = first;
    page[1] = second;
    page[2_048] = third;
}

/// Whether the bytes of the page are made of this number.
pub fn is_made_of(page: &[u8; 4096], value: u32) -> bool {
    let mut wanted = [0; 4096];
    fill(&mut wanted, value);
    *page == wanted
}

/// The number of which the page should be made, where the map has it.
pub fn value_of(map: &[Filled], page: u64) -> Option<u32> {
    for filled in map {
        if filled.page == page {
            return Some(filled.value);
        }
    }
    None
}

/// Notes that the page is made of another number.
pub fn change_value(map: &mut [Filled], page: u64, value: u32) {
    for filled in map {
        if filled.page == page {
            filled.value = value;
        }
    }
}

/// The same map.
pub fn copy_of(alloc: Global, map: &[Filled]) -> Result<Vec<Filled>, Trouble> {
    Ok(map.to_vec(alloc)?)
}
