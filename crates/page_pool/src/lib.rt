//! A buffer pool of pages over a disk, with commands that commit or leave all as it was.
//!
//! What a command changes is staged in one table by number, `None` for a page that it freed, beside the set of
//! those numbers. So an abort empties their places, a commit keeps them, and neither takes memory. `begin` and
//! `flush` write what waits; a page that was written moves into the frames. They keep clean pages in a table by
//! number too, so that a hit takes no search, with their numbers in a queue, and replaced images, which only stamps
//! see, by their places. Where a page needs a frame, one leaves that was queued longest ago, and each that was used since
//! is queued again instead.
//! Beneath lies an `archive`, a disk of numbered pages: each image of a page has a place and a SHA-256 digest, which is
//! compared when it comes back from the disk. A held stamp keeps the images that were the newest when it was taken, since
//! a page is written over them only where no stamp sees them. A desk lends the live pages, or those of a stamp. Above:
//! `code_btree`, `tuple_file`, and by `Desk` the search engine. Below: `sand_base`, and `lru` and `sha2` of the kit.
//! Contracts see a pool as the record `PoolState`; read `specs/Disk.antt` and `specs/Pool.antt` first.
//! Buffer pools and steal/no-force policies after T. Haerder and A. Reuter (1983); a used page's second chance after
//! F. J. Corbato (1968); page versions by the numbers of their commands after D. P. Reed (1978); digests of pages as in
//! R. C. Merkle (1987).
#![tactic(auto)]

mod archive;
mod boxed_disk;
mod cache;
mod chains;
mod desk;
mod digests;
mod disk;
mod fault;
mod frame;
mod frames;
mod held;
mod home;
mod images;
mod mem_disk;
mod numbers;
mod page;
mod pages;
mod past;
mod pool;
mod reader;
mod staged;
mod stamp;
mod sure_disk;
mod table;
mod view;

pub use desk::Desk;
pub use disk::{Disk, DiskFault};
pub use fault::PageFault;
pub use mem_disk::MemDisk;
pub use pages::Pages;
pub use pool::Pool;
pub use reader::PoolReader;
pub use stamp::Stamp;
pub use sure_disk::SureDisk;
