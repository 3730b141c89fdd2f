//! Blocks of the quadtree under their Morton codes (Z-order codes).
//!
//! A block is a square of the plane and a range of codes at once, so a quadtree kept in the order of
//! its codes has the leaves under a block side by side. Above: `pmr_tree`. Below: `sand_base`.
//! Contracts see a block's code and level; read `specs/Block.antt` first, then `specs/Code.antt`.
//! After G. M. Morton (1966); linear quadtrees after I. Gargantini (1982) and H. Samet (2006).
#![tactic(auto)]

mod block;
mod code;

pub use block::Block;
