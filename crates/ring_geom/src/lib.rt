//! Insides of polygons, the exact gap of any two figures, and the laws that searches over a quadtree rest on.
//!
//! One idea: the grid points of a rectangle that no edge of a ring meets are inside the ring, all or none. So a
//! polygon meets a square exactly where it meets a quarter of it, and a bounding rectangle is no farther than
//! what it holds. Above: `pmr_tree`, `rank_cursor` and `dist_join`, which search by it. Below: `plane_geom` for points,
//! segments and rectangles, `sand_model` for what inside, gap and a tree are, `z_code` for blocks.
//! Contracts see a ring as the list of its vertices; read `specs/Rings.antt` and `specs/FigureGap.antt` of
//! `sand_model` first, then `specs/Laws.antt` here.
//! Even-odd insides after J. O'Rourke, Computational Geometry in C (1998); filter and refinement by bounding
//! rectangles after H. Samet, Foundations of Multidimensional and Metric Data Structures (2006).
#![tactic(auto)]

mod bounds;
mod corners_inside;
mod edges;
mod figure_gaps;
pub mod laws;
mod meeting;
mod point_in_ring;
mod ring_gaps;

pub use bounds::bounding;
pub use figure_gaps::{gap_goal, gap_goal_rect, gap_shape_rect, gap_shapes};
pub use laws::{measure_laws, ring_laws};
pub use meeting::meets_rect;
pub use point_in_ring::inside;
