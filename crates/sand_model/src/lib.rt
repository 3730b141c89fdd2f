//! The definitions that a reader of SAND must believe, in the subject's own words and without any code.
//!
//! Points of shapes, least distances and the gap of all figures; quadtrees as values; relations, databases and their
//! changes; plans with their answers from scratch; what a search visits; cursors, statements and runs. Contracts of the crates above
//! cite them; nothing here runs. Above: `plane_geom` and `ring_geom`, which compute distances. Below: `sand_base`
//! for the types, `statements` for statements and plans, `z_code` for blocks and `exact_frac` for fractions. Read the files in the order of
//! `specs/Lib.antt`; `proofs/WorkedCases.antt` computes cases by them.
//!
//! Even-odd insides after J. O'Rourke, Computational Geometry in C (1998); distance browsing and incremental joins
//! after G. R. Hjaltason and H. Samet (1998, 1999); quadtrees after R. C. Nelson and H. Samet (1986).
#![tactic(auto)]
