//! The tests of thirteen libraries: plain types and streams, fractions, geometry, rows as bytes, printed lines, words, searches.
//!
//! A module for each library, and `untold`: a desk over a disk that doesn't tell its pages, so that a tree in a table can be searched, which no
//! page holds. A test's build proves all functions of its own crate once more, so the tests stand apart from the
//! libraries, in a crate with no function besides. They compare with values from outside, and show that calls which take memory
//! succeed where some is left. Above: nothing. Below: `sand_base`, `exact_frac`, `z_code`, `plane_geom`, `ring_geom`, `tuple_codec`,
//! `output_text`, `work_gen`, `run_words`, `csv_load`, `pair_heap`, `rank_queue`, `best_first`.
#![tactic(auto)]

#[cfg(test)]
mod closed_plane;
#[cfg(test)]
mod of_best_first;
#[cfg(test)]
mod of_csv_load;
#[cfg(test)]
mod of_exact_frac;
#[cfg(test)]
mod of_output_text;
#[cfg(test)]
mod of_pair_heap;
#[cfg(test)]
mod of_plane_geom;
#[cfg(test)]
mod of_rank_queue;
#[cfg(test)]
mod of_ring_geom;
#[cfg(test)]
mod of_run_summary;
#[cfg(test)]
mod of_run_words;
#[cfg(test)]
mod of_sand_base;
#[cfg(test)]
mod of_tuple_codec;
#[cfg(test)]
mod of_z_code;
#[cfg(test)]
mod ring_cases;
#[cfg(test)]
mod ring_figures;
#[cfg(test)]
mod untold;
