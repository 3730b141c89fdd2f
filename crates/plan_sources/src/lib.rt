//! The sources of plans: scans and picks, which have no distance, and searches, nearest first: rankings, windows, joins.
//!
//! A scan or a pick keeps the last row that it gave, and asks the pages for the least one after it. A search is a best-first search, over a
//! quadtree, an R-tree or pairs of places of two quadtrees, that knows how far it is in its plan's list: each row is told in lowest terms, and
//! what was visited is counted as far as the rows reach. Within the distance 0, as for a window, it compares no gaps (`ZeroSearch`). A semi-join
//! that has given each left row, and a join of k partners that has given each all that it can have, keeps the reach of its last row. So a source
//! holds no list, and after a refusal the same rows are left. Above: `plan_ops`. Below: `plan_names` for look-ups, `tuple_file` and `attr_index` for rows and entries
//! in pages, `rank_cursor`, `near_cursor` and `dist_join` for hierarchies, `best_first`, `semi_join` and `knn_join` for searches, `sand_store` for the rows
//! in pages, `plan_iterator` for what a source promises.
//! Contracts see what is left of the list of the model's `source`; read `specs/Plain.antt` first, then `specs/Rankings.antt`, `specs/NearPlans.antt`
//! and `specs/Joins.antt`.
#![tactic(auto)]

mod answer;
mod join_source;
mod knn_source;
mod near_source;
mod pair_answer;
mod pair_search;
mod pick_between;
mod pick_equal;
mod rank_source;
mod rtree_column;
mod scan;
mod search;
mod semi_source;
mod tree_column;

pub use join_source::JoinSource;
pub use knn_source::KnnSource;
pub use near_source::NearSource;
pub use pick_between::PickBetween;
pub use pick_equal::PickEqual;
pub use rank_source::RankSource;
pub use rtree_column::RtreeColumn;
pub use scan::Scan;
pub use semi_source::SemiSource;
pub use tree_column::TreeColumn;
