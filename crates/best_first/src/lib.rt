//! The best-first search: rows of a ranked answer one by one, nearest first, over a tree of lower bounds.
//!
//! A queue (the frontier) holds nodes, rough objects and rows under their squared distances. The nearest is taken:
//! a node is replaced by what it finds, a rough object by its row once its geometry is fetched, and a row is given.
//! Within the distance 0, what a window asks for, all gaps are 0 and none is compared (`ZeroSearch`): each node there is opened, in any order, then
//! each rough object there is fetched, and then the rows come in the order of their ids, which are bits of a set.
//! Above: `rank_cursor`, `dist_join` and `semi_join`. Below: `rank_queue` for the queue, `page_pool` for the desk
//! that lends pages and logs visits, `exact_frac` for distances.
//! Contracts see a hierarchy by its `Meaning` and a search by its frontier; read `specs/Hierarchy.antt` first, then
//! `specs/Answer.antt`, `specs/Frontier.antt` and `specs/Visits.antt`; for the distance 0 `specs/ZeroItems.antt` and `specs/WithinZero.antt`.
//! After G. Hjaltason and H. Samet, Distance browsing in spatial databases (1999).
#![tactic(auto)]

mod counts;
mod engine;
mod fetch_at_zero;
mod fetch_rough;
mod fetch_wanted;
mod frontier;
mod give_at_zero;
mod give_row;
mod hierarchy;
mod hit;
mod id_set;
mod item;
mod open_at_zero;
mod open_node;
mod open_wanted;
mod push_wanted;
mod push_within;
mod rows;
mod search;
mod settle;
mod settle_at_zero;
mod settle_wanted;
mod step;
mod step_at_zero;
mod step_wanted;
mod take_equal;
mod wanted;
mod zero_hierarchy;
mod zero_queue;

pub use counts::Counts;
pub use engine::BestFirst;
pub use frontier::Frontier;
pub use hierarchy::Hierarchy;
pub use hit::Hit;
pub use item::Item;
pub use rows::Rows;
pub use search::ZeroSearch;
pub use wanted::Wanted;
pub use zero_hierarchy::ZeroHierarchy;
pub use zero_queue::ZeroQueue;
