ghost use Rattle.std.specs.Prelude.{◌≡◌, IfSome};
ghost use Rattle.page_pool.specs.Reads.{IsRead};
ghost use Rattle.page_pool.specs.Causes.{HasPageCause};
ghost use Rattle.best_first.specs.Steps.{Falls};
ghost use Rattle.best_first.specs.Visits.{told_pages, GivesNext, last_after, MakesVisits};
ghost use Rattle.rank_cursor.specs.Cursor.{visit_of};
ghost use Rattle.rank_cursor.specs.Ranking.{rank_meaning};
ghost use Rattle.plan_sources.specs.Rankings.{by_code, ranking_of, hierarchy_of, last_row_of, search_state, search_steps, counted_by, HasItsCeiling, StandsOn};

use best_first::{BestFirst, Hit, Item, ZeroSearch};
use page_pool::{Desk, Disk, PageFault};
use rank_cursor::RankTree;
use rank_queue::CopyQueue;
use sand_store::FileShapes;
use z_code::Block;

/// The search of a ranking, of one of two kinds: within the distance 0 no gaps have to be compared.
#[derive(Drop)]
pub enum Search {
    /// The rows by their distance, from a frontier in a pairing heap.
    Nearest(BestFirst<RankTree<FileShapes>, CopyQueue<Item<Block>>>),
    /// The rows at the distance 0, by their ids.
    AtZero(ZeroSearch<RankTree<FileShapes>>),
}

impl Search {
    // The next row. After a refusal the same rows are left.
    pub fn next<D: Disk>(&mut self, desk: &mut Desk<D>) -> Result<Option<Hit>, PageFault>
        requires { IfSome (told_pages desk.old) (StandsOn self.old) }
        ensures hierarchy { hierarchy_of self.new ≡ hierarchy_of self.old }
        ensures ceiling { HasItsCeiling self.old → HasItsCeiling self.new }
        ensures read { IsRead desk.old.pool desk.new.pool }
        ensures cause { HasPageCause desk.old.pool desk.new.pool result }
        ensures row { IfSome (told_pages desk.old) (λ p. GivesNext (rank_meaning (ranking_of (hierarchy_of self.old) p)) (last_row_of self.old) result) }
        ensures last { last_row_of self.new ≡ last_after (last_row_of self.old) result }
        ensures visits { IfSome (told_pages desk.old) (λ p. MakesVisits by_code (rank_meaning (ranking_of (hierarchy_of self.old) p)) (visit_of (hierarchy_of self.old).pmr.number)
            (search_state self.old desk.old) (search_state self.new desk.new) result) }
        ensures falls { Falls (search_steps self.old) (search_steps self.new) result }
    {
        match self {
            Search::Nearest(search) => return search.next(desk),
            Search::AtZero(search) => return search.next(desk),
        }
    }

    // The number of blocks that were visited.
    pub fn visited(&self) -> u64
        ensures { result ≡ (counted_by self.now).visited }
    {
        match self {
            Search::Nearest(search) => search.visited(),
            Search::AtZero(search) => search.visited(),
        }
    }

    // The number of rows whose geometry was fetched.
    pub fn fetched(&self) -> u64
        ensures { result ≡ (counted_by self.now).fetched }
    {
        match self {
            Search::Nearest(search) => search.fetched(),
            Search::AtZero(search) => search.fetched(),
        }
    }
}
