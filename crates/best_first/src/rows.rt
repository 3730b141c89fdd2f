ghost use Rattle.std.specs.Prelude.{◌≡◌, ◌≢◌, IfSome, false, Ok};
ghost use Rattle.std.specs.Iterator.{at_most};
ghost use Rattle.best_first.specs.Frontier.{StandsOver};
ghost use Rattle.best_first.specs.Visits.{told_pages, state, last_after};
ghost use Rattle.best_first.specs.Steps.{steps};
ghost use Rattle.best_first.specs.Rows.{StepsDesk, StepsOutcome, GivesRowsNext, StepsSearch, search_answer};

use crate::{BestFirst, Hierarchy, Hit, Item};
use page_pool::{Desk, Disk, PageFault};
use rank_queue::Queue;

/// The rows to come, as a lazy iterator: each step is one `next`, and nothing is done before it is asked. It gives
/// None at the end and after a fault, which `outcome` tells apart.
pub struct Rows<'c, 'd, H: Hierarchy, Q, D: Disk> {
    pub(crate) cursor: &'c mut BestFirst<H, Q>,
    pub(crate) desk: &'d mut Desk<D>,
    pub(crate) outcome: Result<bool, PageFault>,
}

impl<'c, 'd, H: Hierarchy, Q, D: Disk> Drop for Rows<'c, 'd, H, Q, D> {
    fn drop(self) {
        let Rows {
            cursor: _,
            desk: _,
            outcome: _,
        } = self;
    }
}

impl<'c, 'd, H: Hierarchy, Q, D: Disk> Rows<'c, 'd, H, Q, D> {
    /// Ok(true) exactly where a step found the answer exhausted, Ok(false) exactly where no step has given None,
    /// and the fault where one came.
    pub fn outcome(&self) -> Result<bool, PageFault>
        ensures { result ≡ self.now.outcome }
    {
        self.outcome
    }
}

impl<'c, 'd, H: Hierarchy, Q: Queue<Item<H::Node>>, D: Disk> Iterator for Rows<'c, 'd, H, Q, D> {
    type Item = Hit;

    ghost can_next = { λ r. IfSome (told_pages r.desk.now) (λ p. StandsOver H.Node.cmp (H.meaning r.cursor.now.hierarchy p) (Q.held r.cursor.now.frontier.queue) r.cursor.now.frontier.last) };

    ghost next_gives = { λ r row s. StepsOutcome r.outcome row s.outcome × (r.outcome ≡ Ok false → StepsDesk r.desk.now s.desk.now s.outcome)
        × (r.outcome ≡ Ok false → IfSome (told_pages r.desk.now) (λ p. GivesRowsNext (H.meaning r.cursor.now.hierarchy p) r.cursor.now.frontier.last row s.outcome))
        × (r.outcome ≡ Ok false → (s.cursor.now.hierarchy ≡ r.cursor.now.hierarchy) × (s.cursor.now.frontier.last ≡ last_after r.cursor.now.frontier.last (search_answer row s.outcome)))
        × (r.outcome ≡ Ok false → IfSome (told_pages r.desk.now)
        (λ p. StepsSearch H.Node.cmp (H.meaning r.cursor.now.hierarchy p) (H.note r.cursor.now.hierarchy)
        (state (Q.held r.cursor.now.frontier.queue) r.cursor.now.frontier.last r.cursor.now.frontier.counts r.desk.now)
        (state (Q.held s.cursor.now.frontier.queue) s.cursor.now.frontier.last s.cursor.now.frontier.counts s.desk.now)
        (search_answer row s.outcome))) × (r.outcome ≢ Ok false → (s.cursor.now ≡ r.cursor.now) × (s.desk.now ≡ r.desk.now)) };

    ghost remaining = { λ r. at_most (steps (H.weight r.cursor.now.hierarchy) (Q.held r.cursor.now.frontier.queue)) };

    fn next(&mut self) -> Option<Hit> {
        match self.outcome {
            Ok(false) => {}
            _ => return None,
        }
        match self.cursor.next(self.desk) {
            Ok(Some(hit)) => Some(hit),
            Ok(None) => {
                self.outcome = Ok(true);
                None
            }
            Err(fault) => {
                self.outcome = Err(fault);
                None
            }
        }
    }
}
