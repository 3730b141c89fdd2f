ghost use Rattle.std.specs.Prelude.{◌≡◌, ◌≤◌};
ghost use Rattle.rank_queue.specs.Least.{IsFirst};
ghost use Rattle.best_first.specs.Inside.{TakesEqual};

use rank_queue::Queue;

// Takes the front and all that is one with it. At least one place is reserved from then on.
#[inline]
pub fn take_equal<T: Ord + Drop, Q: Queue<T>>(queue: &mut Q, front: &T)
    requires { IsFirst T.cmp front.now (Q.held queue.old) }
    ensures taken { TakesEqual T.cmp front.now (Q.held queue.old) (Q.held queue.new) }
    ensures spare { 1 ≤ Q.spare queue.new }
{
    let Some(_first) = queue.pop() else { return };
    'equal: while let Some(item) = queue.peek() {
        if front != item {
            return;
        }
        let Some(_other) = queue.pop() else { return };
    }
}
