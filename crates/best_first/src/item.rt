// What the queue of a best-first search holds, and its order.
ghost use Rattle.std.specs.Prelude.{◌≡◌, refl};
ghost use Rattle.std.specs.Cmp.{eq_by_cmp_equiv, partial_equiv_from_equiv, partial_order_from_total};
ghost use Rattle.std.specs.Ordering.{eq_by_cmp, as_partial_cmp};
ghost use Rattle.best_first.specs.Item.{gap_of};
ghost use Rattle.best_first.specs.Order.{item_cmp, item_total};
ghost use Rattle.best_first.specs.OrderLaws.{kind_cmp};

use exact_frac::Frac;
use std::cmp::Ordering;

/// An entry of the frontier under its squared distance from the query object. A node and a rough object carry
/// a lower bound of the distances that they stand for, and a row its exact distance. `right` is 0 where a
/// hierarchy has single objects.
#[derive(Clone, Copy, Debug)]
pub enum Item<N> {
    /// A node of the hierarchy, which an expansion replaces by its children or by the items of its leaf.
    Node { gap: Frac, node: N },
    /// An object that the index knows by a bounding shape: its geometry is still to be fetched.
    Rough { gap: Frac, left: u32, right: u32 },
    /// An object with its exact distance.
    Row { gap: Frac, left: u32, right: u32 },
}

impl<N> Item<N> {
    /// The squared distance under which the item stands.
    #[inline]
    pub fn gap(&self) -> Frac
        ensures { result ≡ gap_of self.now }
    {
        match self {
            Item::Node { gap, .. } => *gap,
            Item::Rough { gap, .. } => *gap,
            Item::Row { gap, .. } => *gap,
        }
    }
}

impl<N: Ord> Item<N> {
    // The order among items of equal gap: nodes, then rough objects, then rows.
    #[inline(never)]
    fn kind_cmp(&self, other: &Item<N>) -> Ordering
        ensures { result ≡ kind_cmp N.cmp self.now other.now }
    {
        match (self, other) {
            (Item::Node { node, .. }, Item::Node { node: second, .. }) => node.cmp(second),
            (Item::Node { .. }, _) => Ordering::Less,
            (_, Item::Node { .. }) => Ordering::Greater,
            (
                Item::Rough { left, right, .. },
                Item::Rough {
                    left: l,
                    right: r,
                    ..
                },
            ) => { left.cmp(l).then(right.cmp(r)) }
            (Item::Rough { .. }, Item::Row { .. }) => Ordering::Less,
            (Item::Row { .. }, Item::Rough { .. }) => Ordering::Greater,
            (
                Item::Row { left, right, .. },
                Item::Row {
                    left: l,
                    right: r,
                    ..
                },
            ) => { left.cmp(l).then(right.cmp(r)) }
        }
    }
}

impl<N: Ord> PartialEq for Item<N> {
    ghost eq = { eq_by_cmp (item_cmp N.cmp) };

    ghost laws = { partial_equiv_from_equiv (eq_by_cmp_equiv (item_total N.total)) };

    // Two rows that differ in an id need no comparison of their gaps.
    #[inline]
    fn eq(&self, other: &Item<N>) -> bool {
        match (self, other) {
            (
                Item::Row { left, right, .. },
                Item::Row {
                    left: l,
                    right: r,
                    ..
                },
            ) if left != l || right != r => false,
            _ => self.cmp(other).is_eq(),
        }
    }
}

impl<N: Ord> Eq for Item<N> {
    ghost laws = { eq_by_cmp_equiv (item_total N.total) };
}

impl<N: Ord> PartialOrd for Item<N> {
    ghost partial_cmp = { as_partial_cmp (item_cmp N.cmp) };

    ghost laws = { partial_order_from_total (item_total N.total) };

    fn partial_cmp(&self, other: &Item<N>) -> Option<Ordering> {
        Some(self.cmp(other))
    }
}

impl<N: Ord> Ord for Item<N> {
    ghost cmp = { item_cmp N.cmp };

    ghost total = { item_total N.total };

    ghost matches_partial_cmp = { λ x y. refl };

    ghost matches_eq = { λ x y. refl };

    /// By the value of the gap, then nodes before rough objects before rows, then by node or by the ids.
    #[inline(always)]
    fn cmp(&self, other: &Item<N>) -> Ordering {
        match self.gap().cmp(&other.gap()) {
            Ordering::Equal => self.kind_cmp(other),
            apart => apart,
        }
    }
}
