// What no clause says: that the definitions give the values that were worked out by hand.
use exact_frac::{Frac, MAX_DEN, MAX_NUM};
use std::cmp::Ordering;
use std::process::Abort;

fn fraction(rt: &impl Abort, (num, den): (u128, u128)) -> Frac {
    assert!(rt; num <= MAX_NUM && 1 <= den && den <= MAX_DEN, "{num}/{den}");
    Frac::new(num, den)
}

static ORDERED: [((u128, u128), (u128, u128), Ordering); 11] = [
    ((4, 5), (4294836225, 4294836226), Ordering::Less),
    ((4294836225, 4294836226), (1, 1), Ordering::Less),
    ((1, 1), (4, 5), Ordering::Greater),
    ((3, 2), (4, 2), Ordering::Less),
    ((1, 3), (1, 2), Ordering::Less),
    ((2, 4), (50, 100), Ordering::Equal),
    ((0, 1), (0, 7), Ordering::Equal),
    ((0, 7), (1, MAX_DEN), Ordering::Less),
    ((MAX_NUM, MAX_DEN), (MAX_DEN, 1), Ordering::Equal),
    ((MAX_NUM - 1, MAX_DEN), (MAX_DEN, 1), Ordering::Less),
    ((MAX_NUM, 1), (MAX_NUM, 2), Ordering::Greater),
];

// The two fractions of each case are in this order.
fn are_ordered(rt: &impl Abort, cases: &[((u128, u128), (u128, u128), Ordering)]) {
    for &(left, right, want) in cases {
        let (a, b) = (fraction(rt, left), fraction(rt, right));
        let found = (a.compare(&b), a.cmp(&b), a == b, a < b);
        let wanted = (want, want, want.is_eq(), want.is_lt());
        assert_eq!(rt; found, wanted, "{a:?} and {b:?}");
    }
}

#[test]
fn fractions_are_ordered_by_their_values(rt: HostRuntime) {
    are_ordered(&rt, &ORDERED);
}

static PRINTED: [((u128, u128), &str); 10] = [
    ((0, 7), "0"),
    ((25, 1), "25"),
    ((100, 4), "25"),
    ((4, 5), "4/5"),
    ((16, 20), "4/5"),
    ((4294836225, 2), "4294836225/2"),
    ((8589672450, 1), "8589672450"),
    ((MAX_NUM, MAX_DEN), "2199023255552"),
    (
        (MAX_NUM, MAX_DEN - 1),
        "4835703278458516698824704/2199023255551",
    ),
    ((1, MAX_DEN), "1/2199023255552"),
];

// Each fraction has this text.
fn are_printed(rt: &impl Abort, cases: &[((u128, u128), &str)]) {
    for &(parts, text) in cases {
        let printed = fraction(rt, parts).text();
        assert_eq!(rt; printed.as_bytes(), text.as_bytes(), "{text}");
    }
}

#[test]
fn fractions_are_printed_in_lowest_terms(rt: HostRuntime) {
    are_printed(&rt, &PRINTED);
}

static SQUARES: [((u128, u128), u32, bool); 7] = [
    ((0, 7), 0, true),
    ((1, MAX_DEN), 0, false),
    ((4, 1), 2, true),
    ((9, 2), 2, false),
    ((8, 2), 2, true),
    ((17592177655809, 1), 4194303, true),
    ((17592177655810, 1), 4194303, false),
];

// Each fraction is at most the square of the number, or is above it.
fn are_at_most_squares(rt: &impl Abort, cases: &[((u128, u128), u32, bool)]) {
    for &(parts, root, want) in cases {
        assert!(rt; root < 1 << 22, "{root}");
        let found = fraction(rt, parts).at_most_square(root);
        assert_eq!(rt; found, want, "{root}");
    }
}

#[test]
fn a_square_is_met_at_its_edge(rt: HostRuntime) {
    are_at_most_squares(&rt, &SQUARES);
}
