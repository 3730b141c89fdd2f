use rank_queue::{PairQueue, PlainQueue, Queue};
use std::process::Abort;
use std::test::Fail;

#[derive(Clone, Copy)]
enum Step {
    Push(u8),
    Pop(u8),
    End,
}

use Step::{End, Pop, Push};

// Each line is a case: a push, a pop and the item that it gives, and at the end a pop that gives none.
const CASES: [(&str, &[Step]); 6] = [
    ("no item", &[End]),
    ("one item", &[Push(7), Pop(7), End]),
    (
        "ascending",
        &[
            Push(1),
            Push(2),
            Push(3),
            Push(4),
            Pop(1),
            Pop(2),
            Pop(3),
            Pop(4),
            End,
        ],
    ),
    (
        "an odd row below the root",
        &[
            Push(1),
            Push(4),
            Push(3),
            Push(2),
            Pop(1),
            Pop(2),
            Pop(3),
            Pop(4),
            End,
        ],
    ),
    (
        "equal items are all kept",
        &[
            Push(2),
            Push(1),
            Push(2),
            Push(1),
            Pop(1),
            Pop(1),
            Pop(2),
            Pop(2),
            End,
        ],
    ),
    (
        "pops between pushes",
        &[
            Push(5),
            Push(9),
            Pop(5),
            Push(3),
            Push(8),
            Pop(3),
            Pop(8),
            Push(1),
            Pop(1),
            Pop(9),
            End,
        ],
    ),
];

// The queue shows this item and gives it, or has none.
fn gives<Q: Queue<u8>>(rt: &impl Abort, queue: &mut Q, item: Option<u8>, name: &str) {
    assert_eq!(rt; queue.peek(), item.as_ref(), "{name}");
    assert_eq!(rt; queue.pop(), item, "{name}");
}

// Takes the queue through the steps of a case.
fn keeps_to<Q: Queue<u8>>(
    rt: &impl Abort,
    queue: &mut Q,
    name: &str,
    steps: &[Step],
) -> Result<(), Fail> {
    for step in steps {
        match *step {
            Push(item) => {
                queue.reserve(1)?;
                queue.push(item);
            }
            Pop(item) => gives(rt, queue, Some(item), name),
            End => {
                gives(rt, queue, None, name);
                assert_eq!(rt; queue.len(), 0, "{name}");
            }
        }
    }
    Ok(())
}

// Takes the queue through the steps of these cases.
fn keeps_to_each<Q: Queue<u8>>(
    rt: &impl Abort,
    queue: &mut Q,
    cases: &[(&str, &[Step])],
) -> Result<(), Fail> {
    for (name, steps) in cases {
        keeps_to(rt, queue, name, steps)?;
    }
    Ok(())
}

fn keeps_to_the_cases<Q: Queue<u8>>(rt: &impl Abort, queue: &mut Q) -> Result<(), Fail> {
    keeps_to_each(rt, queue, &CASES)
}

#[test]
fn the_plain_queue_keeps_to_the_cases(rt: HostRuntime) -> Result<(), Fail> {
    let mut queue: PlainQueue<u8> = PlainQueue::empty(rt.alloc());
    keeps_to_the_cases(&rt, &mut queue)
}

#[test]
fn the_pairing_queue_keeps_to_the_cases(rt: HostRuntime) -> Result<(), Fail> {
    let mut queue: PairQueue<u8> = PairQueue::empty(rt.alloc());
    keeps_to_the_cases(&rt, &mut queue)
}

// A push takes one of the places, however many a queue holds, and a pop gives it back.
fn gives_a_place_back<Q: Queue<u8>>(rt: &impl Abort, queue: &mut Q) -> Result<(), Fail> {
    queue.reserve(2)?;
    let places = queue.spare();
    queue.push(3);
    let is_taken = queue.spare() < places;
    assert_eq!(rt;
        (is_taken, queue.pop(), queue.spare()),
        (true, Some(3), places)
    );
    Ok(())
}

#[test]
fn a_pop_gives_its_place_back(rt: HostRuntime) -> Result<(), Fail> {
    let mut plain: PlainQueue<u8> = PlainQueue::empty(rt.alloc());
    let mut pair: PairQueue<u8> = PairQueue::empty(rt.alloc());
    gives_a_place_back(&rt, &mut plain)?;
    gives_a_place_back(&rt, &mut pair)
}
