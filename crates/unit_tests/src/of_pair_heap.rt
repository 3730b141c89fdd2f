use pair_heap::PairHeap;
use sand_base::NoMemory;
use std::alloc::Global;
use std::process::Abort;
use std::test::Fail;

const MANY: u64 = 1_000_000;

// A heap of ascending numbers, whose root has all others as its children.
fn ascending(alloc: Global) -> Result<PairHeap<u64>, NoMemory> {
    let mut heap = PairHeap::empty(alloc);
    for number in 0..MANY {
        heap.reserve(1)?;
        heap.push(number);
    }
    Ok(heap)
}

// A heap of descending numbers, each of which has the one before as its only child.
fn descending(alloc: Global) -> Result<PairHeap<u64>, NoMemory> {
    let mut heap = PairHeap::empty(alloc);
    for number in 0..MANY {
        heap.reserve(1)?;
        heap.push(MANY - number);
    }
    Ok(heap)
}

#[test]
fn a_root_with_a_million_children_is_dropped(rt: HostRuntime) -> Result<(), Fail> {
    let heap = ascending(rt.alloc())?;
    assert_eq!(rt; heap.len() as u64, MANY);
    Ok(())
}

#[test]
fn a_million_nodes_below_one_another_are_dropped(rt: HostRuntime) -> Result<(), Fail> {
    let heap = descending(rt.alloc())?;
    assert_eq!(rt; heap.peek(), Some(&1));
    Ok(())
}

// The heap gives so many numbers, from 0 on.
fn gives_numbers(rt: &impl Abort, heap: &mut PairHeap<u64>, count: u64) {
    for number in 0..count {
        assert_eq!(rt; heap.peek(), Some(&number));
        assert_eq!(rt; heap.pop(), Some(number));
    }
}

#[test]
fn a_thousand_numbers_come_in_order_before_the_drop(rt: HostRuntime) -> Result<(), Fail> {
    let mut heap = ascending(rt.alloc())?;
    gives_numbers(&rt, &mut heap, 1_000);
    assert_eq!(rt; (heap.len() as u64, heap.spare()), (MANY - 1_000, 1_000));
    Ok(())
}

#[test]
fn borrowed_texts_come_in_order(rt: HostRuntime) -> Result<(), Fail> {
    let mut heap = PairHeap::empty(rt.alloc());
    heap.reserve(3)?;
    heap.push("pear");
    heap.push("apple");
    heap.push("plum");
    for text in [Some("apple"), Some("pear"), Some("plum"), None] {
        assert_eq!(rt; heap.pop(), text);
    }
    Ok(())
}
