// Quadtrees in pages beside plain ones in memory, after drawn changes, some of which the disk refuses.
use crate::tree_trial::{Course, FIRST_CALLS, begun, change_all};
use page_pool::PageFault;
use std::alloc::Global;
use std::io;

/// What a run of changes came to.
#[derive(Clone, Copy)]
struct Outcome {
    /// Whether the trees were the same each time.
    same: bool,
    /// How many leaves are left.
    leaves: usize,
    /// How many calls were refused.
    refused: u32,
}

/// A run of changes of a tree in pages and of a plain one.
fn run(alloc: Global, course: Course) -> Result<Outcome, PageFault> {
    let mut trial = begun(alloc, course)?;
    change_all(alloc, &mut trial, course)?;
    Ok(Outcome {
        same: trial.same,
        leaves: trial.plain.leaves.len(),
        refused: trial.refused,
    })
}

/// The same course with each call of the disk refused in turn; gives how many runs there were, where the trees were the same in each,
/// and each but the last had one refused call.
fn refused_in_turn(alloc: Global, course: Course) -> Result<Option<u32>, PageFault> {
    let mut runs = 0u32;
    'runs: for fails in FIRST_CALLS + 2..1_000_000 {
        let outcome = run(alloc, Course { fails, ..course })?;
        if !outcome.same {
            return Ok(None);
        }
        if outcome.refused == 0 {
            break;
        }
        runs = runs.saturating_add(1);
    }
    Ok(Some(runs))
}

// The courses without a fault: the threshold, how many changes, of which ids, and after how many the trees are compared.
static COURSES: [(u8, u32, u32, u32); 6] = [
    (1, 400, 60, 1),
    (2, 400, 60, 1),
    (8, 400, 120, 1),
    (1, 2_000, 60, 50),
    (2, 2_000, 60, 50),
    (8, 2_000, 200, 50),
];

// The course of these.
fn course_of((threshold, changes, ids, every): (u8, u32, u32, u32)) -> Course {
    Course {
        threshold,
        changes,
        ids,
        every,
        fails: 0,
    }
}

// Prints what became of the trees of a course.
fn tell_course(rt: &(impl Print + AllocGlobal), course: Course) -> io::Result<()> {
    match run(rt.alloc(), course) {
        Ok(outcome) if outcome.same => rt.println(format_args!(
            "{} changes at threshold {} agree with a plain tree, compared {} times, and leave {} leaves",
            course.changes,
            course.threshold,
            course.changes / course.every.max(1),
            outcome.leaves
        )),
        _ => rt.println(format_args!("changes of a quadtree differ, or memory was short")),
    }
}

// Prints what became of the trees where each call of the disk is refused in turn.
fn tell_refused(rt: &(impl Print + AllocGlobal)) -> io::Result<()> {
    match refused_in_turn(rt.alloc(), course_of((2, 60, 20, 60))) {
        Ok(Some(runs)) => rt.println(format_args!(
            "60 changes, with each of {runs} calls of the disk refused in turn, leave the tree of before each time"
        )),
        _ => rt.println(format_args!("a refused call changed a quadtree, or memory was short")),
    }
}

/// Compares quadtrees with plain ones: after each change, in steps of 50, and with each call of the disk refused in turn.
pub fn tell(rt: &(impl Print + AllocGlobal)) -> io::Result<()> {
    for each in &COURSES {
        tell_course(rt, course_of(*each))?;
    }
    tell_refused(rt)
}
