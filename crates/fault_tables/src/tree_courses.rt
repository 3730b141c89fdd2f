// Courses of drawn changes: trees that are planted or built, then changed, and compared with plain lists.
use crate::tree_draws::Draws;
use crate::tree_pool::LEAST_FRAMES;
use crate::tree_trial::{Kind, Trial, shape};
use page_pool::PageFault;
use sand_base::NoMemory;
use std::alloc::Global;

/// The calls of the disk with which the smallest pool begins: it writes its first pages, one more than there are frames, and
/// reads the first.
const FIRST_CALLS: u32 = LEAST_FRAMES + 2;

/// A course: what shapes, how many rows the tree is built from, how many ids come and how many leave then, after how many
/// the tree is compared with the plain list, and which call of the disk fails, 0 for none.
#[derive(Clone, Copy)]
pub struct Course {
    pub kind: Kind,
    pub built: u32,
    pub inserts: u32,
    pub removes: u32,
    pub every: u32,
    pub fails: u32,
}

/// What a course came to.
#[derive(Clone, Copy)]
pub struct Outcome {
    pub same: bool,
    pub refused: u32,
    pub highest: u32,
    pub height: u32,
    pub nodes: u64,
}

// So many ids from the first on come or leave, one after the other.
fn toggle_all(
    alloc: Global,
    trial: &mut Trial,
    course: Course,
    first: u32,
    count: u32,
) -> Result<(), NoMemory> {
    let mut draws = Draws::begin(u64::from(count));
    'ids: for number in 1..=count {
        let id = first.saturating_add(number - 1);
        trial.toggle(id, shape(course.kind, &mut draws))?;
        if course.fails > 0 && number % 32 == 1 {
            trial.empty_frames();
        }
        if course.fails > 0 || number % 50 == 0 {
            trial.make_waiting(alloc);
        }
        if number % course.every.max(1) == 0 {
            trial.compare(alloc);
        }
    }
    trial.make_waiting(alloc);
    trial.compare(alloc);
    Ok(())
}

/// Runs a course, 50 changes in a command, or one where a call of the disk fails. The rows that were built leave from the first on, and those that were inserted after them.
pub fn run(alloc: Global, course: Course) -> Result<Outcome, PageFault> {
    let ids = course.built.saturating_add(course.inserts);
    let frames = if course.fails > 0 { LEAST_FRAMES } else { 256 };
    let mut trial = Trial::begin(alloc, frames, course.fails, ids)?;
    if course.built > 0 {
        trial.build(alloc, course.kind, course.built)?;
        trial.compare(alloc);
    }
    toggle_all(alloc, &mut trial, course, course.built, course.inserts)?;
    toggle_all(alloc, &mut trial, course, 0, course.removes)?;
    Ok(Outcome {
        same: trial.same,
        refused: trial.refused,
        highest: trial.highest,
        height: trial.height(),
        nodes: trial.nodes,
    })
}

/// The same course with each call of the disk refused in turn; gives how many runs there were, where the tree and the plain list
/// were the same in each, and each but the last had a refused call.
pub fn refused_in_turn(alloc: Global, course: Course) -> Result<Option<u32>, PageFault> {
    let mut runs = 0u32;
    'runs: for fails in FIRST_CALLS + 1..100_000 {
        let outcome = run(alloc, Course { fails, ..course })?;
        if !outcome.same {
            return Ok(None);
        }
        if outcome.refused == 0 {
            break;
        }
        runs = runs.saturating_add(1);
    }
    Ok(Some(runs))
}
