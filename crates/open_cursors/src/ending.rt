use crate::OpenCursor;
use plan_ops::{Source, Stage};
use script_text::{Plan, Statement};

/// Ends cursors over plans, the one place where they are let go. It takes no memory.
pub fn end_cursors(cursors: Vec<OpenCursor<Source, Stage>>) {}

// Ends a plan: here alone it is dropped.
fn end_plan(_plan: Plan) {}

/// Ends a statement: here alone it is dropped, and its plan apart, since a drop has a way for each form of what it drops.
pub fn end_statement(statement: Statement) {
    match statement {
        Statement::OpenCursor { cursor: _, plan } => end_plan(plan),
        Statement::Show { count: _, plan } => end_plan(plan),
        _ => {}
    }
}
