ghost use Rattle.std.specs.Prelude.{◌≡◌, IfOk};
ghost use Rattle.script_text.specs.Page.{with_pieces};
ghost use Rattle.statements.specs.Plan.{plan_value};
ghost use Rattle.script_text.specs.Printing.{printed, words};
ghost use Rattle.statements.specs.Statement.{statement_value, Create, Insert, Delete, Load, Index, Rtree, OpenCursor, Next, CloseCursor, Show, Stats, Far, Blocks};

use crate::printer::Printer;
use crate::token::Symbol;
use crate::{Column, Plan, Statement};
use sand_base::{Label, NoMemory, Point, Row, Schema};
use std::alloc::Global;

#[tactic(auto, using(crate::proofs::Pages::put_append), unfolding(crate::specs::Page::with_pieces))]
impl Printer {
    // Writes a `create`.
    fn create(&mut self, relation: &Label, columns: &Schema) -> Result<(), NoMemory>
        ensures { IfOk result (λ _. self.new ≡ with_pieces self.old (words (Create relation.now columns.now))) }
    {
        self.name("create")?;
        self.name(relation.as_str())?;
        self.mark(Symbol::Open)?;
        self.fields(columns.columns())?;
        self.mark(Symbol::Close)?;
        Ok(())
    }

    // Writes an `insert`.
    fn insert(&mut self, relation: &Label, values: &Row) -> Result<(), NoMemory>
        ensures { IfOk result (λ _. self.new ≡ with_pieces self.old (words (Insert relation.now values.now))) }
    {
        self.name("insert")?;
        self.name(relation.as_str())?;
        self.values(values.values())?;
        Ok(())
    }

    // Writes a `delete`.
    fn delete(&mut self, relation: &Label, id: u32) -> Result<(), NoMemory>
        ensures { IfOk result (λ _. self.new ≡ with_pieces self.old (words (Delete relation.now id))) }
    {
        self.name("delete")?;
        self.name(relation.as_str())?;
        self.natural(id)?;
        Ok(())
    }

    // Writes a `load`.
    fn load(&mut self, relation: &Label, file: &Label, header: bool) -> Result<(), NoMemory>
        ensures { IfOk result (λ _. self.new ≡ with_pieces self.old (words (Load relation.now file.now header))) }
    {
        self.name("load")?;
        self.name(relation.as_str())?;
        self.text(file)?;
        if header {
            self.name("header")?;
        }
        Ok(())
    }

    // Writes an `index`.
    fn index(&mut self, column: &Column, threshold: Option<u8>) -> Result<(), NoMemory>
        ensures { IfOk result (λ _. self.new ≡ with_pieces self.old (words (Index column.now threshold))) }
    {
        self.name("index")?;
        self.column(column)?;
        if let Some(threshold) = threshold {
            self.natural(u32::from(threshold))?;
        }
        Ok(())
    }

    // Writes an `rtree`.
    fn rtree(&mut self, column: &Column) -> Result<(), NoMemory>
        ensures { IfOk result (λ _. self.new ≡ with_pieces self.old (words (Rtree column.now))) }
    {
        self.name("rtree")?;
        self.column(column)?;
        Ok(())
    }

    // Writes an `open`.
    fn open(&mut self, cursor: &Label, plan: &Plan) -> Result<(), NoMemory>
        ensures { IfOk result (λ _. self.new ≡ with_pieces self.old (words (OpenCursor cursor.now (plan_value plan.now)))) }
    {
        self.name("open")?;
        self.name(cursor.as_str())?;
        self.mark(Symbol::Equal)?;
        self.plan(plan)?;
        Ok(())
    }

    // Writes a `next`.
    fn next(&mut self, cursor: &Label, count: u32) -> Result<(), NoMemory>
        ensures { IfOk result (λ _. self.new ≡ with_pieces self.old (words (Next cursor.now count))) }
    {
        self.name("next")?;
        self.name(cursor.as_str())?;
        self.natural(count)?;
        Ok(())
    }

    // Writes a `show`.
    fn show(&mut self, count: u32, plan: &Plan) -> Result<(), NoMemory>
        ensures { IfOk result (λ _. self.new ≡ with_pieces self.old (words (Show count (plan_value plan.now)))) }
    {
        self.name("show")?;
        self.natural(count)?;
        self.plan(plan)?;
        Ok(())
    }

    // Writes a `close`.
    fn close(&mut self, cursor: &Label) -> Result<(), NoMemory>
        ensures { IfOk result (λ _. self.new ≡ with_pieces self.old (words (CloseCursor cursor.now))) }
    {
        self.name("close")?;
        self.name(cursor.as_str())?;
        Ok(())
    }

    // Writes a `stats`.
    fn stats(&mut self, cursor: &Label) -> Result<(), NoMemory>
        ensures { IfOk result (λ _. self.new ≡ with_pieces self.old (words (Stats cursor.now))) }
    {
        self.name("stats")?;
        self.name(cursor.as_str())?;
        Ok(())
    }

    // Writes a `far`.
    fn far(&mut self, count: u32, column: &Column, goal: Point) -> Result<(), NoMemory>
        ensures { IfOk result (λ _. self.new ≡ with_pieces self.old (words (Far count column.now goal))) }
    {
        self.name("far")?;
        self.natural(count)?;
        self.column(column)?;
        self.name("from")?;
        self.spot(goal)?;
        Ok(())
    }

    // Writes a `blocks`.
    fn blocks(&mut self, column: &Column) -> Result<(), NoMemory>
        ensures { IfOk result (λ _. self.new ≡ with_pieces self.old (words (Blocks column.now))) }
    {
        self.name("blocks")?;
        self.column(column)?;
        Ok(())
    }

    // Writes a statement.
    fn statement(&mut self, statement: &Statement) -> Result<(), NoMemory>
        ensures { IfOk result (λ _. self.new ≡ with_pieces self.old (words (statement_value statement.now))) }
    {
        match statement {
            Statement::Create { relation, columns } => self.create(relation, columns),
            Statement::Insert { relation, values } => self.insert(relation, values),
            Statement::Delete { relation, id } => self.delete(relation, *id),
            Statement::Load {
                relation,
                file,
                header,
            } => self.load(relation, file, *header),
            Statement::Index { column, threshold } => self.index(column, *threshold),
            Statement::Rtree { column } => self.rtree(column),
            Statement::OpenCursor { cursor, plan } => self.open(cursor, plan),
            Statement::Next { cursor, count } => self.next(cursor, *count),
            Statement::CloseCursor { cursor } => self.close(cursor),
            Statement::Show { count, plan } => self.show(*count, plan),
            Statement::Stats { cursor } => self.stats(cursor),
            Statement::Far {
                count,
                column,
                goal,
            } => self.far(*count, column, *goal),
            Statement::Blocks { column } => self.blocks(column),
        }
    }
}

/// The printed form of a statement: its tokens, with one space between two of them but beside brackets, commas, dots and
/// the minus of a segment.
#[tactic(auto, using(crate::proofs::Pages::print_all))]
pub fn print_statement(alloc: Global, statement: &Statement) -> Result<Vec<u8>, NoMemory>
    ensures { IfOk result (λ text. text.items ≡ printed (statement_value statement.now)) }
{
    let mut printer = Printer::new(alloc);
    printer.statement(statement)?;
    Ok(printer.into_bytes())
}
