ghost use Rattle.std.specs.Prelude.{◌≡◌, codes, true, false, Some, None};
ghost use Rattle.script_text.specs.Form.{a_natural, alt, nothing};
ghost use Rattle.script_text.specs.Grammar.{reading, whole};
ghost use Rattle.statements.specs.Statement.{statement_value};
ghost use Rattle.script_text.specs.Reading.{Gives, GivesAs};
ghost use Rattle.script_text.specs.Rules.{after_word, case_word, create_rest, insert_rest, delete_rest, load_rest, index_rest, rtree_rest, open_rest};
ghost use Rattle.script_text.specs.Rules.{next_rest, close_rest, show_rest, stats_rest, far_rest, blocks_rest, query_form, statement_form};

use crate::cursor::Cursor;
use crate::stuck::Stuck;
use crate::token::Symbol;
use crate::{MOST_ROWS, Statement};
use sand_base::{Row, Schema};
use std::alloc::Global;

impl<'t> Cursor<'t> {
    // Reads a `create`, after its word.
    fn create(&mut self, alloc: Global) -> Result<Statement, Stuck>
        ensures { GivesAs statement_value (reading create_rest) self.old self.new result }
    {
        let relation = self.name(alloc)?;
        self.mark(Symbol::Open)?;
        let columns = self.columns(alloc)?;
        self.note(columns.len() <= 12);
        self.mark(Symbol::Close)?;
        Ok(Statement::Create {
            relation,
            columns: Schema::new(columns),
        })
    }

    // Reads an `insert`, after its word.
    fn insert(&mut self, alloc: Global) -> Result<Statement, Stuck>
        ensures { GivesAs statement_value (reading insert_rest) self.old self.new result }
    {
        let relation = self.name(alloc)?;
        let values = Row::new(self.values(alloc)?);
        Ok(Statement::Insert { relation, values })
    }

    // Reads a `delete`, after its word.
    fn delete(&mut self, alloc: Global) -> Result<Statement, Stuck>
        ensures { GivesAs statement_value (reading delete_rest) self.old self.new result }
    {
        let relation = self.name(alloc)?;
        let id = self.natural(0, u32::MAX)?;
        Ok(Statement::Delete { relation, id })
    }

    // Reads whether the first record is passed over.
    fn header(&mut self) -> Result<bool, Stuck>
        ensures { Gives (reading (case_word (codes "header") (nothing true) (nothing false))) self.old self.new result }
    {
        Ok(self.accept_word("header"))
    }

    // Reads a `load`, after its word.
    fn load(&mut self, alloc: Global) -> Result<Statement, Stuck>
        ensures { GivesAs statement_value (reading load_rest) self.old self.new result }
    {
        let relation = self.name(alloc)?;
        let file = self.text(alloc)?;
        let header = self.header()?;
        Ok(Statement::Load {
            relation,
            file,
            header,
        })
    }

    // Reads how many ids a leaf may hold, where it is said.
    fn threshold(&mut self) -> Result<Option<u8>, Stuck>
        ensures { Gives (reading (alt (a_natural 1 64) (λ n (u : Unit {0}). Some n) (nothing tt) (nothing None))) self.old self.new result }
    {
        if !self.is_number() {
            return Ok(None);
        }
        let threshold = self.natural(1, 64)?;
        Ok(Some(threshold as u8))
    }

    // Reads an `index`, after its word.
    fn index(&mut self, alloc: Global) -> Result<Statement, Stuck>
        ensures { GivesAs statement_value (reading index_rest) self.old self.new result }
    {
        let column = self.column(alloc)?;
        let threshold = self.threshold()?;
        Ok(Statement::Index { column, threshold })
    }

    // Reads an `rtree`, after its word.
    fn rtree(&mut self, alloc: Global) -> Result<Statement, Stuck>
        ensures { GivesAs statement_value (reading rtree_rest) self.old self.new result }
    {
        let column = self.column(alloc)?;
        Ok(Statement::Rtree { column })
    }

    // Reads an `open`, after its word.
    fn open(&mut self, alloc: Global) -> Result<Statement, Stuck>
        ensures { GivesAs statement_value (reading open_rest) self.old self.new result }
    {
        let cursor = self.name(alloc)?;
        self.mark(Symbol::Equal)?;
        let plan = self.plan(alloc)?;
        Ok(Statement::OpenCursor { cursor, plan })
    }

    // Reads a `next`, after its word.
    fn next(&mut self, alloc: Global) -> Result<Statement, Stuck>
        ensures { GivesAs statement_value (reading next_rest) self.old self.new result }
    {
        let cursor = self.name(alloc)?;
        let count = self.natural(1, MOST_ROWS)?;
        Ok(Statement::Next { cursor, count })
    }

    // Reads a `close`, after its word.
    fn close(&mut self, alloc: Global) -> Result<Statement, Stuck>
        ensures { GivesAs statement_value (reading close_rest) self.old self.new result }
    {
        let cursor = self.name(alloc)?;
        Ok(Statement::CloseCursor { cursor })
    }

    // Reads a `show`, after its word.
    fn show(&mut self, alloc: Global) -> Result<Statement, Stuck>
        ensures { GivesAs statement_value (reading show_rest) self.old self.new result }
    {
        let count = self.natural(1, MOST_ROWS)?;
        let plan = self.plan(alloc)?;
        Ok(Statement::Show { count, plan })
    }

    // Reads a `stats`, after its word.
    fn stats(&mut self, alloc: Global) -> Result<Statement, Stuck>
        ensures { GivesAs statement_value (reading stats_rest) self.old self.new result }
    {
        let cursor = self.name(alloc)?;
        Ok(Statement::Stats { cursor })
    }

    // Reads a `far`, after its word.
    fn far(&mut self, alloc: Global) -> Result<Statement, Stuck>
        ensures { GivesAs statement_value (reading far_rest) self.old self.new result }
    {
        let count = self.natural(1, MOST_ROWS)?;
        let column = self.column(alloc)?;
        self.word("from")?;
        let goal = self.spot()?;
        Ok(Statement::Far {
            count,
            column,
            goal,
        })
    }

    // Reads a `blocks`.
    fn blocks(&mut self, alloc: Global) -> Result<Statement, Stuck>
        ensures { GivesAs statement_value (reading (after_word (codes "blocks") blocks_rest)) self.old self.new result }
    {
        self.word("blocks")?;
        let column = self.column(alloc)?;
        Ok(Statement::Blocks { column })
    }

    // Reads a statement that changes no relation.
    fn query(&mut self, alloc: Global) -> Result<Statement, Stuck>
        ensures { GivesAs statement_value (reading query_form) self.old self.new result }
    {
        if self.accept_word("open") {
            return self.open(alloc);
        }
        if self.accept_word("next") {
            return self.next(alloc);
        }
        if self.accept_word("close") {
            return self.close(alloc);
        }
        if self.accept_word("show") {
            return self.show(alloc);
        }
        if self.accept_word("stats") {
            return self.stats(alloc);
        }
        if self.accept_word("far") {
            return self.far(alloc);
        }
        self.blocks(alloc)
    }

    // Reads a statement.
    fn statement(&mut self, alloc: Global) -> Result<Statement, Stuck>
        ensures { GivesAs statement_value (reading statement_form) self.old self.new result }
    {
        if self.accept_word("create") {
            return self.create(alloc);
        }
        if self.accept_word("insert") {
            return self.insert(alloc);
        }
        if self.accept_word("delete") {
            return self.delete(alloc);
        }
        if self.accept_word("load") {
            return self.load(alloc);
        }
        if self.accept_word("index") {
            return self.index(alloc);
        }
        if self.accept_word("rtree") {
            return self.rtree(alloc);
        }
        self.query(alloc)
    }

    /// Reads a statement, which is all that is left.
    #[tactic(auto, unfolding(crate::specs::Grammar::whole))]
    pub fn whole_statement(&mut self, alloc: Global) -> Result<Statement, Stuck>
        ensures { GivesAs statement_value (whole statement_form) self.old self.new result }
    {
        let statement = self.statement(alloc)?;
        self.end().and(Ok(statement))
    }
}
