ghost use Rattle.std.specs.Prelude.{◌≡◌, ◌<◌, find, position, option_map};
ghost use Rattle.sand_store.specs.Catalog.{is_named};

use crate::AccessPath;
use r_tree::RTree;
use sand_base::{Label, NoMemory, Schema};
use std::alloc::Global;
use std::marker::Model;
use tuple_file::{Span, Spans, TupleFile};

/// A relation of the catalog: its columns, the numbers that lead to its rows, indexes and R-trees, and where its rows lie, as far
/// as it is known.
#[derive(Drop)]
pub struct Relation {
    pub(crate) name: Label,
    pub(crate) schema: Schema,
    pub(crate) next: u32,
    pub(crate) file: TupleFile,
    pub(crate) spans: Spans,
    pub(crate) paths: Vec<(usize, AccessPath)>,
    pub(crate) trees: Vec<(usize, RTree)>,
}

/// The numbers that lead to a relation's rows and indexes, as a new row makes them, and where the row lies.
#[derive(Drop)]
pub(crate) struct Growth {
    pub(crate) file: TupleFile,
    pub(crate) span: Span,
    pub(crate) paths: Vec<(usize, AccessPath)>,
    pub(crate) trees: Vec<(usize, RTree)>,
}

/// The numbers that lead to a relation's rows and indexes, as the loss of a row makes them.
#[derive(Drop)]
pub(crate) struct Roots {
    pub(crate) file: TupleFile,
    pub(crate) paths: Vec<(usize, AccessPath)>,
    pub(crate) trees: Vec<(usize, RTree)>,
}

impl Model for Relation {
    ghost use Rattle.sand_store.specs.Catalog.{RelationView};

    ghost Value = { RelationView };

    ghost view = { λ r. record {
      name = r.name;
      schema = r.schema;
      next = r.next;
      file = r.file;
      spans = r.spans;
      paths = r.paths.items;
      trees = r.trees.items;
    } };
}

impl Relation {
    ghost use Rattle.std.specs.Prelude.{IfOk};
    ghost use Rattle.sand_store.specs.Catalog.{new_view};
    ghost use Rattle.sand_store.specs.Steps.{grown_view};
    ghost use Rattle.sand_store.specs.Leaving.{shrunk_view};
    ghost use Rattle.tuple_file.specs.Spans.{Learnt, Forgot};

    /// A relation without access paths and R-trees, whose ids begin at 1.
    pub fn new(alloc: Global, name: Label, schema: Schema, file: TupleFile) -> Relation
        ensures { result ≡ new_view name schema file }
    {
        Relation {
            name,
            schema,
            next: 1,
            file,
            spans: Spans::new(alloc),
            paths: Vec::new(alloc),
            trees: Vec::new(alloc),
        }
    }

    // A relation with the same numbers, which lead to the same pages.
    pub(crate) fn copy(&self, alloc: Global) -> Result<Relation, NoMemory>
        ensures { IfOk result (λ copy. copy ≡ self.now) }
    {
        Ok(Relation {
            name: self.name.copy(alloc)?,
            schema: self.schema.copy(alloc)?,
            next: self.next,
            file: self.file,
            spans: self.spans.copy()?,
            paths: Vec::from_slice(alloc, &self.paths)?,
            trees: Vec::from_slice(alloc, &self.trees)?,
        })
    }

    /// The relation with the numbers that a new row gave it, under the id that was its next one.
    pub(crate) fn take_over(&mut self, growth: Growth)
        requires { self.old.next < 4294967295 }
        ensures grown { self.new ≡ grown_view self.old growth.file growth.paths.items growth.trees.items self.new.spans }
        ensures learnt { Learnt self.old.spans self.old.next growth.span self.new.spans }
    {
        self.spans.learn(self.next, growth.span);
        self.next += 1;
        self.file = growth.file;
        self.paths = growth.paths;
        self.trees = growth.trees;
    }

    /// The relation with the numbers that the loss of the row of an id gave it.
    pub(crate) fn lead_to(&mut self, id: u32, roots: Roots)
        ensures shrunk { self.new ≡ shrunk_view self.old self.new.spans roots.file roots.paths.items roots.trees.items }
        ensures forgot { Forgot self.old.spans id self.new.spans }
    {
        self.spans.forget(id);
        self.file = roots.file;
        self.paths = roots.paths;
        self.trees = roots.trees;
    }

    /// The name.
    pub fn name(&self) -> &str
        ensures { result.now ≡ self.now.name }
    {
        self.name.as_str()
    }

    /// The columns.
    pub fn schema(&self) -> &Schema
        ensures { result.now ≡ self.now.schema }
    {
        &self.schema
    }

    /// The file of the rows.
    pub fn file(&self) -> &TupleFile
        ensures { result.now ≡ self.now.file }
    {
        &self.file
    }

    /// What is known of where the file's rows lie.
    pub fn spans(&self) -> &Spans
        ensures { result.now ≡ self.now.spans }
    {
        &self.spans
    }
}

/// The first relation of the name; `None` exactly where none has it.
pub fn named<'a>(relations: &'a [Relation], name: &str) -> Option<&'a Relation>
    ensures { option_map (λ r. r.now) result ≡ find (is_named name.now) relations.now }
{
    relations.iter().find(|relation| relation.name() == name)
}

/// The place of the first relation of the name.
pub fn place_of(relations: &[Relation], name: &str) -> Option<usize>
    ensures { result ≡ position (is_named name.now) relations.now }
{
    relations
        .iter()
        .position(|relation| relation.name() == name)
}
