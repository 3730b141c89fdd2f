ghost use Rattle.std.specs.Prelude.{◌≡◌, ◌≤◌, true, false, IfOk};
ghost use Rattle.page_pool.specs.Pool.{IsTold};
ghost use Rattle.code_btree.specs.Tree.{pages_in};
ghost use Rattle.code_btree.specs.Calls.{Looks};
ghost use Rattle.r_tree.specs.Entry.{members_of};
ghost use Rattle.r_tree.specs.Page.{node, page_entries, rtree_node};
ghost use Rattle.r_tree.specs.Tree.{node_at};
ghost use Rattle.r_tree.specs.Nodes.{branches_of, ShowsNode, IsTreeNode};

use crate::entry::box_of;
use crate::page::{Page, entry_at, node_count};
use crate::tree::RTree;
use page_pool::{PageFault, Pages};
use sand_base::{NoMemory, Rect, Rough};
use std::alloc::Global;
use std::marker::Model;

/// The branches of an inner node: rectangles, each with the page under it. Contracts see the list.
#[derive(Drop)]
pub struct Branches {
    branches: Vec<(Rect, u64)>,
}

impl Model for Branches {
    ghost use Rattle.std.specs.Prelude.{ℕ, List};
    ghost use Rattle.sand_base.specs.declared.rect.Rect.{Rect};

    ghost Value = { List (Rect × ℕ) };

    ghost view = { λ node. node.branches.items };
}

impl Branches {
    /// These branches.
    pub fn new(branches: Vec<(Rect, u64)>) -> Branches
        ensures { result ≡ branches.items }
    {
        Branches { branches }
    }

    /// The branches, in no order.
    pub fn as_slice(&self) -> &[(Rect, u64)]
        ensures { result.now ≡ self.now }
    {
        &self.branches
    }
}

/// The members of a leaf: ids, each with its rough shape. Contracts see the list.
#[derive(Drop)]
pub struct Members {
    members: Vec<(u32, Rough)>,
}

impl Model for Members {
    ghost use Rattle.std.specs.Prelude.{ℕ, List};
    ghost use Rattle.sand_base.specs.declared.rough.Rough.{Rough};

    ghost Value = { List (ℕ × Rough) };

    ghost view = { λ leaf. leaf.members.items };
}

impl Members {
    /// These members.
    pub fn new(members: Vec<(u32, Rough)>) -> Members
        ensures { result ≡ members.items }
    {
        Members { members }
    }

    /// The members, in no order.
    pub fn as_slice(&self) -> &[(u32, Rough)]
        ensures { result.now ≡ self.now }
    {
        &self.members
    }
}

/// A node of a tree, with its entries.
#[derive(Drop)]
pub enum TreeNode {
    Inner(Branches),
    Leaf(Members),
}

// The branches of an inner node's page that has so many.
fn branches_of(alloc: Global, page: &Page, count: usize) -> Result<Vec<(Rect, u64)>, NoMemory>
    requires { count ≤ 126 }
    ensures { IfOk result (λ list. list.items ≡ branches_of (page_entries count page.now)) }
{
    let mut list = Vec::with_capacity(alloc, count)?;
    'cells: for i in 0..count {
        let entry = entry_at(page, i);
        list.push_reserved((box_of(entry.rough), entry.child));
    }
    Ok(list)
}

// The members of a leaf's page that has so many.
fn members_of(alloc: Global, page: &Page, count: usize) -> Result<Vec<(u32, Rough)>, NoMemory>
    requires { count ≤ 126 }
    ensures { IfOk result (λ list. list.items ≡ members_of (page_entries count page.now)) }
{
    let mut list = Vec::with_capacity(alloc, count)?;
    'cells: for i in 0..count {
        let entry = entry_at(page, i);
        list.push_reserved((entry.id, entry.rough));
    }
    Ok(list)
}

// The inner node that a page is.
fn inner_node(alloc: Global, page: &Page, count: usize) -> Result<TreeNode, NoMemory>
    requires few { count ≤ 126 }
    requires inner { rtree_node page.now ≡ node true (page_entries count page.now) }
    ensures { IfOk result (λ found. ShowsNode (rtree_node page.now) found) }
{
    let branches = branches_of(alloc, page, count)?;
    Ok(TreeNode::Inner(Branches::new(branches)))
}

// The leaf that a page is.
fn leaf_node(alloc: Global, page: &Page, count: usize) -> Result<TreeNode, NoMemory>
    requires few { count ≤ 126 }
    requires leaf { rtree_node page.now ≡ node false (page_entries count page.now) }
    ensures { IfOk result (λ found. ShowsNode (rtree_node page.now) found) }
{
    let members = members_of(alloc, page, count)?;
    Ok(TreeNode::Leaf(Members::new(members)))
}

// The node that a page is; other bytes, which no tree leads to, are refused as out of memory.
fn tree_node(alloc: Global, page: &Page) -> Result<TreeNode, NoMemory>
    ensures { IfOk result (λ found. ShowsNode (rtree_node page.now) found) }
{
    if let Some(count) = node_count(page, true) {
        let found = inner_node(alloc, page, count)?;
        return Ok(found);
    }
    let Some(count) = node_count(page, false) else {
        return Err(NoMemory {});
    };
    let found = leaf_node(alloc, page, count)?;
    Ok(found)
}

impl RTree {
    /// The entries of a node of the tree: one page get.
    pub fn node<P: Pages>(
        &self,
        alloc: Global,
        pages: &mut P,
        page: u64,
    ) -> Result<TreeNode, PageFault>
        requires { IsTold (P.shown pages.old) → IsTreeNode (pages_in (P.shown pages.old)) self.now page }
        ensures value { IfOk result (λ found. IsTold (P.shown pages.old) → ShowsNode (node_at (pages_in (P.shown pages.old)) page) found) }
        ensures looks { Looks (P.shown pages.old) (P.shown pages.new) 1 result }
    {
        let bytes = pages.live_page(page)?;
        let found = tree_node(alloc, bytes)?;
        Ok(found)
    }
}
