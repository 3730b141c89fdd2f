ghost use Rattle.std.specs.Prelude.{◌≡◌, ℕ, ◌+◌, ◌≤◌, List, Some, All, IfOk};
ghost use Rattle.sand_base.specs.Plane.{IsShapeInPlane};
ghost use Rattle.sand_base.specs.declared.shape.Shape.{Shape};
ghost use Rattle.sand_model.specs.Database.{shape_at};
ghost use Rattle.page_pool.specs.Disk.{PageMap};
ghost use Rattle.page_pool.specs.Pool.{IsTold};
ghost use Rattle.page_pool.specs.Reads.{IsRead};
ghost use Rattle.page_pool.specs.Causes.{HasPageCause};
ghost use Rattle.pmr_tree.specs.Lists.{Each};
ghost use Rattle.pmr_tree.specs.Quadtree.{store_of};
ghost use Rattle.pmr_tree.specs.Laws.{AreInPlane};

use page_pool::{PageFault, Pages};
use sand_base::Shape;
use std::alloc::Global;

/// Where the exact shapes of rows are read.
pub trait ShapeOf {
    // The rows with their shapes, over these pages.
    ghost rows: { Self → PageMap → List (ℕ × Shape) };

    // Over these pages rows can be read.
    ghost Stands: { Self → PageMap → Type 0 };

    // The pages on which the rows depend.
    ghost Owns: { Self → PageMap → ℕ → Type 0 };

    // The most page gets that a call makes.
    ghost price: { Self → ℕ };

    /// The shape of the row of the id. Of an id that is no row's it may be any shape in the plane.
    fn shape_of<P: Pages>(&self, alloc: Global, pages: &mut P, id: u32) -> Result<Shape, PageFault>
        requires { IsTold (P.shown pages.old) → Stands self.now (P.shown pages.old).pages }
        ensures value { IfOk result (λ found. IsTold (P.shown pages.old) → (s : Shape) → shape_at (rows self.now (P.shown pages.old).pages) id ≡ Some s → found ≡ s) }
        ensures plane { IfOk result (λ found. IsShapeInPlane found) }
        ensures read { IsRead (P.shown pages.old) (P.shown pages.new) }
        ensures cause { HasPageCause (P.shown pages.old) (P.shown pages.new) result }
        ensures up { (P.shown pages.old).gets ≤ (P.shown pages.new).gets }
        ensures price { (P.shown pages.new).gets ≤ (P.shown pages.old).gets + price self.now };

    // The rows lie in the plane.
    ghost in_plane: { (a : Self) (pages : PageMap) → Stands a pages → AreInPlane (rows a pages) };

    // They depend only on pages of their own.
    ghost own_stands: { (a : Self) (m w : PageMap) → Stands a m → ((n : ℕ) → Owns a m n → store_of w n ≡ store_of m n) → Stands a w };

    ghost own_rows: { (a : Self) (m w : PageMap) → Stands a m → ((n : ℕ) → Owns a m n → store_of w n ≡ store_of m n) → rows a w ≡ rows a m };

    ghost own_pages: { (a : Self) (m w : PageMap) → Stands a m → ((n : ℕ) → Owns a m n → store_of w n ≡ store_of m n) → (n : ℕ) → Owns a w n → Owns a m n };
}
