ghost use Rattle.std.specs.Prelude.{[], ⊤, refl};

use crate::ShapeOf;
use page_pool::{PageFault, Pages};
use sand_base::Shape;
use std::alloc::Global;

// No rows: where nothing but the shape in hand is asked.
#[derive(Clone, Copy)]
pub struct NoShapes {}

impl ShapeOf for NoShapes {
    ghost rows = { λ a pages. [] };

    ghost Stands = { λ a pages. ⊤ };

    ghost Owns = { λ a pages n. ⊥ };

    ghost price = { λ a. 0 };

    fn shape_of<P: Pages>(
        &self,
        alloc: Global,
        pages: &mut P,
        id: u32,
    ) -> Result<Shape, PageFault> {
        Err(PageFault::Memory)
    }

    ghost in_plane = { λ a pages h. tt };

    ghost own_stands = { λ a m w h same. tt };

    ghost own_rows = { λ a m w h same. refl };

    ghost own_pages = { λ a m w h same n own. own };
}
