ghost use Rattle.std.specs.Prelude.{◌≡◌};
ghost use Rattle.sand_store.specs.Calls.{refusal_of};
ghost use Rattle.sand_store.specs.Steps.{refusal_of_tree};

use page_pool::PageFault;
use pmr_tree::PmrFault;
use sand_base::Refusal;

/// A fault of a page, as a statement is refused by it.
pub fn refusal_of(why: PageFault) -> Refusal
    ensures { result ≡ refusal_of why }
{
    match why {
        PageFault::Memory => Refusal::Memory,
        PageFault::Device => Refusal::Device,
        PageFault::Damaged { page, kept, read } => Refusal::Damaged { page, kept, read },
    }
}

/// A refusal of a quadtree, as a statement is refused by it.
pub fn refusal_of_tree(why: PmrFault) -> Refusal
    ensures { result ≡ refusal_of_tree why }
{
    match why {
        PmrFault::Memory => Refusal::Memory,
        PmrFault::Device => Refusal::Device,
        PmrFault::Damaged { page, kept, read } => Refusal::Damaged { page, kept, read },
        PmrFault::IndexFull => Refusal::IndexFull,
    }
}
