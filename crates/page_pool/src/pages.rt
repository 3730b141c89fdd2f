ghost use Rattle.std.specs.Prelude.{◌≡◌, IfOk, IfErr, OnOk, false};
ghost use Rattle.std.specs.Borrow.{sem};
ghost use Rattle.std.specs.Io.BufRead.{Rests};
ghost use Rattle.std.specs.FinMap as map;
ghost use Rattle.page_pool.specs.Pool.{PoolState, IsLive, IsPage};
ghost use Rattle.page_pool.specs.Causes.{IsMemory};
ghost use Rattle.page_pool.specs.Reads.{Gets};

use crate::PageFault;

/// Pages that are lent for reading.
pub trait Pages {
    /// The pages, the digests kept of them and the disk below.
    ghost shown: { Self → PoolState };

    /// Page `n`: one get. Nothing changes but the frames and the counts, whatever the answer.
    fn page(&mut self, n: u64) -> Result<&[u8; 4096], PageFault>
        requires { IsLive (shown self.old) n }
        ensures value { IfOk result (λ page. IsPage (shown self.old) n page.now) }
        ensures* after { sem 𝓛 (Rests Self.row self.entry (λ new.
            Gets (shown self.old) (shown new) n result)) };

    /// Page `n`, as `page` lends it, where the caller doesn't know whether it is live: one get too. A number that
    /// isn't live is refused as out of memory.
    fn live_page(&mut self, n: u64) -> Result<&[u8; 4096], PageFault>
        ensures live { OnOk result (IsLive (shown self.old) n) }
        ensures missing { map.contains_key (shown self.old).pages n ≡ false → IfErr result IsMemory }
        ensures value { IfOk result (λ page. IsPage (shown self.old) n page.now) }
        ensures* after { sem 𝓛 (Rests Self.row self.entry (λ new.
            Gets (shown self.old) (shown new) n result)) };

    /// Whether `n` is live. It takes no memory and is no get.
    fn is_live(&self, n: u64) -> bool
        ensures { result ≡ map.contains_key (shown self.now).pages n };

    /// The number of gets so far; it stays at the greatest u64.
    fn gets(&self) -> u64
        ensures { result ≡ (shown self.now).gets };
}
