ghost use Rattle.std.specs.Prelude.{◌≡◌, ◌≤◌, [], Some, length, IfOk, IfSome};
ghost use Rattle.script_text.specs.declared.TheConstants.{LONGEST_LINE};
ghost use Rattle.script_lines.specs.Lines.{with_byte, is_no_line, is_short_line};

use sand_base::NoMemory;
use script_text::LONGEST_LINE;
use std::alloc::Global;
use std::marker::Model;

/// The bytes since the last line feed, as long as a line may have so many. Contracts see them, or None
/// once they are too many. No byte takes memory: the longest line is reserved at the start.
#[derive(Drop)]
pub(crate) struct OpenLine {
    bytes: Vec<u8>,
    is_long: bool,
}

impl Model for OpenLine {
    ghost use Rattle.std.specs.Prelude.{ℕ, ◌≤◌, List, cond, Option, None, Some, vec_len, vec_capacity};
    ghost use Rattle.script_text.specs.declared.TheConstants.{LONGEST_LINE};

    ghost Value = { Option (List ℕ) };

    ghost view = { λ line. cond line.is_long None (Some line.bytes.items) };

    ghost invariant = { λ line. (vec_len line.bytes ≤ LONGEST_LINE) × (LONGEST_LINE ≤ vec_capacity line.bytes) };
}

impl OpenLine {
    /// An empty line with room for the longest.
    pub(crate) fn new(alloc: Global) -> Result<OpenLine, NoMemory>
        ensures { IfOk result (λ line. line ≡ Some []) }
    {
        Ok(OpenLine {
            bytes: Vec::with_capacity(alloc, LONGEST_LINE)?,
            is_long: false,
        })
    }

    /// One more byte.
    pub(crate) fn push(&mut self, byte: u8)
        ensures { self.new ≡ with_byte byte self.old }
    {
        if self.bytes.len() < LONGEST_LINE {
            self.bytes.push_reserved(byte);
        } else {
            self.is_long = true;
        }
    }

    /// The next line begins.
    pub(crate) fn clear(&mut self)
        ensures { self.new ≡ Some [] }
    {
        self.bytes.clear();
        self.is_long = false;
    }

    /// Whether no byte came since the last line feed.
    pub(crate) fn is_empty(&self) -> bool
        ensures { result ≡ is_no_line self.now }
    {
        !self.is_long && self.bytes.is_empty()
    }

    /// Whether the bytes aren't too many for a line.
    pub(crate) fn is_short(&self) -> bool
        ensures { result ≡ is_short_line self.now }
    {
        !self.is_long
    }

    /// The bytes; where they are too many for a line, the first of them.
    pub(crate) fn bytes(&self) -> &[u8]
        ensures value { IfSome self.now (λ bytes. result.now ≡ bytes) }
        ensures short { length result.now ≤ LONGEST_LINE }
    {
        self.bytes.as_slice()
    }
}
