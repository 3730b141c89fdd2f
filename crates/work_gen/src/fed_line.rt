// The line in hand, with its line feed.
ghost use Rattle.std.specs.Prelude.{◌≡◌, ◌≤◌, true, [], ◌∷◌, ◌++◌, drop, length, min, nat_eq, take};

use std::marker::Model;

// Room for the longest line of a workload and its line feed.
const ROOM: usize = 81;

// What was not read yet of a line; it is seen as the list of these bytes.
#[derive(Drop)]
pub(crate) struct Line {
    bytes: [u8; ROOM],
    at: usize,
    len: usize,
}

impl Model for Line {
    ghost use Rattle.std.specs.Prelude.{List, ℕ, drop, take, ◌≤◌};
    ghost use Rattle.work_gen.specs.declared.fed_line.TheConstants.{ROOM};

    ghost Value = { List ℕ };

    ghost view = { λ line. drop line.at (take line.len line.bytes) };

    ghost invariant = { λ line. (line.at ≤ line.len) × (line.len ≤ ROOM) };
}

impl Line {
    // No byte is left.
    pub(crate) fn new() -> Line
        ensures { result ≡ [] }
    {
        Line {
            bytes: [0; ROOM],
            at: 0,
            len: 0,
        }
    }

    // Whether no byte is left.
    pub(crate) fn is_empty(&self) -> bool
        ensures { result ≡ nat_eq (length self.now) 0 }
    {
        self.at == self.len
    }

    // This line with a line feed is left.
    pub(crate) fn begin(&mut self, line: &[u8])
        requires { length line.now ≤ 80 }
        ensures { self.new ≡ line.now ++ 10 ∷ [] }
    {
        self.bytes[..line.len()].copy_from_slice(line);
        self.bytes[line.len()] = b'\n';
        self.at = 0;
        self.len = line.len() + 1;
    }

    // As many of the next bytes as fit go into the front of the piece; says how many.
    pub(crate) fn give(&mut self, piece: &mut [u8]) -> usize
        ensures count { result ≡ min (length piece.old) (length self.old) }
        ensures left { self.new ≡ drop result self.old }
        ensures bytes { take result piece.new ≡ take result self.old }
    {
        let count = piece.len().min(self.len - self.at);
        piece[..count].copy_from_slice(&self.bytes[self.at..self.at + count]);
        self.at += count;
        count
    }
}
