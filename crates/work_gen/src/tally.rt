// How many lines of a text begin with the word of a refusal, counted while the bytes of the text come.
ghost use Rattle.std.specs.Prelude.{◌≡◌, ◌++◌, ℕ, List, [], ◌∷◌};
ghost use Rattle.work_gen.specs.Tally.{HasCounted, after_byte};

use std::marker::Model;

// The word with which the line of a refusal begins.
const WORD: [u8; 7] = *b"refused";

// The lines so far that begin with the word, and the first bytes of the line that isn't ended yet, as many as the word has.
#[derive(Drop)]
pub(crate) struct Tally {
    refused: u64,
    begun: [u8; 7],
    len: usize,
}

impl Model for Tally {
    ghost use Rattle.std.specs.Prelude.{◌≤◌, take};
    ghost use Rattle.work_gen.specs.Tally.{TallyState};

    ghost Value = { TallyState };

    ghost view = { λ tally. record { refused = tally.refused; begun = take tally.len tally.begun } };

    ghost invariant = { λ tally. tally.len ≤ 7 };
}

impl Tally {
    // Of the empty text.
    pub(crate) fn new() -> Tally
        ensures { HasCounted result [] }
    {
        Tally {
            refused: 0,
            begun: [0; 7],
            len: 0,
        }
    }

    // How many lines begin with the word.
    pub(crate) fn refused(&self) -> u64
        ensures { result ≡ self.now.refused }
    {
        self.refused
    }

    // One byte more of the text.
    fn byte(&mut self, byte: u8)
        ensures { self.new ≡ after_byte self.old byte }
    {
        if byte == b'\n' {
            if self.begun[..self.len].starts_with(&WORD) {
                self.refused = self.refused.saturating_add(1);
            }
            self.len = 0;
        } else if self.len < WORD.len() {
            self.begun[self.len] = byte;
            self.len += 1;
        }
    }

    // More bytes of the text.
    pub(crate) fn take(&mut self, bytes: &[u8])
        ensures { (text : List ℕ) → HasCounted self.old text → HasCounted self.new (text ++ bytes.now) }
    {
        'bytes: for byte in bytes {
            self.byte(*byte);
        }
    }
}
