ghost use Rattle.std.specs.Prelude.{◌≡◌, IfOk};

use crate::NoMemory;
use std::alloc::Global;
use std::marker::Model;

/// A name or a word of the command line. Contracts see the list of its bytes.
#[derive(Drop)]
pub struct Label {
    text: String,
}

impl Model for Label {
    ghost use Rattle.std.specs.Prelude.{ℕ, List, string_bytes};

    ghost Value = { List ℕ };

    ghost view = { λ label. string_bytes label.text };
}

impl Label {
    /// A label with the bytes of the text.
    pub fn new(alloc: Global, text: &str) -> Result<Label, NoMemory>
        ensures { IfOk result (λ label. label ≡ text.now) }
    {
        Ok(Label {
            text: String::from_str(alloc, text)?,
        })
    }

    /// The text.
    pub fn as_str(&self) -> &str
        ensures { result.now ≡ self.now }
    {
        self.text.as_str()
    }

    /// An equal label.
    pub fn copy(&self, alloc: Global) -> Result<Label, NoMemory>
        ensures { IfOk result (λ label. label ≡ self.now) }
    {
        Label::new(alloc, self.as_str())
    }
}
