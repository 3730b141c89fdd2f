ghost use Rattle.std.specs.Prelude.{◌≡◌, ◌∷◌, [], ◌++◌, IfOk};
ghost use Rattle.std.specs.Fmt.{decimal, signed_decimal};
ghost use Rattle.script_text.specs.Page.{empty, put, with_pieces, put_spelled};
ghost use Rattle.script_text.specs.Printing.{hugs_after, hugs_before};
ghost use Rattle.script_text.specs.Text.{doubled};
ghost use Rattle.script_text.specs.Token.{name, number, text, mark, spelling, symbol_text};

use crate::token::Symbol;
use sand_base::{Label, NoMemory};
use std::alloc::Global;
use std::marker::Model;

/// A printed form that is being written. Contracts see its bytes, and whether the next token stands close to them.
#[derive(Drop)]
pub struct Printer {
    alloc: Global,
    bytes: Vec<u8>,
    is_close: bool,
}

impl Model for Printer {
    ghost use Rattle.script_text.specs.Page.{Page};

    ghost Value = { Page };

    ghost view = { λ printer. record { bytes = printer.bytes.items; is_close = printer.is_close } };
}

// The bytes of a symbol.
fn symbol_text(symbol: Symbol) -> &'static str
    ensures { result.now ≡ symbol_text symbol }
{
    match symbol {
        Symbol::Open => "(",
        Symbol::Close => ")",
        Symbol::Comma => ",",
        Symbol::Dot => ".",
        Symbol::Minus => "-",
        Symbol::Equal => "=",
        Symbol::NotEqual => "!=",
        Symbol::Less => "<",
        Symbol::AtMost => "<=",
        Symbol::Greater => ">",
        Symbol::AtLeast => ">=",
    }
}

// Whether no space stands after the symbol.
fn hugs_after(symbol: Symbol) -> bool
    ensures { result ≡ hugs_after (mark symbol) }
{
    match symbol {
        Symbol::Open | Symbol::Dot | Symbol::Minus => true,
        _ => false,
    }
}

// Whether no space stands before the symbol.
fn hugs_before(symbol: Symbol) -> bool
    ensures { result ≡ hugs_before (mark symbol) }
{
    match symbol {
        Symbol::Close | Symbol::Comma | Symbol::Dot | Symbol::Minus => true,
        _ => false,
    }
}

// The text between quotes, with each of its own doubled.
#[tactic(auto, using(crate::proofs::Doubled::quoted_start, crate::proofs::Doubled::quoted_quote, crate::proofs::Doubled::quoted_other, crate::proofs::Doubled::quoted_end))]
fn quoted(alloc: Global, text: &[u8]) -> Result<Vec<u8>, NoMemory>
    ensures { IfOk result (λ bytes. bytes.items ≡ 34 ∷ doubled text.now ++ 34 ∷ []) }
{
    let mut bytes = vec![in alloc; b'"']?;
    'bytes: for b in text {
        if *b == b'"' {
            bytes.push(b'"')?;
            bytes.push(b'"')?;
            continue;
        }
        bytes.push(*b)?;
    }
    bytes.push(b'"')?;
    Ok(bytes)
}

impl Printer {
    /// A printed form of which nothing is written.
    pub fn new(alloc: Global) -> Printer
        ensures { result ≡ empty }
    {
        Printer {
            alloc,
            bytes: Vec::new(alloc),
            is_close: true,
        }
    }

    /// The bytes that are written.
    pub fn into_bytes(self) -> Vec<u8>
        ensures { result.items ≡ self.bytes }
    {
        self.bytes
    }

    // Writes a token with this spelling.
    fn put(&mut self, hugs_before: bool, spelling: &[u8], hugs_after: bool) -> Result<(), NoMemory>
        ensures { IfOk result (λ _. self.new ≡ put_spelled self.old hugs_before spelling.now hugs_after) }
    {
        if !self.is_close && !hugs_before {
            self.bytes.push(b' ')?;
        }
        self.bytes.extend_from_slice(spelling)?;
        self.is_close = hugs_after;
        Ok(())
    }

    /// Writes a name or a fixed word.
    pub fn name(&mut self, text: &str) -> Result<(), NoMemory>
        ensures { IfOk result (λ _. self.new ≡ put self.old (name text.now)) }
    {
        self.put(false, text.as_bytes(), false)?;
        Ok(())
    }

    /// Writes a symbol.
    pub fn mark(&mut self, symbol: Symbol) -> Result<(), NoMemory>
        ensures { IfOk result (λ _. self.new ≡ put self.old (mark symbol)) }
    {
        self.put(
            hugs_before(symbol),
            symbol_text(symbol).as_bytes(),
            hugs_after(symbol),
        )?;
        Ok(())
    }

    /// Writes a number from 0 on.
    pub fn natural(&mut self, n: u32) -> Result<(), NoMemory>
        ensures { IfOk result (λ _. self.new ≡ put self.old (number (decimal n))) }
    {
        let digits = n.to_string(self.alloc)?;
        self.put(false, digits.as_bytes(), false)?;
        Ok(())
    }

    /// Writes a number.
    pub fn int(&mut self, n: i64) -> Result<(), NoMemory>
        ensures { IfOk result (λ _. self.new ≡ put self.old (number (signed_decimal n))) }
    {
        let digits = n.to_string(self.alloc)?;
        self.put(false, digits.as_bytes(), false)?;
        Ok(())
    }

    /// Writes a text.
    pub fn text(&mut self, label: &Label) -> Result<(), NoMemory>
        ensures { IfOk result (λ _. self.new ≡ put self.old (text (doubled label.now))) }
    {
        let spelling = quoted(self.alloc, label.as_str().as_bytes())?;
        self.put(false, &spelling, false)?;
        Ok(())
    }
}
