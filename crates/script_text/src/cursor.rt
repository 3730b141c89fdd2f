ghost use Rattle.std.specs.Prelude.{◌≡◌, ◌≤◌, ◌<◌, ◌^◌, ◌-◌, ◌&&◌, ℕ, true, [], IfOk, MatchOption, length};
ghost use Rattle.script_text.specs.Accepting.{Accepts};
ghost use Rattle.script_text.specs.Form.{a_word, a_name, a_natural, an_int, a_text, a_mark, head_fits};
ghost use Rattle.script_text.specs.Grammar.{ended_form, room_at};
ghost use Rattle.script_text.specs.Number.{natural, int};
ghost use Rattle.script_text.specs.Lexing.{pieces};
ghost use Rattle.script_text.specs.Reading.{Gives, IsFirstPiece, at, start, take_in};
ghost use Rattle.script_text.specs.Token.{is_number, piece_of};

use crate::lexer::{next_token, skip_blanks};
use crate::stuck::Stuck;
use crate::text::content;
use crate::token::{Symbol, Token};
use sand_base::Label;
use std::alloc::Global;
use std::marker::Model;

/// The rest of a line that is being read. Its first token is kept with what stands after it, so that one is cut once,
/// however often it is looked at.
#[derive(Drop)]
pub struct Cursor<'t> {
    rest: &'t [u8],
    head: Option<(Token<'t>, &'t [u8])>,
    is_in_range: bool,
}

impl<'t> Model for Cursor<'t> {
    ghost use Rattle.std.specs.Prelude.{MatchOption};
    ghost use Rattle.script_text.specs.Lexing.{pieces, IsNextPiece, IsLast};
    ghost use Rattle.script_text.specs.Reading.{TokenState};
    ghost use Rattle.script_text.specs.Token.{piece_of};

    ghost Value = { TokenState };

    ghost view = { λ cursor. record { left = pieces cursor.rest.now; in_range = cursor.is_in_range } };

    ghost invariant = { λ cursor. MatchOption cursor.head (IsLast cursor.rest.now) (λ p. IsNextPiece cursor.rest.now (piece_of p.0) p.1.now) };
}

// The number, where it is in this range.
fn natural(text: &str, least: u32, most: u32) -> Option<u32>
    requires { is_number text.now ≡ true }
    ensures { result ≡ natural least most text.now }
{
    match text.parse::<i64>() {
        Ok(n) if i64::from(least) <= n && n <= i64::from(most) => Some(n as u32),
        _ => None,
    }
}

/// The number, where 64 bits hold it.
pub fn int(text: &str) -> Option<i64>
    requires { is_number text.now ≡ true }
    ensures { result ≡ int text.now }
{
    match text.parse::<i64>() {
        Ok(n) => Some(n),
        Err(_) => None,
    }
}

impl<'t> Cursor<'t> {
    /// The reader before a line, with every number in range so far.
    pub fn over(line: &'t [u8]) -> Cursor<'t>
        ensures { result ≡ start line.now }
    {
        Cursor {
            rest: line,
            head: next_token(line),
            is_in_range: true,
        }
    }

    // The next token, and what stands after it.
    fn peek(&self) -> Option<(Token<'t>, &'t [u8])>
        ensures { MatchOption result (self.now.left ≡ []) (λ p. IsFirstPiece self.now.left (piece_of p.0) p.1.now) }
    {
        self.head
    }

    // Goes on with what stands after a token.
    fn step(&mut self, after: &'t [u8])
        ensures { self.new ≡ at (pieces after.now) self.old.in_range }
    {
        self.rest = after;
        self.head = next_token(after);
    }

    /// Whether all so far was in range.
    pub fn is_in_range(&self) -> bool
        ensures { result ≡ self.now.in_range }
    {
        self.is_in_range
    }

    /// Notes what is out of range.
    pub fn note(&mut self, is_in_range: bool)
        ensures { self.new ≡ at self.old.left (is_in_range && self.old.in_range) }
    {
        self.is_in_range = is_in_range && self.is_in_range;
    }

    /// How many bytes there are from the next token on; none where no token is left.
    pub fn room(&self) -> usize
        ensures { result ≡ room_at self.now.left }
    {
        match self.head {
            Some(_) => skip_blanks(self.rest).len(),
            None => 0,
        }
    }

    /// Takes a name.
    pub fn name(&mut self, alloc: Global) -> Result<Label, Stuck>
        ensures gives { Gives (take_in a_name (λ n. n)) self.old self.new result }
    {
        match self.peek() {
            Some((Token::Name(text), after)) => {
                let label = Label::new(alloc, text)?;
                self.step(after);
                Ok(label)
            }
            _ => Err(Stuck::Here),
        }
    }

    /// Takes the name with this text.
    pub fn word(&mut self, word: &str) -> Result<(), Stuck>
        ensures gives { Gives (take_in (a_word word.now) (λ u. u)) self.old self.new result }
        ensures falls { IfOk result (λ _. length self.new.left < length self.old.left) }
    {
        match self.peek() {
            Some((Token::Name(text), after)) if text == word => {
                self.step(after);
                Ok(())
            }
            _ => Err(Stuck::Here),
        }
    }

    /// Whether this symbol comes next.
    pub fn is_mark(&self, wanted: Symbol) -> bool
        ensures { result ≡ head_fits (a_mark wanted) self.now.left }
    {
        match self.peek() {
            Some((Token::Mark(symbol), _)) => symbol == wanted,
            _ => false,
        }
    }

    /// Takes this symbol.
    pub fn mark(&mut self, wanted: Symbol) -> Result<(), Stuck>
        ensures gives { Gives (take_in (a_mark wanted) (λ u. u)) self.old self.new result }
        ensures falls { IfOk result (λ _. length self.new.left < length self.old.left) }
    {
        match self.peek() {
            Some((Token::Mark(symbol), after)) if symbol == wanted => {
                self.step(after);
                Ok(())
            }
            _ => Err(Stuck::Here),
        }
    }

    /// Takes the name with this text where it comes next, and says whether it did.
    pub fn accept_word(&mut self, word: &str) -> bool
        ensures { Accepts (a_word word.now) self.old self.new result }
    {
        match self.peek() {
            Some((Token::Name(text), after)) if text == word => {
                self.step(after);
                true
            }
            _ => false,
        }
    }

    /// Takes this symbol where it comes next, and says whether it did.
    pub fn accept_mark(&mut self, wanted: Symbol) -> bool
        ensures { Accepts (a_mark wanted) self.old self.new result }
    {
        match self.peek() {
            Some((Token::Mark(symbol), after)) if symbol == wanted => {
                self.step(after);
                true
            }
            _ => false,
        }
    }

    /// Whether a number comes next.
    pub fn is_number(&self) -> bool
        ensures natural { (least most : ℕ) → result ≡ head_fits (a_natural least most) self.now.left }
        ensures int { result ≡ head_fits an_int self.now.left }
    {
        match self.peek() {
            Some((Token::Number(_), _)) => true,
            _ => false,
        }
    }

    /// Takes a number. One that isn't from the least to the most is noted, and gives 0.
    pub fn natural(&mut self, least: u32, most: u32) -> Result<u32, Stuck>
        ensures gives { Gives (take_in (a_natural least most) (λ n. n)) self.old self.new result }
        ensures bound { IfOk result (λ n. n ≤ most) }
    {
        match self.peek() {
            Some((Token::Number(text), after)) => {
                self.step(after);
                match natural(text, least, most) {
                    Some(n) => Ok(n),
                    None => {
                        self.note(false);
                        Ok(0)
                    }
                }
            }
            _ => Err(Stuck::Here),
        }
    }

    /// Takes a number. One that 64 bits don't hold is noted, and gives 0.
    pub fn int(&mut self) -> Result<i64, Stuck>
        ensures { Gives (take_in an_int (λ n. n)) self.old self.new result }
    {
        match self.peek() {
            Some((Token::Number(text), after)) => {
                self.step(after);
                match int(text) {
                    Some(n) => Ok(n),
                    None => {
                        self.note(false);
                        Ok(0)
                    }
                }
            }
            _ => Err(Stuck::Here),
        }
    }

    /// Whether a text comes next.
    pub fn is_text(&self) -> bool
        ensures { result ≡ head_fits a_text self.now.left }
    {
        match self.peek() {
            Some((Token::Text(_), _)) => true,
            _ => false,
        }
    }

    /// Takes a text. One of more than 255 bytes is noted.
    pub fn text(&mut self, alloc: Global) -> Result<Label, Stuck>
        ensures { Gives (take_in a_text (λ t. t)) self.old self.new result }
    {
        match self.peek() {
            Some((Token::Text(inside), after)) => {
                let label = content(alloc, inside)?;
                self.step(after);
                self.note(label.as_str().len() <= 255);
                Ok(label)
            }
            _ => Err(Stuck::Here),
        }
    }

    /// Nothing is left.
    pub fn end(&mut self) -> Result<(), Stuck>
        ensures { Gives (ended_form tt) self.old self.new result }
    {
        match self.peek() {
            None => Ok(()),
            Some(_) => Err(Stuck::Here),
        }
    }
}
