ghost use Rattle.std.specs.Prelude.{◌≡◌, ℕ, ◌+◌, ◌≤◌, ◌<◌, [], ◌∷◌, length, drop, IfSome, MatchOption};
ghost use Rattle.std.specs.Option.{option_map};
ghost use Rattle.std.specs.Str.{IsAscii};
ghost use Rattle.std.specs.Char.{is_ascii_digit};
ghost use Rattle.std.specs.List.{prefix_len};
ghost use Rattle.script_text.specs.Lexical.{is_blank, skip_blanks};
ghost use Rattle.script_text.specs.Name.{starts_name, continues_name};
ghost use Rattle.script_text.specs.Lexing.{first_cut, cut_of, text_cut, begins_number, short_symbol, long_symbol, symbol_at};
ghost use Rattle.script_text.specs.Lexing.{unread, fault_room, IsNextPiece, IsLast};
ghost use Rattle.script_text.specs.Token.{piece_of};
ghost use Rattle.script_text.specs.Text.{text_run, begins_quote};

use crate::LONGEST_NAME;
use crate::text::text_run;
use crate::token::{Symbol, Token};
use std::str;

/// A token, and the number of its bytes.
#[derive(Clone, Copy)]
pub struct Cut<'t> {
    pub token: Token<'t>,
    pub len: usize,
}

fn starts_name(b: u8) -> bool
    ensures { result ≡ starts_name b }
{
    matches!(b, b'A'..=b'Z' | b'a'..=b'z' | b'_')
}

fn continues_name(b: u8) -> bool
    ensures { result ≡ continues_name b }
{
    starts_name(b) || matches!(b, b'0'..=b'9')
}

fn is_blank(b: u8) -> bool
    ensures { result ≡ is_blank b }
{
    b == b' ' || b == b'\t'
}

// How many blanks stand at the front.
fn blank_run(bytes: &[u8]) -> usize
    ensures run { result ≡ prefix_len is_blank bytes.now }
    ensures bound { result ≤ length bytes.now }
{
    bytes.iter().take_while(|b| is_blank(**b)).count()
}

/// The bytes after the blanks at the front.
pub fn skip_blanks(bytes: &[u8]) -> &[u8]
    ensures { result.now ≡ skip_blanks bytes.now }
{
    let blanks = blank_run(bytes);
    bytes.split_at(blanks).1
}

// How many bytes at the front go on a name.
fn name_run(bytes: &[u8]) -> usize
    ensures run { result ≡ prefix_len continues_name bytes.now }
    ensures bound { result ≤ length bytes.now }
{
    bytes.iter().take_while(|b| continues_name(**b)).count()
}

// How many digits stand at the front.
fn digit_run(bytes: &[u8]) -> usize
    ensures run { result ≡ prefix_len is_ascii_digit bytes.now }
    ensures bound { result ≤ length bytes.now }
{
    bytes.iter().take_while(|b| b.is_ascii_digit()).count()
}

// Whether the byte and so many digits after it are a number.
fn begins_number(b: u8, digits: usize) -> bool
    ensures { result ≡ begins_number b digits }
{
    b.is_ascii_digit() || b == b'-' && digits > 0
}

// The symbol of one byte.
fn short_symbol(b: u8) -> Option<Symbol>
    ensures { result ≡ short_symbol b }
{
    match b {
        b'(' => Some(Symbol::Open),
        b')' => Some(Symbol::Close),
        b',' => Some(Symbol::Comma),
        b'.' => Some(Symbol::Dot),
        b'-' => Some(Symbol::Minus),
        b'=' => Some(Symbol::Equal),
        b'<' => Some(Symbol::Less),
        b'>' => Some(Symbol::Greater),
        _ => None,
    }
}

// The symbol of this byte and a `=` after it.
fn long_symbol(b: u8) -> Option<Symbol>
    ensures { result ≡ long_symbol b }
{
    match b {
        b'!' => Some(Symbol::NotEqual),
        b'<' => Some(Symbol::AtMost),
        b'>' => Some(Symbol::AtLeast),
        _ => None,
    }
}

// The longest symbol at the front of the byte and those after it.
fn symbol_cut(b: u8, after: &[u8]) -> Option<Cut<'_>>
    ensures cut { option_map cut_of result ≡ symbol_at b after.now }
    ensures within { IfSome result (λ c. (1 ≤ c.len) × (c.len ≤ 1 + length after.now)) }
{
    if let Some(symbol) = long_symbol(b)
        && let [b'=', ..] = after
    {
        return Some(Cut {
            token: Token::Mark(symbol),
            len: 2,
        });
    }
    let symbol = short_symbol(b)?;
    Some(Cut {
        token: Token::Mark(symbol),
        len: 1,
    })
}

/// The text of bytes below 128.
pub fn text_of(bytes: &[u8]) -> &str
    requires { IsAscii bytes.now }
    ensures { result.now ≡ bytes.now }
{
    match str::from_utf8(bytes) {
        Ok(text) => text,
        Err(_) => unreachable!(),
    }
}

// The text whose characters follow these bytes' first quote, which stands before them.
fn text_cut(after: &[u8]) -> Option<Cut<'_>>
    ensures cut { option_map cut_of result ≡ text_cut (text_run after.now) after.now }
    ensures within { IfSome result (λ c. (1 ≤ c.len) × (c.len ≤ 1 + length after.now)) }
{
    let len = text_run(after);
    let (inside, rest) = after.split_at(len);
    let [b'"', ..] = rest else {
        return None;
    };
    Some(Cut {
        token: Token::Text(inside),
        len: len + 2,
    })
}

// The longest token at the front of the bytes, which is no blank. None where no token begins there, a name
// there is too long, or a text is not closed.
fn first_cut(bytes: &[u8]) -> Option<Cut<'_>>
    ensures cut { option_map cut_of result ≡ first_cut bytes.now }
    ensures within { IfSome result (λ c. (1 ≤ c.len) × (c.len ≤ length bytes.now)) }
{
    let [b, after @ ..] = bytes else {
        return None;
    };
    if starts_name(*b) {
        let len = 1 + name_run(after);
        if len > LONGEST_NAME {
            return None;
        }
        let text = text_of(bytes.split_at(len).0);
        return Some(Cut {
            token: Token::Name(text),
            len,
        });
    }
    let digits = digit_run(after);
    if begins_number(*b, digits) {
        let text = text_of(bytes.split_at(1 + digits).0);
        return Some(Cut {
            token: Token::Number(text),
            len: 1 + digits,
        });
    }
    if *b == b'"' {
        return text_cut(after);
    }
    symbol_cut(*b, after)
}

/// The next token of the rest of a line, and what stands after it.
pub fn next_token(rest: &[u8]) -> Option<(Token<'_>, &[u8])>
    ensures { MatchOption result (IsLast rest.now) (λ p. IsNextPiece rest.now (piece_of p.0) p.1.now) }
{
    let bare = skip_blanks(rest);
    let Some(cut) = first_cut(bare) else {
        return None;
    };
    let (_, after) = bare.split_at(cut.len);
    Some((cut.token, after))
}

/// What is left of a line after its tokens: nothing, or the bytes from the first one on at which no token begins.
pub fn unread(line: &[u8]) -> &[u8]
    ensures { result.now ≡ unread line.now }
{
    let mut rest = line;
    'tokens: while let Some((_, after)) = next_token(rest) {
        rest = after;
    }
    skip_blanks(rest)
}

/// How many bytes there are from the fault on of bytes at which no token begins: all of them, or, where they begin with
/// a quote, those after the characters of a text that is not closed.
pub fn fault_room(bytes: &[u8]) -> usize
    ensures room { result ≡ fault_room bytes.now }
    ensures within { result ≤ length bytes.now }
{
    match bytes {
        [b'"', after @ ..] => after.len() - text_run(after),
        _ => bytes.len(),
    }
}
