ghost use Rattle.std.specs.Prelude.{◌≡◌, ◌≤◌, IfOk, length, take};
ghost use Rattle.script_text.specs.Text.{IsTextInside, content, is_plain_character, plain_len, unit_len, text_run};

use sand_base::{Label, NoMemory};
use std::alloc::Global;
use std::str;

// Whether the bytes are one character, and no control character.
fn is_plain(bytes: &[u8]) -> bool
    ensures { result ≡ is_plain_character bytes.now }
{
    let Ok(text) = str::from_utf8(bytes) else {
        return false;
    };
    let mut chars = text.chars();
    let Some(first) = chars.next() else {
        return false;
    };
    if chars.next().is_some() {
        return false;
    }
    !first.is_control()
}

// Whether so many bytes at the front, or all where there are fewer, are one character, and no control character.
#[tactic(auto, using(crate::proofs::TextLemmas::take_all))]
fn is_plain_front(bytes: &[u8], n: usize) -> bool
    ensures { result ≡ is_plain_character (take n bytes.now) }
{
    if n <= bytes.len() {
        return is_plain(bytes.split_at(n).0);
    }
    is_plain(bytes)
}

// Of how many bytes the character at the front is; 0 where none begins there, or a control character does.
#[tactic(auto, using(crate::proofs::TextLemmas::len_1, crate::proofs::TextLemmas::len_2, crate::proofs::TextLemmas::len_3, crate::proofs::TextLemmas::len_4, crate::proofs::TextLemmas::len_0))]
fn plain_len(bytes: &[u8]) -> usize
    ensures { result ≡ plain_len bytes.now }
{
    if is_plain_front(bytes, 1) {
        return 1;
    }
    if is_plain_front(bytes, 2) {
        return 2;
    }
    if is_plain_front(bytes, 3) {
        return 3;
    }
    if is_plain_front(bytes, 4) {
        return 4;
    }
    0
}

// Of how many bytes the character of a text at the front is, where two quotes are one.
#[tactic(auto, using(crate::proofs::TextLemmas::plain_within, crate::proofs::TextLemmas::plain_nil))]
fn unit_len(bytes: &[u8]) -> usize
    ensures len { result ≡ unit_len bytes.now }
    ensures within { result ≤ length bytes.now }
{
    match bytes {
        [b'"', b'"', ..] => 2,
        [b'"', ..] => 0,
        _ => plain_len(bytes),
    }
}

/// How many bytes the characters of a text take from the front.
#[tactic(auto, using(crate::proofs::TextLemmas::run_end, crate::proofs::TextLemmas::run_step))]
pub fn text_run(bytes: &[u8]) -> usize
    ensures run { result ≡ text_run bytes.now }
    ensures within { result ≤ length bytes.now }
{
    let mut at = 0;
    'units: loop {
        let len = unit_len(bytes.split_at(at).1);
        if len == 0 {
            return at;
        }
        at += len;
    }
}

/// What the bytes between the quotes of a text write: two quotes are one.
#[tactic(auto, using(crate::proofs::TextLemmas::content_start, crate::proofs::TextLemmas::content_skip, crate::proofs::TextLemmas::content_more, crate::proofs::TextLemmas::content_end))]
pub fn content(alloc: Global, inside: &[u8]) -> Result<Label, NoMemory>
    requires { IsTextInside inside.now }
    ensures { IfOk result (λ label. label ≡ content inside.now) }
{
    let mut bytes = Vec::with_capacity(alloc, inside.len())?;
    let mut skip = false;
    'bytes: for b in inside {
        if skip {
            skip = false;
            continue;
        }
        bytes.push(*b)?;
        skip = *b == b'"';
    }
    match str::from_utf8(&bytes) {
        Ok(text) => Label::new(alloc, text),
        // No text comes here: characters without their second quotes are UTF-8.
        Err(_) => Err(NoMemory {}),
    }
}
