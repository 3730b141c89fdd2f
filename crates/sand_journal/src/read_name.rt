ghost use Rattle.std.specs.Prelude.{◌≡◌, ℕ, List, [], ◌∷◌, ◌++◌, length, IfSome, IfNone};
ghost use Rattle.std.specs.List.{list_all};
ghost use Rattle.script_text.specs.Name.{IsName, is_name, starts_name, continues_name};

use script_text::LONGEST_NAME;
use std::str;

// Whether the byte may begin a name.
fn starts_name(b: u8) -> bool
    ensures { result ≡ starts_name b }
{
    matches!(b, b'A'..=b'Z' | b'a'..=b'z' | b'_')
}

// Whether the byte may go on a name.
fn continues_name(b: u8) -> bool
    ensures { result ≡ continues_name b }
{
    starts_name(b) || matches!(b, b'0'..=b'9')
}

/// The first byte, and what follows it.
pub(crate) fn split_byte(bytes: &[u8]) -> Option<(u8, &[u8])>
    ensures found { IfSome result (λ split. bytes.now ≡ split.0 ∷ split.1.now) }
    ensures none { IfNone result (bytes.now ≡ []) }
{
    match bytes {
        [first, rest @ ..] => Some((*first, rest)),
        [] => None,
    }
}

// Whether all bytes may go on a name.
fn all_continue(bytes: &[u8]) -> bool
    ensures { result ≡ list_all continues_name bytes.now }
{
    bytes.iter().all(|b| continues_name(*b))
}

// Whether the bytes are of the shape of a name.
fn is_name(bytes: &[u8]) -> bool
    ensures { result ≡ is_name bytes.now }
{
    match split_byte(bytes) {
        Some((first, rest)) => starts_name(first) && all_continue(rest),
        None => false,
    }
}

// The bytes as a text, None where they are no name.
fn as_name(bytes: &[u8]) -> Option<&str>
    ensures found { IfSome result (λ name. IsName name.now × (name.now ≡ bytes.now)) }
    ensures none { IfNone result (IsName bytes.now → ⊥) }
{
    if bytes.len() > LONGEST_NAME {
        return None;
    }
    if !is_name(bytes) {
        return None;
    }
    match str::from_utf8(bytes) {
        Ok(name) => Some(name),
        Err(_) => None,
    }
}

/// The name at the front, behind its length, and what follows it.
pub(crate) fn split_name(bytes: &[u8]) -> Option<(&str, &[u8])>
    ensures found { IfSome result (λ split. IsName split.0.now × (bytes.now ≡ length split.0.now ∷ (split.0.now ++ split.1.now))) }
    ensures none { IfNone result ((name rest : List ℕ) → IsName name → bytes.now ≡ length name ∷ (name ++ rest) → ⊥) }
{
    let Some((size, after)) = split_byte(bytes) else {
        return None;
    };
    let size = usize::from(size);
    if size > after.len() {
        return None;
    }
    let (name, rest) = after.split_at(size);
    match as_name(name) {
        Some(name) => Some((name, rest)),
        None => None,
    }
}
