ghost use Rattle.std.specs.Prelude.{◌≡◌, ◌⊎◌, ℕ, Some, None, IfSome, IfNone, IsSomeAnd, OnOk, OnErr, true, false};
ghost use Rattle.std.specs.FinMap as map;
ghost use Rattle.std.specs.FinSet as set;
ghost use Rattle.std.specs.Option.{option_copied};
ghost use Rattle.page_pool.specs.Images.{IsUnseen, is_shown, past_map, past_seen};
ghost use Rattle.page_pool.specs.declared.past.Past.{Past as Image};

use crate::chains::Chains;
use crate::held::Held;
use crate::table::Table;
use sand_base::NoMemory;
use std::alloc::Global;
use std::collections::BTreeMap;
use std::marker::Model;

/// A replaced image: its page, and how many commands had begun as it was written and as it was replaced.
#[derive(Clone, Copy)]
pub(crate) struct Past {
    pub(crate) number: u64,
    pub(crate) made: u64,
    pub(crate) until: u64,
}

impl Past {
    // Whether the stamp sees it as page `n`.
    fn is_shown(self, n: u64, at: u64) -> bool
        ensures { result ≡ is_shown n at (Some self) }
    {
        self.number == n && self.made <= at && at < self.until
    }
}

/// How many images of a page are looked at before all are gone through.
const MOST_LOOKS: u8 = 64;

/// The replaced images by the places where they lie, in order; and those that a stamp saw as they were replaced, each in the
/// place of its number, and where those of each page lie, to be looked at first.
#[derive(Drop)]
pub(crate) struct Replaced {
    images: BTreeMap<u64, Past>,
    places: Table<Past>,
    chains: Chains,
}

impl Model for Replaced {
    ghost use Rattle.std.specs.Prelude.{◌≡◌, ℕ, Some};
    ghost use Rattle.std.specs.FinMap as map;
    ghost use Rattle.page_pool.specs.Images.{PastMap, past_map};
    ghost use Rattle.page_pool.specs.Codes.{past_map_code};
    ghost use Rattle.page_pool.specs.declared.past.Past.{Past as Image};

    ghost Value = { PastMap };

    ghost coded = { past_map_code };

    ghost view = { λ a. past_map a.images };

    ghost invariant = { λ a. (q : ℕ) (e : Image) → map.get a.places q ≡ Some e → map.get (past_map a.images) q ≡ Some e };
}

impl Replaced {
    pub(crate) fn new(alloc: Global) -> Replaced
        ensures { result ≡ map.empty }
    {
        Replaced {
            images: BTreeMap::new(alloc),
            places: Table::new(alloc),
            chains: Chains::new(alloc),
        }
    }

    // Adds an image where none of them lies. Its page's chain has it where a stamp sees it, since no later stamp will.
    pub(crate) fn insert(&mut self, place: u64, past: Past, held: &Held) -> Result<(), NoMemory>
        requires { map.contains_key self.old place ≡ false }
        ensures added { OnOk result (self.new ≡ map.insert self.old place past) }
        ensures unchanged { OnErr result (self.new ≡ self.old) }
    {
        self.images.insert(place, past)?;
        note(&mut self.places, &mut self.chains, place, past, held);
        Ok(())
    }

    pub(crate) fn remove(&mut self, place: u64)
        ensures { self.new ≡ map.remove self.old place }
    {
        self.places.take(place);
        if let Some(past) = self.images.remove(&place) {
            let _ = self.chains.remove(past.number, place);
        }
    }

    // The place, from this one on, of an image that no held stamp sees.
    pub(crate) fn first_unseen(&self, start: u64, held: &Held) -> Option<u64>
        ensures { IfSome result (λ place. IsSomeAnd (map.get self.now place) (λ past. IsUnseen held.now past.made past.until)) }
    {
        first_unseen(&self.images, start, held)
    }

    // The place of the image that the stamp sees as page `n`.
    pub(crate) fn shown_place(&self, n: u64, at: u64) -> Option<u64>
        ensures found { IfSome result (λ place. is_shown n at (map.get self.now place) ≡ true) }
        ensures none { IfNone result ((place : ℕ) → is_shown n at (map.get self.now place) ≡ false) }
    {
        match self.chained_place(n, at) {
            Some(place) => Some(place),
            None => shown_place(&self.images, n, at),
        }
    }

    // The place of the image that the stamp sees as page `n`, where it is found in the page's chain.
    fn chained_place(&self, n: u64, at: u64) -> Option<u64>
        ensures { IfSome result (λ place. is_shown n at (map.get self.now place) ≡ true) }
    {
        let mut place = self.chains.last(n)?;
        'images: for _ in 0..MOST_LOOKS {
            if self.is_shown(place, n, at) {
                return Some(place);
            }
            place = self.chains.earlier(place)?;
        }
        None
    }

    // Whether the stamp sees the image at this place as page `n`.
    fn is_shown(&self, place: u64, n: u64, at: u64) -> bool
        ensures { result ≡ true → is_shown n at (map.get self.now place) ≡ true }
    {
        match self.places.get(place) {
            Some(past) => past.is_shown(n, at),
            None => false,
        }
    }

    // How many of them some held stamp sees.
    pub(crate) fn count_seen(&self, held: &Held) -> usize
        ensures { result ≡ set.len (past_seen held.now self.now) }
    {
        count_seen(&self.images, held)
    }
}

// Has the image in its place and in the chain of its page, where a held stamp sees it and memory is left.
fn note(places: &mut Table<Past>, chains: &mut Chains, place: u64, past: Past, held: &Held)
    ensures { (q : ℕ) (e : Image) → map.get places.new q ≡ Some e → ((q ≡ place) × (e ≡ past)) ⊎ (map.get places.old q ≡ Some e) }
{
    if held.sees(past.made, past.until)
        && let Ok(()) = places.insert(place, past)
    {
        let _ = chains.add(past.number, place);
    }
}

// The place, from this one on, of an image that no held stamp sees.
fn first_unseen(images: &BTreeMap<u64, Past>, start: u64, held: &Held) -> Option<u64>
    ensures { IfSome result (λ place. IsSomeAnd (map.get (past_map images.now) place) (λ past. IsUnseen held.now past.made past.until)) }
{
    'images: for (place, past) in images.range(start..) {
        if !held.sees(past.made, past.until) {
            return Some(*place);
        }
    }
    None
}

// The place of the image that the stamp sees as page `n`.
fn shown_place(images: &BTreeMap<u64, Past>, n: u64, at: u64) -> Option<u64>
    ensures found { IfSome result (λ place. is_shown n at (map.get (past_map images.now) place) ≡ true) }
    ensures none { IfNone result ((place : ℕ) → is_shown n at (map.get (past_map images.now) place) ≡ false) }
{
    'images: for (place, past) in images.iter() {
        if past.is_shown(n, at) {
            return Some(*place);
        }
    }
    None
}

// How many of them some held stamp sees.
fn count_seen(images: &BTreeMap<u64, Past>, held: &Held) -> usize
    ensures { result ≡ set.len (past_seen held.now (past_map images.now)) }
{
    let mut count = 0;
    'images: for (_, past) in images.iter() {
        if held.sees(past.made, past.until) {
            count += 1;
        }
    }
    count
}
