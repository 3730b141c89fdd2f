// Where tuples lie, as far as it is known.
ghost use Rattle.std.specs.Prelude.{◌≡◌, ◌-◌, ◌≤◌, length, get_or, set, IfSome, IfOk};
ghost use Rattle.tuple_file.specs.Numbers.{numbers_in, Extends, Clears};
ghost use Rattle.tuple_file.specs.Spans.{Learnt, Forgot, span_of};

use crate::span::Span;
use sand_base::NoMemory;
use std::alloc::Global;
use std::marker::Model;
use std::rc::Rc;

/// Where the tuples of a file lie, by id, as far as it is known: eight bytes an id, and no page. A tuple of which it is
/// known is read without a look at the tree or at the slots of its page. Copies share the list until one of them changes.
#[derive(Drop)]
pub struct Spans {
    alloc: Global,
    // That of id n + 1 is at n, as page * 2^32 + start * 2^16 + length, and 0 where it isn't known.
    numbers: Option<Rc<Vec<u64>>>,
}

impl Model for Spans {
    ghost use Rattle.std.specs.Prelude.{ℕ, List};
    ghost use Rattle.tuple_file.specs.Numbers.{numbers_in};

    ghost Value = { List ℕ };

    ghost view = { λ spans. numbers_in spans.numbers };
}

// The list with a number more, if there is memory for it.
fn with_number(alloc: Global, numbers: Option<Rc<Vec<u64>>>, number: u64) -> Option<Rc<Vec<u64>>>
    ensures { Extends (numbers_in numbers) number (numbers_in result) }
{
    let mut shared = match numbers {
        Some(shared) => shared,
        None => Rc::new(alloc, Vec::new(alloc)).ok()?,
    };
    match Rc::make_mut(&mut shared) {
        Ok(list) => match list.push(number) {
            Ok(()) => {}
            Err(_full) => {}
        },
        Err(_full) => {}
    }
    Some(shared)
}

// Writes 0 in this place.
fn clear(list: &mut Vec<u64>, at: usize)
    ensures { list.new.items ≡ set list.old.items at 0 }
{
    if at < list.len() {
        list[at] = 0;
    }
}

// The list with 0 in this place, and no list where there is no memory to change a copy of it.
fn without_number(numbers: Option<Rc<Vec<u64>>>, at: usize) -> Option<Rc<Vec<u64>>>
    ensures { Clears (numbers_in numbers) at (numbers_in result) }
{
    let mut shared = numbers?;
    match Rc::make_mut(&mut shared) {
        Ok(list) => clear(list, at),
        Err(_full) => return None,
    }
    Some(shared)
}

impl Spans {
    ghost use Rattle.std.specs.Prelude.{[]};

    /// Nothing is known.
    pub fn new(alloc: Global) -> Spans
        ensures { result ≡ [] }
    {
        Spans {
            alloc,
            numbers: None,
        }
    }

    /// The same knowledge.
    pub fn copy(&self) -> Result<Spans, NoMemory>
        ensures { IfOk result (λ copy. copy ≡ self.now) }
    {
        let numbers = match &self.numbers {
            Some(shared) => Some(shared.clone()?),
            None => None,
        };
        Ok(Spans {
            alloc: self.alloc,
            numbers,
        })
    }

    /// Where the tuple of an id lies, if it is known.
    pub(crate) fn of(&self, id: u32) -> Option<Span>
        ensures some { IfSome result (λ span. 1 ≤ id) }
        ensures known { IfSome result (λ span. 1 ≤ get_or self.now (id - 1) 0) }
        ensures span { IfSome result (λ span. span ≡ span_of (get_or self.now (id - 1) 0)) }
    {
        let at = id.checked_sub(1)?;
        let numbers = self.numbers.as_ref()?;
        let number = *numbers.get(at as usize)?;
        if number == 0 {
            return None;
        }
        Some(Span {
            page: number / 4_294_967_296,
            start: (number / 65_536 % 65_536) as u16,
            length: (number % 65_536) as u16,
        })
    }

    // How many ids it has heard of.
    fn count(&self) -> usize
        ensures { result ≡ length self.now }
    {
        match &self.numbers {
            Some(numbers) => numbers.len(),
            None => 0,
        }
    }

    /// Learns where the tuple of the id lies that comes behind all those it has heard of. Of another id, or without
    /// memory, it learns nothing.
    pub fn learn(&mut self, id: u32, span: Span)
        ensures { Learnt self.old id span self.new }
    {
        let Ok(page) = u32::try_from(span.page) else {
            return;
        };
        let number = u64::from(page) * 4_294_967_296
            + u64::from(span.start) * 65_536
            + u64::from(span.length);
        if id as usize == self.count() + 1 {
            self.numbers = with_number(self.alloc, self.numbers.take(), number);
        }
    }

    /// Forgets where the tuple of an id lay, and where all lay without memory for a change of a shared list.
    pub fn forget(&mut self, id: u32)
        ensures { Forgot self.old id self.new }
    {
        let Some(at) = id.checked_sub(1) else {
            return;
        };
        self.numbers = without_number(self.numbers.take(), at as usize);
    }
}
