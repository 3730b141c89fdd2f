// Fractions by their parts, and their order by value.
ghost use Rattle.std.specs.Prelude.{◌≡◌, ◌+◌, ◌*◌, ◌≤◌, ◌<◌, ◌^◌, ◌↔◌, IsTrue, length};
ghost use Rattle.std.specs.Int.{IsGcd};
ghost use Rattle.std.specs.Cmp.{eq_by_cmp_equiv, partial_equiv_from_equiv, partial_order_from_total};
ghost use Rattle.std.specs.Ordering.{eq_by_cmp, as_partial_cmp};
ghost use Rattle.std.proofs.Common.{refl};
ghost use Rattle.exact_frac.specs.declared.TheConstants.{MAX_NUM, MAX_DEN};
ghost use Rattle.exact_frac.specs.Fraction.{num_in, den_in};
ghost use Rattle.exact_frac.specs.Printed.{IsPrinted};
ghost use Rattle.exact_frac.specs.Value.{SameValue};
ghost use Rattle.exact_frac.specs.Frac.{value_cmp};

use crate::frac_text::FracText;
use crate::gcd::greatest_common_divisor;
use std::cmp::Ordering;
use std::marker::Model;

// How many bits of the first word lie below the denominator: a numerator has at most 19 beyond its first 64.
const DEN_SHIFT: u32 = 22;

// How many numbers a word has.
const WORD: u128 = 1 << 64;

/// A fraction of whole numbers, kept in two words. Equality and order are those of its value, so 1/2 and 2/4 are equal.
#[derive(Clone, Copy, Debug)]
pub struct Frac {
    high: u64,
    low: u64,
    ghost small: { num_in high low ≤ MAX_NUM },
    ghost positive: { 1 ≤ den_in high },
    ghost fits: { den_in high ≤ MAX_DEN },
    ghost word: { low < 2 ^ 64 },
}

impl Model for Frac {
    ghost use Rattle.std.specs.Prelude.{◌+◌, ◌*◌, ◌/◌, ◌%◌, ◌^◌};
    ghost use Rattle.exact_frac.specs.Fraction.{Fraction, num_in, den_in};

    ghost Value = { Fraction };

    ghost view = { λ f. record { num = num_in f.high f.low; den = den_in f.high; small = f.small; positive = f.positive; fits = f.fits } };

    ghost use Rattle.exact_frac.specs.Words.{words_of, words_of_parts};

    ghost inverse = { words_of };

    ghost inverse_ok = { λ f _. words_of_parts f };
}

impl Frac {
    ghost use Rattle.exact_frac.specs.Frac.{value_cmp};

    /// The fraction `num/den`, with the parts as they are given.
    pub fn new(num: u128, den: u128) -> Frac
        requires small { num ≤ MAX_NUM }
        requires positive { 1 ≤ den }
        requires fits { den ≤ MAX_DEN }
        ensures num { result.num ≡ num }
        ensures den { result.den ≡ den }
    {
        Frac {
            high: den as u64 * (1 << DEN_SHIFT) + (num / WORD) as u64,
            low: (num % WORD) as u64,
        }
    }

    /// The numerator.
    #[inline]
    pub fn num(&self) -> u128
        ensures { result ≡ self.now.num }
    {
        u128::from(self.high % (1 << DEN_SHIFT)) * WORD + u128::from(self.low)
    }

    /// The denominator, which isn't 0.
    #[inline]
    pub fn den(&self) -> u128
        ensures { result ≡ self.now.den }
    {
        u128::from(self.high / (1 << DEN_SHIFT))
    }

    /// The order of the two values, by cross products unless the denominators are equal.
    #[inline]
    pub fn compare(&self, other: &Frac) -> Ordering
        ensures { result ≡ value_cmp self.now other.now }
    {
        if self.high / (1 << DEN_SHIFT) == other.high / (1 << DEN_SHIFT) {
            // Over one denominator the words are in the order of the numerators: the first word ends in their upper bits.
            both_words(self).cmp(&both_words(other))
        } else {
            compare_products(self, other)
        }
    }

    /// Whether the value is at most the square of `r`.
    pub fn at_most_square(&self, r: u32) -> bool
        requires { r < 2 ^ 22 }
        ensures { IsTrue result ↔ (self.now.num ≤ r * r * self.now.den) }
    {
        let r = r as u128;
        self.num() <= r * r * self.den()
    }

    /// The same value in lowest terms; 0 is 0/1.
    pub fn lowest(&self) -> Frac
        ensures value { SameValue result.num result.den self.now.num self.now.den }
        ensures lowest { IsGcd result.num result.den 1 }
    {
        let (num, den) = (self.num(), self.den());
        if den == 1 {
            return *self;
        }
        let common = greatest_common_divisor(num, den);
        Frac::new(num / common, den / common)
    }

    /// The printed text: `n/d` in lowest terms, and `n` where `d` is 1.
    pub fn text(&self) -> FracText
        ensures printed { IsPrinted self.now.num self.now.den result }
        ensures short { length result ≤ 39 }
    {
        let lowest = self.lowest();
        if lowest.den() == 1 {
            FracText::whole(lowest.num())
        } else {
            FracText::ratio(lowest.num(), lowest.den())
        }
    }
}

// The two words as one number: the denominator stands above the 86 bits of the numerator.
#[inline]
fn both_words(f: &Frac) -> u128
    ensures { result ≡ f.now.den * 2 ^ 86 + f.now.num }
{
    u128::from(f.high) * WORD + u128::from(f.low)
}

// The order of the two values by cross products. It stays out of the callers of a comparison, which it would make large.
#[inline(never)]
fn compare_products(one: &Frac, other: &Frac) -> Ordering
    ensures { result ≡ value_cmp one.now other.now }
{
    (one.num() * other.den()).cmp(&(other.num() * one.den()))
}

impl PartialEq for Frac {
    ghost use Rattle.exact_frac.specs.Frac.{value_cmp, value_cmp_total};

    ghost eq = { eq_by_cmp value_cmp };

    ghost laws = { partial_equiv_from_equiv (eq_by_cmp_equiv value_cmp_total) };

    #[inline]
    fn eq(&self, other: &Frac) -> bool {
        self.compare(other).is_eq()
    }
}

impl Eq for Frac {
    ghost use Rattle.exact_frac.specs.Frac.{value_cmp_total};

    ghost laws = { eq_by_cmp_equiv value_cmp_total };
}

impl PartialOrd for Frac {
    ghost use Rattle.exact_frac.specs.Frac.{value_cmp, value_cmp_total};

    ghost partial_cmp = { as_partial_cmp value_cmp };

    ghost laws = { partial_order_from_total value_cmp_total };

    #[inline]
    fn partial_cmp(&self, other: &Frac) -> Option<Ordering> {
        Some(self.compare(other))
    }
}

impl Ord for Frac {
    ghost use Rattle.exact_frac.specs.Frac.{value_cmp, value_cmp_total};

    ghost cmp = { value_cmp };

    ghost total = { value_cmp_total };

    ghost matches_partial_cmp = { λ x y. refl };

    ghost matches_eq = { λ x y. refl };

    #[inline]
    fn cmp(&self, other: &Frac) -> Ordering {
        self.compare(other)
    }
}
