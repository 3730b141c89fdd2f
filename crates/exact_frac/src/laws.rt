ghost use Rattle.std.specs.Prelude.{◌≡◌, ◌^◌};
ghost use Rattle.exact_frac.specs.declared.TheConstants.{MAX_NUM, MAX_DEN};

/// The greatest parts of a fraction.
pub fn the_greatest_parts()
    ensures numerator { MAX_NUM ≡ 2 ^ 82 }
    ensures denominator { MAX_DEN ≡ 2 ^ 41 }
{}
