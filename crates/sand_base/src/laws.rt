ghost use Rattle.std.specs.Prelude.{◌≡◌};
ghost use Rattle.sand_base.specs.declared.TheConstants.{COORDINATE_BITS};

/// Coordinates have 20 bits.
pub fn the_width_of_the_plane()
    ensures { COORDINATE_BITS ≡ 20 }
{}
