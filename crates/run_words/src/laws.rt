ghost use Rattle.std.specs.Prelude.{◌≡◌};
ghost use Rattle.run_words.specs.declared.TheConstants.{PLAIN_FRAMES};

/// The frames of a run that names no number.
pub fn the_plain_frames()
    ensures { PLAIN_FRAMES ≡ 256 }
{}
