ghost use Rattle.std.specs.Prelude.{◌≡◌};
ghost use Rattle.script_lines.specs.declared.TheConstants.{LONGEST_SCRIPT};

/// The longest script has 16 MiB.
pub fn the_longest_script()
    ensures { LONGEST_SCRIPT ≡ 16777216 }
{}
