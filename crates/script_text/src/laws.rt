ghost use Rattle.std.specs.Prelude.{◌≡◌, ◌≢◌, ℕ, List, Option, Some, Result, Ok, Err};
ghost use Rattle.script_text.specs.declared.TheConstants.{LONGEST_LINE, LONGEST_NAME, MOST_ROWS, MOST_WITHIN};
ghost use Rattle.script_text.specs.declared.parse.LineFault.{LineFault};
ghost use Rattle.script_text.specs.declared.parse.LineFault.TheVariants.{Memory};
ghost use Rattle.script_text.specs.InRange.{IsInRange};
ghost use Rattle.script_text.specs.Line.{Reads};
ghost use Rattle.script_text.specs.Printing.{printed};
ghost use Rattle.statements.specs.Statement.{Statement};

/// Whatever a line may answer, but no memory, is one answer: one statement, one column, or one of the others.
pub fn a_line_has_one_reading()
    ensures { (line : List ℕ) (a b : Result (Option Statement) LineFault)
        → Reads line a → Reads line b → a ≢ Err Memory → b ≢ Err Memory → a ≡ b }
{}

/// The printed form of a statement in range is read as that statement, where no memory is refused, and as nothing else.
pub fn printed_statements_are_read_back()
    ensures reads { (statement : Statement) → IsInRange statement → Reads (printed statement) (Ok (Some statement)) }
    ensures only { (statement : Statement) (answer : Result (Option Statement) LineFault)
        → IsInRange statement → Reads (printed statement) answer → answer ≢ Err Memory → answer ≡ Ok (Some statement) }
{}

/// The limits of the language that have a name.
pub fn the_limits()
    ensures name { LONGEST_NAME ≡ 32 }
    ensures line { LONGEST_LINE ≡ 8192 }
    ensures rows { MOST_ROWS ≡ 1000000 }
    ensures distance { MOST_WITHIN ≡ 2097151 }
{}
