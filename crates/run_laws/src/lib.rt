//! Laws of runs: what every run of a script keeps, whatever the script says.
//!
//! Every line has a reading: it falls from the left into tokens, to its end or to a first byte at which none begins, and the tokens write a
//! statement, in range or not, or have a first bad one. So the lines of every script say something. A refusal from outside has its cause; where nothing outside fails, each line
//! has the outcome that its checks and its effect define, and the output is determined. However cursors and changes
//! interleave, the `next`s of a cursor print the following rows of its answer over the database at its opening, and
//! `end` behind the last. A refused line changes nothing but, by the rows it printed, the cursor of a `next`; and the
//! lines of the text that begin with `refused` are as many as were refused.
//! Nothing runs here: each function is a law, its clause. Above: `session`, whose program carries runs out. Below:
//! `sand_model`, which defines them, `script_text`, whose reader answers one reading of each line, and `line_meaning` for what lines say.
//! Read `specs/Lib.antt` and the files that it lists.
#![tactic(auto)]

ghost use Rattle.std.specs.Prelude.{◌≢◌, ℕ, List, Option, Result, Err};
ghost use Rattle.script_text.specs.Line.{Reads};
ghost use Rattle.statements.specs.Statement.{Statement};
ghost use Rattle.script_text.specs.declared.parse.LineFault.{LineFault};
ghost use Rattle.script_text.specs.declared.parse.LineFault.TheVariants.{Memory};
ghost use Rattle.run_laws.specs.Causes.{RefusalsHaveCauses};
ghost use Rattle.run_laws.specs.Determined.{CalmRunsAreOne};
ghost use Rattle.run_laws.specs.Following.{StepsGiveTheAnswer, OpenedCursorsAreNew, CursorsAreMovedByTheirNext, NextsFollowTheAnswer, NextsEndWithTheAnswer, NextsGiveTheAnswer};
ghost use Rattle.run_laws.specs.Outlines.{EarlyChecksReadTheOutline};
ghost use Rattle.run_laws.specs.Refused.{RefusedLinesChangeNoRelation, RefusedLinesChangeNothing, RefusedNextsMoveByTheirRows};
ghost use Rattle.run_laws.specs.SeenRefusals.{RefusedLinesAreSeen};
ghost use Rattle.run_laws.specs.Settings.{MomentsHaveSettings};
ghost use Rattle.run_laws.specs.ShelfRuns.{ToldShelvesGiveRuns, ScriptsWithoutLoadsGiveRuns, ShelfRunsSplit};
ghost use Rattle.run_laws.specs.Undisturbed.{RunsAreComplete};
ghost use Rattle.sand_model.specs.ScriptLine.{ScriptLine};
ghost use Rattle.line_meaning.specs.Spoken.{AreLines};

/// Does nothing: its clause says that every line has an answer other than want of memory.
pub fn every_line_has_a_reading()
    ensures { (line : List ℕ) → (answer : Result (Option Statement) LineFault) × (answer ≢ Err Memory) × Reads line answer }
{}

/// The lines of every script say something, so what is promised of whatever they say is promised of every script.
pub fn every_script_has_readings()
    ensures { (lines : List (List ℕ)) → (script : List ScriptLine) × AreLines lines script }
{}

/// Every moment has a setting, whether the shelf tells its files or not, so what is promised in every setting is not empty.
pub fn every_moment_has_a_setting()
    ensures { MomentsHaveSettings }
{}

/// The checks before any page is touched read no more of a state than its outline, so what is decided in an outline is
/// decided in every state of it.
pub fn early_checks_read_the_outline()
    ensures { EarlyChecksReadTheOutline }
{}

/// A run over a shelf is a run of the model where the shelf tells its files, and where no line loads one; so are its parts.
pub fn a_run_over_a_shelf_is_a_run()
    ensures told { ToldShelvesGiveRuns }
    ensures unloaded { ScriptsWithoutLoadsGiveRuns }
    ensures parts { ShelfRunsSplit }
{}

/// No more lines of a run say that the disk failed than its count of faults rose, and so of the files; and none that a
/// page was damaged where the disk tells its pages.
pub fn refusals_have_causes()
    ensures { RefusalsHaveCauses }
{}

/// Where the disk tells its pages and no fault is counted, each line of a run has the outcome that its checks and its
/// effect define, or is refused as out of memory.
pub fn completeness()
    ensures { RunsAreComplete }
{}

/// Two runs of a script in which nothing outside fails and memory is there print the same and leave the same.
pub fn the_output_is_determined()
    ensures { CalmRunsAreOne }
{}

/// Steps of a cursor print the following rows of its answer, from scratch over the database at its opening, and `end`
/// exactly where fewer are left than were asked.
pub fn steps_give_the_answer()
    ensures { StepsGiveTheAnswer }
{}

/// Where `open` is accepted, a cursor of the name is open on the plan over the database as it stands, and has given
/// nothing.
pub fn an_opened_cursor_is_new()
    ensures { OpenedCursorsAreNew }
{}

/// No line of a run but a `next` of a cursor and its `close` changes the cursor.
pub fn a_cursor_is_moved_by_its_next_alone()
    ensures { CursorsAreMovedByTheirNext }
{}

/// However the lines of a run interleave, the rows that all `next`s of a cursor print are, one after the other, the
/// following rows of its answer over the database at its opening; and a `next` prints `end` exactly where fewer are left
/// than it asks for, unless it is refused.
pub fn nexts_follow_the_answer()
    ensures left { NextsFollowTheAnswer }
    ensures ends { NextsEndWithTheAnswer }
    ensures opened { NextsGiveTheAnswer }
{}

/// A line that prints a refusal leaves every relation as it was.
pub fn a_refused_line_changes_no_relation()
    ensures { RefusedLinesChangeNoRelation }
{}

/// A line that prints a refusal leaves every cursor as it was, too; a `next` alone moves its own, by just the rows that
/// it printed before.
pub fn a_refused_line_moves_no_cursor()
    ensures others { RefusedLinesChangeNothing }
    ensures next { RefusedNextsMoveByTheirRows }
{}

/// Whatever a script says, and over any disk, as many lines of its text begin with `refused` as were refused.
pub fn refused_lines_are_seen()
    ensures { RefusedLinesAreSeen }
{}
