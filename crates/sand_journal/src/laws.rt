ghost use Rattle.std.specs.Prelude.{◌≡◌, ◌≤◌, ℕ, List, length, map, take};
ghost use Rattle.std.specs.List.{AllByRecursion};
ghost use Rattle.sand_journal.specs.ChangeBody.{ChangeValue, IsChange, body_of};
ghost use Rattle.sand_journal.specs.Changes.{HasChanges, HasAtLeast};
ghost use Rattle.sand_journal.specs.Images.{HasBodies, LiesBetween};

use script_text::printed_statements_are_read_back;

/// No image has two lists of bodies.
pub fn an_image_has_one_list_of_bodies()
    ensures { (image : List ℕ) (a b : List (List ℕ)) → HasBodies a image → HasBodies b image → a ≡ b }
{}

/// No body is that of two changes.
pub fn a_body_has_one_change()
    ensures { (a b : ChangeValue) → IsChange a → IsChange b → body_of a ≡ body_of b → a ≡ b }
{
    printed_statements_are_read_back();
}

/// An image whose bodies lie between those of the first changes and those of all has the first ones and may have more.
pub fn an_image_has_the_first_changes()
    ensures { (changes : List ChangeValue) (least : ℕ) (image : List ℕ) → AllByRecursion IsChange changes → least ≤ length changes
        → LiesBetween (map body_of (take least changes)) (map body_of changes) image → HasAtLeast least changes image }
{}
