// Laws of forms: what is printed is read, and only that; which forms share no line; how long a text is at most (sections 12.2 and 12.3 of
// docs/RULES.md).
#![tactic(auto)]

ghost use Rattle.std.specs.Prelude.{◌≡◌, true, List, ℕ, ◌≤◌, length};
ghost use Rattle.forms.specs.Forms.{Reading};
ghost use Rattle.forms.specs.Texts.{Value, text, Fits, is_form, values_of};
ghost use Rattle.forms.specs.Tables.{all_differ, ShareNoLine};
ghost use Rattle.forms.specs.Room.{room_of, Kinds, AllAtMost};

// For every form: its values are read back from their text, and a line is read as some values only where it is their text.
pub fn form_round_trip()
    ensures read { (form : List ℕ) (vs : List Value) → is_form form ≡ true → Fits form vs → values_of form (text form vs) ≡ Reading.Good vs }
    ensures only { (form line : List ℕ) (vs : List Value) → values_of form line ≡ Reading.Good vs → line ≡ text form vs }
{}

// Forms that differ at a byte that stands for itself, behind bytes that do so and are the same, share no line.
pub fn different_forms_share_no_line()
    ensures { (forms : List (List ℕ)) → all_differ forms ≡ true → ShareNoLine forms }
{}

// The text of a form's values is no longer than its own bytes and those that each value may take.
pub fn texts_are_short()
    ensures { (most : ℕ) (form : List ℕ) (vs : List Value) → Kinds form vs → AllAtMost most vs → length (text form vs) ≤ room_of most form }
{}
