//! Seeing through versions: the fold of states, and that it is what the definitions of a chain say.

ghost use Rattle.std.specs.Prelude.{◌≡◌, ◌++◌, ◌∷◌, [], ℕ, ◌<◌, List, Some, None, IsTrue, drop, length, true, false};
ghost use Rattle.rc_core.specs.declared.entries.ChainKind.{ChainKind};
ghost use Rattle.rc_core.specs.SpotState.{SpotState, silent, under, through, joined_state};
ghost use Rattle.rc_core.specs.Chain.{base, content, decides, first_flag, flag_over, has_flag};

/// A state that says nothing is seen through, whether it lies below or above; and of three states any two may be seen first.
pub fn seeing_through_is_a_monoid()
    ensures below { (c : SpotState) → under silent c ≡ c }
    ensures above { (c : SpotState) → under c silent ≡ c }
    ensures grouping { (a b c : SpotState) → under (under a b) c ≡ under a (under b c) }
{}

/// The versions of a chain may be seen in two parts.
pub fn seeing_in_parts()
    ensures { (older newer : List SpotState) → through (older ++ newer) ≡ under (through older) (through newer) }
{}

/// The base is the newest state that is Known or Unknown: such a state, with none in front of it.
pub fn the_base_is_the_newest_that_decides()
    ensures found { (cells : List SpotState) (i : ℕ) → base cells ≡ Some i → IsTrue (decides (first_flag (drop i cells))) }
    ensures newest { (cells : List SpotState) (i k : ℕ) → base cells ≡ Some i → i < k → decides (first_flag (drop k cells)) ≡ false }
    ensures none { (cells : List SpotState) (k : ℕ) → base cells ≡ None → decides (first_flag (drop k cells)) ≡ false }
{}

/// What a reader believes, the base's flag and the join from the base on, is what the fold of the states gives.
pub fn the_fold_is_what_is_seen()
    ensures flag { (kind : ChainKind) (cells : List SpotState) → has_flag kind cells ≡ flag_over kind (through cells).flag }
    ensures content { (cells : List SpotState) → content cells ≡ joined_state (through cells) }
{}
