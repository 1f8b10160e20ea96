//! Theorems about the definitions.

ghost use Rattle.std.specs.Prelude.{◌≡◌, ◌++◌, ◌∷◌, ℕ, List, [], Some};
ghost use Rattle.click_views.specs.Log.{LogEntry, installs, IsClosed};
ghost use Rattle.click_views.specs.Showing.{BeginsWith, IsLast};

/// States that a prefix of a prefix is a prefix: what was shown stays shown.
pub fn beginnings_last<T>()
    ensures { (first next last : List T) → BeginsWith next first → BeginsWith last next → BeginsWith last first }
{}

/// States that a list has one last item only.
pub fn one_is_last<T>()
    ensures { (list : List T) (x y : T) → IsLast list x → IsLast list y → x ≡ y }
{}

/// States that a further entry of the log is a further install. The entry that ends the log is no
/// install.
pub fn entries_are_installs<T>()
    ensures more { (log : List (LogEntry T)) (key : ℕ) (x : T) → installs (log ++ (key, Some x) ∷ []) ≡ installs log ++ x ∷ [] }
    ensures closed { (log : List (LogEntry T)) → IsClosed log → (before : List (LogEntry T)) × (installs log ≡ installs before) }
{}
