//! Theorems about flat forms.

ghost use Rattle.std.specs.Prelude.{◌≡◌, ◌<◌, ℕ, List, [], map, length, slice_get, Some, Contains};
ghost use Rattle.click_text.specs.declared.syntax.Config.{Config};
ghost use Rattle.click_text.specs.Spelling.{Spells};
ghost use Rattle.click_expand.specs.declared.fault.ExpandFault.{ExpandFault};
ghost use Rattle.click_expand.specs.declared.flat.Connection.{Connection};
ghost use Rattle.click_expand.specs.declared.flat.Flat.{Flat};
ghost use Rattle.click_expand.specs.declared.flat.FlatElement.{FlatElement};
ghost use Rattle.click_scopes.specs.Scopes.{whole};
ghost use Rattle.click_scopes.specs.Faults.{elements_of_scope};
ghost use Rattle.click_expand.specs.Flat.{StandsBefore, IsFlat, IsFlatFault};
ghost use Rattle.click_expand.specs.OneScope.{HasNoCompounds, IsConnectionAsWritten, as_written, as_flat};
ghost use Rattle.click_expand.specs.FlatText.{flat_text_of};

/// The text of a flat form spells a configuration that has the same flat form.
///
/// `parse` returns that configuration if the text is not too large.
pub fn flat_text_reads_back()
    ensures { (text : List ℕ) (config : Config) (flat : Flat) → Spells text config → IsFlat config flat → (again : Config) × Spells (flat_text_of flat) again × IsFlat again flat }
{}

/// A configuration has at most one flat form, at most one first fault, and never both.
///
/// The configuration must be one that a text spells.
pub fn flat_once()
    ensures flat { (text : List ℕ) (config : Config) (flat other : Flat) → Spells text config → IsFlat config flat → IsFlat config other → flat ≡ other }
    ensures fault { (text : List ℕ) (config : Config) (fault other : ExpandFault) → Spells text config → IsFlatFault config fault → IsFlatFault config other → fault ≡ other }
    ensures either { (text : List ℕ) (config : Config) (flat : Flat) (fault : ExpandFault) → Spells text config → IsFlat config flat → IsFlatFault config fault → ⊥ }
{}

/// No two elements of a flat form have the same name.
pub fn names_are_distinct()
    ensures { (config : Config) (flat : Flat) (i j : ℕ) (e f : FlatElement) → IsFlat config flat →
        slice_get flat.elements i ≡ Some e → slice_get flat.elements j ≡ Some f → e.name ≡ f.name → i ≡ j }
{}

/// The connections of a flat form are in order, without repetition.
///
/// The order is by from-element, from-port, to-element and to-port.
pub fn connections_are_ordered()
    ensures { (config : Config) (flat : Flat) (i j : ℕ) (k l : Connection) → IsFlat config flat →
        slice_get flat.connections i ≡ Some k → slice_get flat.connections j ≡ Some l → i < j → StandsBefore k l }
{}

/// Each connection of a flat form connects two of its elements.
pub fn ends_are_elements()
    ensures { (config : Config) (flat : Flat) (k : Connection) → IsFlat config flat →
        Contains flat.connections k → (k.from < length flat.elements) × (k.to < length flat.elements) }
{}

/// Without compounds, the flat form has the elements and connections that the text declares.
///
/// Each element has its own name, class and configuration string, and the connections are exactly
/// those that are written.
pub fn flat_without_compounds()
    ensures elements { (config : Config) (flat : Flat) → HasNoCompounds config → IsFlat config flat → map as_flat flat.elements ≡ map as_written (elements_of_scope config whole []) }
    ensures written { (config : Config) (flat : Flat) (k : Connection) → HasNoCompounds config → IsFlat config flat → Contains flat.connections k → IsConnectionAsWritten config k }
    ensures all { (config : Config) (flat : Flat) (k : Connection) → HasNoCompounds config → IsFlat config flat → IsConnectionAsWritten config k → Contains flat.connections k }
{}
