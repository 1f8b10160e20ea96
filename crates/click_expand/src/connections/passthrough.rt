//! Pass-through inputs: connections from such an input of a body lead to its outputs, through no
//! flat element.
//!
//! perf: the outputs are found once for each body, so that no search enters the compounds inside
//! it.

ghost use Rattle.std.specs.Prelude.{◌≡◌, ◌⊎◌, ◌∷◌, [], ℕ, List, Contains, Option, Some, None, true, false, length, IfOk, OnOk, IfSome, if◌then◌else◌};
ghost use Rattle.std.specs.Map.{lookup};
ghost use Rattle.click_scopes.specs.declared.written_connections.Owner.TheVariants as owner;
ghost use Rattle.click_scopes.specs.kept.Lookups.{body_at};
ghost use Rattle.click_expand.specs.declared.connections.connection_index.ScopePort.{ScopePort};
ghost use Rattle.click_expand.specs.declared.connections.connection_index.PortEnds.TheVariants.{Several};
ghost use Rattle.click_expand.specs.declared.connections.connection_index.ConnectionIndex.{ConnectionIndex};
ghost use Rattle.click_expand.specs.kept.Wiring.{AreIndices, Gains, HasAll, ends_in, same_port, scope_port as port_of};
ghost use Rattle.click_expand.specs.kept.Passthrough as spec;
ghost use Rattle.click_expand.specs.kept.Passthrough.{AreAlike, AreEndsOf, AreFound, AreShortened, AreStoodFor, HasShortcuts, IsLike, IsOutputOf, IsShortened, LeadAlike, LeadsThrough, GoesOnBehind, StandsIn};

use crate::connections::connection_index::{ConnectionIndex, PortEnds, ScopePort, index_of};
use click_scopes::{Owner, Scopes};
use indexmap::{IndexMap, IndexSet};
use std::alloc::{AllocError, Global};

/// A pass-through input, and the outputs that it leads to.
#[derive(Drop)]
struct Shortcut {
    from: ScopePort,
    outputs: Vec<ScopePort>,
}

/// Returns the number of the stand-in for an input of a body.
///
/// It is the input's own number, if no stand-in is recorded.
fn number_for(done: &[ConnectionIndex], body: usize, number: u8) -> u8
    ensures { (ends short : ℕ → ScopePort → List ScopePort) (bodies : ℕ → ℕ → Option ℕ) → AreShortened ends bodies short done.now →
        (result ≡ number) ⊎ LeadsThrough ends bodies body number (short body (port_of owner.Input result)) }
{
    match done.get(body) {
        Some(index) => match index.alike.get(&number) {
            Some(other) => *other,
            None => number,
        },
        None => number,
    }
}

/// Returns the stand-in for a port that a connection leads to.
fn port_for(done: &[ConnectionIndex], scopes: &Scopes, scope: usize, end: ScopePort) -> ScopePort
    ensures { (ends short : ℕ → ScopePort → List ScopePort) → AreShortened ends (body_at scopes.now.scopes.items) short done.now → StandsIn ends (body_at scopes.now.scopes.items) short scope end result }
{
    let Owner::Element(element) = end.owner else {
        return end;
    };
    match scopes.body_at(scope, element) {
        Some(body) => ScopePort {
            owner: end.owner,
            number: number_for(done, body, end.number),
        },
        None => end,
    }
}

/// Returns the stand-ins for these ports, without repetition.
fn ports_for(
    alloc: Global,
    done: &[ConnectionIndex],
    scopes: &Scopes,
    scope: usize,
    ends: &[ScopePort],
) -> Result<Vec<ScopePort>, AllocError>
    ensures { (joined short : ℕ → ScopePort → List ScopePort) → AreShortened joined (body_at scopes.now.scopes.items) short done.now →
        IfOk result (λ ports. AreStoodFor joined (body_at scopes.now.scopes.items) short scope ends.now ports.items) }
{
    let mut ports = IndexSet::new(alloc);
    for end in ends {
        ports.insert(port_for(done, scopes, scope, *end))?;
    }
    Vec::from_slice(alloc, ports.as_slice())
}

/// Replaces the ports that are stored for a port.
fn put_ends(
    ends: &mut IndexMap<ScopePort, PortEnds>,
    from: ScopePort,
    ports: Vec<ScopePort>,
) -> Result<(), AllocError>
    ensures { OnOk result ((q : ScopePort) → lookup (same_port q) ends.new.entries ≡ (if same_port from q then Some (Several ports) else lookup (same_port q) ends.old.entries)) }
{
    ends.insert(from, PortEnds::Several(ports))?;
    Ok(())
}

/// Returns the index of a scope in which each target port is replaced by its stand-in.
///
/// The indices of all bodies before the scope are in `done`.
fn with_representatives(
    alloc: Global,
    done: &[ConnectionIndex],
    scopes: &Scopes,
    scope: usize,
    index: &ConnectionIndex,
) -> Result<ConnectionIndex, AllocError>
    ensures { (ends short : ℕ → ScopePort → List ScopePort) → AreShortened ends (body_at scopes.now.scopes.items) short done.now → ((a : ScopePort) → ends scope a ≡ ends_in index.now.ends.entries a) →
        IfOk result (λ x. AreEndsOf ends (body_at scopes.now.scopes.items) short scope (ends_in x.ends.entries)) }
{
    let mut ends = IndexMap::new(alloc);
    for at in 0..index.ends.len() {
        if let Some((port, _)) = index.ends.get_index(at) {
            let ports = ports_for(alloc, done, scopes, scope, index.ends(*port))?;
            put_ends(&mut ends, *port, ports)?;
        }
    }
    Ok(ConnectionIndex {
        ends,
        alike: IndexMap::new(alloc),
    })
}

/// Returns whether an element of the scope is a compound.
fn has_compounds(scopes: &Scopes, scope: usize) -> bool
    ensures { result ≡ false → (element : ℕ) → body_at scopes.now.scopes.items scope element ≡ None }
{
    for element in 0..scopes.elements_at(scope).len() {
        if scopes.body_at(scope, element).is_some() {
            return true;
        }
    }
    false
}

/// Returns the index of a scope in which each target port is replaced by its stand-in.
///
/// perf: the index of a scope without compounds is returned as given, because it has no stand-ins.
fn with_representatives_if_nested(
    alloc: Global,
    done: &[ConnectionIndex],
    scopes: &Scopes,
    scope: usize,
    index: ConnectionIndex,
) -> Result<ConnectionIndex, AllocError>
    ensures { (ends short : ℕ → ScopePort → List ScopePort) → AreShortened ends (body_at scopes.now.scopes.items) short done.now → ((a : ScopePort) → ends scope a ≡ ends_in index.ends.entries a) →
        IfOk result (λ x. AreEndsOf ends (body_at scopes.now.scopes.items) short scope (ends_in x.ends.entries)) }
{
    if has_compounds(scopes, scope) {
        return with_representatives(alloc, done, scopes, scope, &index);
    }
    Ok(index)
}

/// Returns whether all of these ports are a body's own outputs.
///
/// It returns true for no ports: an input without connections leads to no flat element.
fn are_outputs(ends: &[ScopePort]) -> bool
    ensures { result ≡ true → (p : ScopePort) → Contains ends.now p → p.owner ≡ owner.Output }
{
    for end in ends {
        let Owner::Output = end.owner else {
            return false;
        };
    }
    true
}

/// Returns the outputs of a pass-through input of a body.
///
/// Returns `None` if the input is not known to be one, or the body is not in `done`.
fn outputs_through(done: &[ConnectionIndex], body: usize, number: u8) -> Option<&[ScopePort]>
    ensures { (ends short : ℕ → ScopePort → List ScopePort) (bodies : ℕ → ℕ → Option ℕ) → AreShortened ends bodies short done.now →
        IfSome result (λ outputs. (outputs.now ≡ short body (port_of owner.Input number)) × LeadsThrough ends bodies body number outputs.now) }
{
    let ends = done.get(body)?.ends(ScopePort {
        owner: Owner::Input,
        number,
    });
    if are_outputs(ends) { Some(ends) } else { None }
}

/// Continues the search at the element's outputs with these numbers.
fn enqueue_outputs(
    element: usize,
    outputs: &[ScopePort],
    seen: &mut IndexSet<ScopePort>,
) -> Result<(), AllocError>
    ensures more { OnOk result (Gains (IsOutputOf element outputs.now) seen.old.keys seen.new.keys) }
    ensures all { OnOk result (HasAll (IsOutputOf element outputs.now) seen.new.keys) }
{
    for output in outputs {
        seen.insert(ScopePort {
            owner: Owner::Element(element),
            number: output.number,
        })?;
    }
    Ok(())
}

/// Continues the search at a port that a connection leads to.
///
/// Returns false if the port belongs to a flat element, or is not a pass-through input.
fn follow_port(
    done: &[ConnectionIndex],
    scopes: &Scopes,
    scope: usize,
    end: ScopePort,
    seen: &mut IndexSet<ScopePort>,
    outputs: &mut IndexSet<ScopePort>,
) -> Result<bool, AllocError>
    ensures { (ends short : ℕ → ScopePort → List ScopePort) → AreShortened ends (body_at scopes.now.scopes.items) short done.now →
        IfOk result (λ on. on ≡ true → GoesOnBehind ends (body_at scopes.now.scopes.items) short scope (end ∷ []) seen.old.keys seen.new.keys outputs.old.keys outputs.new.keys) }
{
    match end.owner {
        // No connection leads to a body's own input: that would be a misuse.
        Owner::Input => Ok(true),
        Owner::Output => {
            outputs.insert(end)?;
            Ok(true)
        }
        Owner::Element(element) => {
            let Some(body) = scopes.body_at(scope, element) else {
                return Ok(false);
            };
            let Some(behind) = outputs_through(done, body, end.number) else {
                return Ok(false);
            };
            enqueue_outputs(element, behind, seen)?;
            Ok(true)
        }
    }
}

/// Continues the search at each of these ports.
///
/// Returns false at the first for which `pass` does.
fn follow_all(
    done: &[ConnectionIndex],
    scopes: &Scopes,
    scope: usize,
    ends: &[ScopePort],
    seen: &mut IndexSet<ScopePort>,
    outputs: &mut IndexSet<ScopePort>,
) -> Result<bool, AllocError>
    ensures { (joined short : ℕ → ScopePort → List ScopePort) → AreShortened joined (body_at scopes.now.scopes.items) short done.now →
        IfOk result (λ on. on ≡ true → GoesOnBehind joined (body_at scopes.now.scopes.items) short scope ends.now seen.old.keys seen.new.keys outputs.old.keys outputs.new.keys) }
{
    for end in ends {
        if !follow_port(done, scopes, scope, *end, seen, outputs)? {
            return Ok(false);
        }
    }
    Ok(true)
}

/// Returns the outputs of a scope to which connections from one of its inputs lead.
///
/// Returns `None` if they also lead to a flat element.
fn outputs_from(
    alloc: Global,
    done: &[ConnectionIndex],
    scopes: &Scopes,
    scope: usize,
    index: &ConnectionIndex,
    from: ScopePort,
) -> Result<Option<Vec<ScopePort>>, AllocError>
    ensures { (ends short : ℕ → ScopePort → List ScopePort) → AreShortened ends (body_at scopes.now.scopes.items) short done.now → AreEndsOf ends (body_at scopes.now.scopes.items) short scope (ends_in index.now.ends.entries) →
        IfOk result (λ r. IfSome r (λ outputs. LeadAlike ends (body_at scopes.now.scopes.items) scope (ends_in index.now.ends.entries) from outputs.items)) }
{
    let mut seen = IndexSet::new(alloc);
    let mut outputs = IndexSet::new(alloc);
    seen.insert(from)?;
    let mut at = 0;
    while at < seen.len() {
        let port = seen.as_slice()[at];
        let ends = index.ends(port);
        if !follow_all(done, scopes, scope, ends, &mut seen, &mut outputs)? {
            return Ok(None);
        }
        at += 1;
    }
    Ok(Some(Vec::from_slice(alloc, outputs.as_slice())?))
}

/// The shortcuts that were found in a scope.
#[derive(Drop)]
struct ScopeShortcuts {
    /// Its pass-through inputs.
    shortcuts: Vec<Shortcut>,
    /// For a port: the first of these inputs whose only connection leads to it.
    firsts: IndexMap<ScopePort, u8>,
    /// For an input: the one with a shortcut that has the same only connection.
    alike: IndexMap<u8, u8>,
}

/// Returns the only port that connections lead to from a port, if there is exactly one.
fn only_end(index: &ConnectionIndex, from: ScopePort) -> Option<ScopePort>
    ensures { result ≡ spec.only (ends_in index.now.ends.entries from) }
{
    match index.ends(from) {
        [end] => Some(*end),
        _ => None,
    }
}

impl ScopeShortcuts {
    /// Returns an input that was found before, whose only connection leads to the same port.
    fn representative_of(&self, index: &ConnectionIndex, from: ScopePort) -> Option<u8>
        ensures { (ends : ℕ → ScopePort → List ScopePort) (bodies : ℕ → ℕ → Option ℕ) (scope : ℕ) → AreFound ends bodies scope (ends_in index.now.ends.entries) self.now →
            IfSome result (IsLike (ends_in index.now.ends.entries) self.now.shortcuts.items from) }
    {
        match only_end(index, from) {
            Some(end) => self.firsts.get(&end).copied(),
            None => None,
        }
    }

    /// Adds a shortcut.
    fn add(
        &mut self,
        index: &ConnectionIndex,
        from: ScopePort,
        outputs: Vec<ScopePort>,
    ) -> Result<(), AllocError>
        ensures { (ends : ℕ → ScopePort → List ScopePort) (bodies : ℕ → ℕ → Option ℕ) (scope : ℕ) → AreFound ends bodies scope (ends_in index.now.ends.entries) self.old → from.owner ≡ owner.Input →
            LeadAlike ends bodies scope (ends_in index.now.ends.entries) from outputs.items → OnOk result (AreFound ends bodies scope (ends_in index.now.ends.entries) self.new) }
    {
        if let Some(end) = only_end(index, from) {
            self.firsts.insert(end, from.number)?;
        }
        self.shortcuts.push(Shortcut { from, outputs })?;
        Ok(())
    }

    /// Adds the shortcut from a port, or the input that it is like, if it is a pass-through input.
    fn add_shortcut_from(
        &mut self,
        alloc: Global,
        done: &[ConnectionIndex],
        scopes: &Scopes,
        scope: usize,
        index: &ConnectionIndex,
        from: ScopePort,
    ) -> Result<(), AllocError>
        ensures { (ends short : ℕ → ScopePort → List ScopePort) → AreShortened ends (body_at scopes.now.scopes.items) short done.now → AreEndsOf ends (body_at scopes.now.scopes.items) short scope (ends_in index.now.ends.entries) →
            AreFound ends (body_at scopes.now.scopes.items) scope (ends_in index.now.ends.entries) self.old → OnOk result (AreFound ends (body_at scopes.now.scopes.items) scope (ends_in index.now.ends.entries) self.new) }
    {
        let Owner::Input = from.owner else {
            return Ok(());
        };
        if let Some(number) = self.representative_of(index, from) {
            self.alike.insert(from.number, number)?;
            return Ok(());
        }
        match outputs_from(alloc, done, scopes, scope, index, from)? {
            Some(outputs) => self.add(index, from, outputs),
            None => Ok(()),
        }
    }
}

/// Returns the shortcuts of a scope.
///
/// The indices of all bodies before it, with their shortcuts, are in `done`.
fn shortcuts_of(
    alloc: Global,
    done: &[ConnectionIndex],
    scopes: &Scopes,
    scope: usize,
    index: &ConnectionIndex,
) -> Result<ScopeShortcuts, AllocError>
    ensures { (ends short : ℕ → ScopePort → List ScopePort) → AreShortened ends (body_at scopes.now.scopes.items) short done.now → AreEndsOf ends (body_at scopes.now.scopes.items) short scope (ends_in index.now.ends.entries) →
        IfOk result (AreFound ends (body_at scopes.now.scopes.items) scope (ends_in index.now.ends.entries)) }
{
    let mut found = ScopeShortcuts {
        shortcuts: Vec::new(alloc),
        firsts: IndexMap::new(alloc),
        alike: IndexMap::new(alloc),
    };
    for at in 0..index.ends.len() {
        if let Some((port, _)) = index.ends.get_index(at) {
            found.add_shortcut_from(alloc, done, scopes, scope, index, *port)?;
        }
    }
    Ok(found)
}

/// Returns the index with these shortcuts.
fn with_shortcuts(
    index: ConnectionIndex,
    found: ScopeShortcuts,
) -> Result<ConnectionIndex, AllocError>
    ensures { IfOk result (HasShortcuts index found) }
{
    let mut ends = index.ends;
    let mut shortcuts = found.shortcuts;
    while let Some(one) = shortcuts.pop() {
        put_ends(&mut ends, one.from, one.outputs)?;
    }
    Ok(ConnectionIndex {
        ends,
        alike: found.alike,
    })
}

/// Returns the index of a scope with its shortcuts.
///
/// The indices of all bodies before it, with their shortcuts, are in `done`.
fn with_shortcuts_of_scope(
    alloc: Global,
    done: &[ConnectionIndex],
    scopes: &Scopes,
    scope: usize,
    index: ConnectionIndex,
) -> Result<ConnectionIndex, AllocError>
    ensures { (ends short : ℕ → ScopePort → List ScopePort) → AreShortened ends (body_at scopes.now.scopes.items) short done.now → ((a : ScopePort) → ends scope a ≡ ends_in index.ends.entries a) →
        IfOk result (λ x. ((a : ScopePort) → short scope a ≡ ends_in x.ends.entries a) → IsShortened ends (body_at scopes.now.scopes.items) short scope × AreAlike ends (body_at scopes.now.scopes.items) short scope x) }
{
    let short = with_representatives_if_nested(alloc, done, scopes, scope, index)?;
    let found = shortcuts_of(alloc, done, scopes, scope, &short)?;
    with_shortcuts(short, found)
}

/// Returns the indices of all scopes, with their shortcuts, or fails with out of memory.
pub fn all_indices(alloc: Global, scopes: &Scopes) -> Result<Vec<ConnectionIndex>, AllocError>
    ensures { IfOk result (λ short. (whole : List ConnectionIndex) × AreIndices scopes.now.scopes.items whole × (length whole ≡ length short.items)
        × AreShortened (spec.ends_at whole) (body_at scopes.now.scopes.items) (spec.ends_at short.items) short.items) }
{
    let mut indices = Vec::new(alloc);
    let all = scopes.scopes.as_slice();
    for (scope, one) in all.iter().enumerate() {
        let index = index_of(alloc, one.connections.as_slice())?;
        indices.push(with_shortcuts_of_scope(alloc, indices.as_slice(), scopes, scope, index)?)?;
    }
    Ok(indices)
}
