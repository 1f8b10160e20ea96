//! The instances of scopes: the whole text, and each compound that a path leads to.

ghost use Rattle.std.specs.Prelude.{◌≡◌, ◌≤◌, ◌<◌, ◌++◌, ◌∷◌, [], ℕ, List, length, slice_get, slice_set, Some, IfOk, OnOk};
ghost use Rattle.click_scopes.specs.kept.Nesting.{IsNested};
ghost use Rattle.click_scopes.specs.Analysis.{AreScopes};
ghost use Rattle.click_scopes.specs.kept.Lookups.{elements_by};
ghost use Rattle.click_scopes.specs.Faults.{IsFaultless};
ghost use Rattle.click_expand.specs.Instances.{PrimitiveElement as Flattened, PrimitiveElementsOf};
ghost use Rattle.click_expand.specs.kept.KnownInstances.{KnownInstance, AreInstances};
ghost use Rattle.click_expand.specs.declared.instances.tree.Instance.{Instance};
ghost use Rattle.click_expand.specs.kept.InstanceWalk as spec;
ghost use Rattle.click_expand.specs.kept.InstanceWalk.{instance_without_parts, with_part, AreInward, lexical_parent_by, IsLexicalParentIn, AddsFlatElement, IsEntered, IsLeft, IsWalkStep};

use click_base::sequence::Sequence;
use click_scopes::{ResolvedClass, Scopes};
use click_text::syntax::Config;
use std::alloc::{AllocError, Global};

/// A part: an element of an instance.
#[derive(Clone, Copy, Debug, PartialEq, Eq)]
pub enum InstancePart {
    /// A flat element, by its index in flat order.
    PrimitiveElement(usize),
    /// An instance of a body, by its index among the instances.
    Inner(usize),
}

/// The place of an element: the instance that contains it, and its index among the elements there.
#[derive(Clone, Copy, Debug, PartialEq, Eq)]
pub struct Place {
    pub within: usize,
    pub element: usize,
}

/// An instance of a scope.
#[derive(Drop)]
pub struct Instance {
    /// The index of its scope.
    pub scope: usize,
    /// The place of the element whose instance it is; `None` for the whole text.
    pub enclosing: Option<Place>,
    /// The instance of the scope around its body; `None` for the whole text.
    pub lexical_parent: Option<usize>,
    /// Its elements, in the order of the text.
    pub parts: Sequence<InstancePart>,
}

/// The instances, and the places of the flat elements in flat order.
///
/// The whole text is the first instance, and each other one comes after the one that contains it.
#[derive(Drop)]
pub struct Instances {
    pub instances: Vec<Instance>,
    pub primitive_elements: Vec<Place>,
}

/// What comes next among the elements of an instance.
#[derive(Clone, Copy)]
enum NextElement {
    Inner(usize),
    Flat,
    Nothing,
}

/// The instances and the flat elements so far, and the current instance of the walk.
#[derive(Drop)]
struct Walk {
    instances: Vec<Instance>,
    primitive_elements: Vec<Place>,
    place: usize,
}

fn next_class(class: Option<ResolvedClass>) -> NextElement
    ensures { result ≡ spec.next_class class }
{
    match class {
        Some(ResolvedClass::Compound(body)) => NextElement::Inner(body),
        _ => NextElement::Flat,
    }
}

/// Returns what is at this index among the elements of a scope.
fn next_in(scopes: &Scopes, scope: usize, element: usize) -> NextElement
    ensures { result ≡ spec.next_in (elements_by (slice_get scopes.now.scopes.items scope)) element }
{
    match scopes.elements_at(scope).get(element) {
        Some(scope_element) => next_class(scope_element.class),
        None => NextElement::Nothing,
    }
}

/// Returns the next instance to look at, or `None` if this one is of the scope.
fn next_lexical_parent(instances: &[Instance], place: usize, scope: usize) -> Option<usize>
    requires { place < length instances.now }
    ensures { (k : Instance) × (slice_get instances.now place ≡ Some k) × (result ≡ lexical_parent_by scope k) }
{
    let one = &instances[place];
    if one.scope == scope {
        None
    } else {
        one.lexical_parent
    }
}

/// Returns the nearest instance of the scope, going from lexical parent to lexical parent.
fn lexical_parent_of(instances: &[Instance], place: usize, scope: usize) -> usize
    requires there { place < length instances.now }
    requires inward { AreInward instances.now }
    ensures { IsLexicalParentIn instances.now scope place result }
{
    let mut lexical_parent = place;
    while let Some(outward) = next_lexical_parent(instances, lexical_parent, scope) {
        lexical_parent = outward;
    }
    lexical_parent
}

/// Appends a part to an instance.
fn add_part(
    instances: &mut Vec<Instance>,
    place: usize,
    part: InstancePart,
) -> Result<(), AllocError>
    requires { place < length instances.old.items }
    ensures { OnOk result ((k : Instance) × (slice_get instances.old.items place ≡ Some k) × (instances.new.items ≡ slice_set instances.old.items place (with_part k part))) }
{
    let one = &mut instances[place];
    one.parts.push(part)?;
    Ok(())
}

/// Returns an instance without parts.
fn new_instance(
    alloc: Global,
    scope: usize,
    enclosing: Option<Place>,
    lexical_parent: Option<usize>,
) -> Instance
    ensures { result ≡ instance_without_parts scope enclosing lexical_parent }
{
    Instance {
        scope,
        enclosing,
        lexical_parent,
        parts: Sequence::new(alloc),
    }
}

/// Appends an instance.
fn push_instance(instances: &mut Vec<Instance>, one: Instance) -> Result<(), AllocError>
    ensures { OnOk result (instances.new.items ≡ instances.old.items ++ one ∷ []) }
{
    instances.push(one)?;
    Ok(())
}

/// Returns the number of parts that an instance has so far.
fn part_count(instances: &[Instance], place: usize) -> usize
    requires { place < length instances.now }
    ensures { (k : Instance) × (slice_get instances.now place ≡ Some k) × (result ≡ length k.parts) }
{
    let one = &instances[place];
    one.parts.len()
}

/// Appends a flat element to the current instance.
fn add_primitive_element(walk: &mut Walk) -> Result<(), AllocError>
    requires { walk.old.place < length walk.old.instances.items }
    ensures { OnOk result ((k : Instance) × (slice_get walk.old.instances.items walk.old.place ≡ Some k) × AddsFlatElement walk.old walk.new k) }
{
    let element = part_count(walk.instances.as_slice(), walk.place);
    let primitive_element = walk.primitive_elements.len();
    add_part(
        &mut walk.instances,
        walk.place,
        InstancePart::PrimitiveElement(primitive_element),
    )?;
    walk.primitive_elements.push(Place {
        within: walk.place,
        element,
    })?;
    Ok(())
}

/// Appends the instance of a body, and makes it the current one.
fn enter(alloc: Global, scopes: &Scopes, body: usize, walk: &mut Walk) -> Result<(), AllocError>
    requires there { walk.old.place < length walk.old.instances.items }
    requires inward { AreInward walk.old.instances.items }
    ensures { OnOk result ((k : Instance) × (slice_get walk.old.instances.items walk.old.place ≡ Some k) × IsEntered scopes.now.scopes.items body walk.old walk.new k) }
{
    let element = part_count(walk.instances.as_slice(), walk.place);
    let lexical_parent = lexical_parent_of(
        walk.instances.as_slice(),
        walk.place,
        scopes.parent_of(body),
    );
    let inner = walk.instances.len();
    add_part(&mut walk.instances, walk.place, InstancePart::Inner(inner))?;
    let enclosing = Place {
        within: walk.place,
        element,
    };
    push_instance(
        &mut walk.instances,
        new_instance(alloc, body, Some(enclosing), Some(lexical_parent)),
    )?;
    walk.place = inner;
    Ok(())
}

/// Makes the instance around the current one the current one. Returns false if there is none.
fn leave(walk: &mut Walk) -> bool
    requires { walk.old.place < length walk.old.instances.items }
    ensures { (k : Instance) × (slice_get walk.old.instances.items walk.old.place ≡ Some k) × IsLeft k.enclosing walk.old walk.new result }
{
    let one = &walk.instances[walk.place];
    match one.enclosing {
        Some(enclosing) => {
            walk.place = enclosing.within;
            true
        }
        None => false,
    }
}

/// Returns what comes next in the instance at an index.
fn next_of(instances: &[Instance], scopes: &Scopes, place: usize) -> NextElement
    requires { place < length instances.now }
    ensures { (k : Instance) × (slice_get instances.now place ≡ Some k) × (result ≡ spec.next_in (elements_by (slice_get scopes.now.scopes.items k.scope)) (length k.parts)) }
{
    let one = &instances[place];
    next_in(scopes, one.scope, one.parts.len())
}

/// Makes one step of the walk. Returns whether more follow.
fn step(alloc: Global, scopes: &Scopes, walk: &mut Walk) -> Result<bool, AllocError>
    requires there { walk.old.place < length walk.old.instances.items }
    requires inward { AreInward walk.old.instances.items }
    ensures { IfOk result (λ more. IsWalkStep scopes.now.scopes.items walk.old walk.new more) }
{
    match next_of(walk.instances.as_slice(), scopes, walk.place) {
        NextElement::Inner(body) => {
            enter(alloc, scopes, body, walk)?;
            Ok(true)
        }
        NextElement::Flat => {
            add_primitive_element(walk)?;
            Ok(true)
        }
        NextElement::Nothing => Ok(leave(walk)),
    }
}

/// Returns the instances of a configuration with this number of paths, or fails with out of memory.
pub fn instances_of(
    alloc: Global,
    config: &Config,
    scopes: &Scopes,
    paths: usize,
) -> Result<Instances, AllocError>
    requires nested { IsNested config.now }
    requires scopes { AreScopes config.now scopes.now }
    requires sound { IsFaultless config.now }
    requires few { paths ≤ 16384 }
    requires counted { (primitive_elements : List Flattened) × PrimitiveElementsOf config.now primitive_elements paths }
    ensures { IfOk result (λ r. (primitive_elements : List Flattened) (n : ℕ) → PrimitiveElementsOf config.now primitive_elements n → (known : List KnownInstance) × AreInstances config.now r.instances.items r.primitive_elements.items known primitive_elements) }
{
    let mut walk = Walk {
        instances: Vec::new(alloc),
        primitive_elements: Vec::new(alloc),
        place: 0,
    };
    push_instance(
        &mut walk.instances,
        new_instance(alloc, config.bodies.len(), None, None),
    )?;
    let mut more = true;
    while more {
        more = step(alloc, scopes, &mut walk)?;
    }
    Ok(Instances {
        instances: walk.instances,
        primitive_elements: walk.primitive_elements,
    })
}
