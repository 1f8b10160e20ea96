//! The value of a parameter in an instance of a scope.

ghost use Rattle.std.specs.Prelude.{◌≡◌, ◌<◌, ◌≤◌, List, length, slice_get, ◌∷◌, Some, IfSome};
ghost use Rattle.click_scopes.specs.Scopes.{body_formals};
ghost use Rattle.click_scopes.specs.Analysis.{AreScopes};
ghost use Rattle.click_expand.specs.Parameters.{scope_value, value_in};
ghost use Rattle.click_expand.specs.Instances.{PrimitiveElement as Flattened};
ghost use Rattle.click_expand.specs.kept.KnownInstances.{KnownInstance, AreInstances};
ghost use Rattle.click_expand.specs.kept.ParameterValues.{IsValue};
ghost use Rattle.click_expand.specs.declared.instances.tree.Place.{Place};

use crate::instances::tree::Instance;
use crate::texts::parameters::formal_place;
use click_scopes::Scopes;
use click_text::syntax::{Body, Config, Span};

/// A text that is to be read in an instance, with the values that its parameters have there.
#[derive(Clone, Copy)]
pub struct UnreadText<'a> {
    pub within: usize,
    pub rest: &'a [u8],
}

/// An argument with which a body is used: the instance, and the index among its arguments.
#[derive(Clone, Copy, Debug, PartialEq, Eq, Hash)]
pub struct Argument {
    pub within: usize,
    pub place: usize,
}

/// The value of a parameter: an argument, and its unread text.
#[derive(Clone, Copy)]
pub struct ParameterValue<'a> {
    pub argument: Argument,
    pub reading: UnreadText<'a>,
}

/// Returns the parameters of a scope; the whole text has none.
fn formals_at(bodies: &[Body], scope: usize) -> &[Span]
    ensures { result.now ≡ body_formals (slice_get bodies.now scope) }
{
    match bodies.get(scope) {
        Some(body) => body.formals.as_slice(),
        None => &[],
    }
}

/// Returns the value of a parameter of the scope of an instance.
fn own_value<'a>(
    config: &'a Config,
    scopes: &Scopes,
    instances: &[Instance],
    at: usize,
    name: &[u8],
) -> Option<ParameterValue<'a>>
    requires scopes { AreScopes config.now scopes.now }
    ensures value { (places : List Place) (known : List KnownInstance) (primitive_elements : List Flattened) (x : KnownInstance) → AreInstances config.now instances.now places known primitive_elements → slice_get known at ≡ Some x →
        IsValue config.now known result (scope_value config.now x.bindings x.scope name.now) }
    ensures before { IfSome result (λ v. v.reading.within < at) }
    ensures short { IfSome result (λ v. length v.reading.rest.now ≤ length config.now.text) }
{
    let text = config.text.as_slice();
    if at >= instances.len() {
        return None;
    }
    let one = &instances[at];
    let Some(outer) = one.enclosing else {
        return None;
    };
    if outer.within >= at {
        return None;
    }
    let scope = instances[outer.within].scope;
    let formals = formals_at(config.bodies.as_slice(), one.scope);
    let place = formal_place(text, formals, name)?;
    let span = scopes.arguments_at(scope, outer.element).get(place)?;
    let string = scopes.string_at(text, scope, outer.element);
    Some(ParameterValue {
        argument: Argument { within: at, place },
        reading: UnreadText {
            within: outer.within,
            rest: span.of(string),
        },
    })
}

/// Returns the value of a parameter in an instance.
///
/// It is the argument of the nearest body around that has the parameter.
pub fn value_at<'a>(
    config: &'a Config,
    scopes: &Scopes,
    instances: &[Instance],
    from: usize,
    name: &[u8],
) -> Option<ParameterValue<'a>>
    requires scopes { AreScopes config.now scopes.now }
    ensures value { (places : List Place) (known : List KnownInstance) (primitive_elements : List Flattened) (x : KnownInstance) → AreInstances config.now instances.now places known primitive_elements → slice_get known from ≡ Some x →
        IsValue config.now known result (value_in config.now x.bindings (x.scope ∷ x.enclosing) name.now) }
    ensures before { IfSome result (λ v. v.reading.within < from) }
    ensures short { IfSome result (λ v. length v.reading.rest.now ≤ length config.now.text) }
{
    let mut at = from;
    'lexical_parents: loop {
        if let Some(found) = own_value(config, scopes, instances, at, name) {
            return Some(found);
        }
        if at >= instances.len() {
            return None;
        }
        let Some(lexical_parent) = instances[at].lexical_parent else {
            return None;
        };
        if lexical_parent >= at {
            return None;
        }
        at = lexical_parent;
    }
}
