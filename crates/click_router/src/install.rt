//! The part of a configuration that is published to views: enough to answer checks.

ghost use Rattle.std.specs.Prelude.{◌≡◌, map, position, IfOk};
ghost use Rattle.std.specs.Str.{bytes_eq};
ghost use Rattle.click_classes.specs.State.{class};
ghost use Rattle.click_router.specs.One.{class_named};

use crate::check::{Access, Check, check_element, check_own};
use crate::opening::Prepared;
use crate::running::RunningConfig;
use click_base::sequence::Sequence;
use click_base::{Class, split};
use click_engine::Plant;
use click_expand::FlatElement;
use std::alloc::{AllocError, Global};
use std::marker::Model;

/// The flat names of the elements and their classes, in flat order.
#[derive(Drop)]
struct ElementIndex {
    names: Vec<Sequence<u8>>,
    classes: Vec<Class>,
}

impl Model for ElementIndex {
    ghost use Rattle.click_router.specs.One.{Listing};

    ghost Value = { Listing };

    ghost view = { λ l. record { names = l.names.items; classes = l.classes.items } };
}

/// Copies the names of the elements.
fn names_of(alloc: Global, elements: &[FlatElement]) -> Result<Vec<Sequence<u8>>, AllocError>
    ensures { IfOk result (λ names. names.items ≡ map (λ e. e.name) elements.now) }
{
    let mut names = Vec::with_capacity(alloc, elements.len())?;
    for element in elements {
        names.push(Sequence::copy_of(alloc, element.name.as_slice())?)?;
    }
    Ok(names)
}

/// Collects the classes of the elements.
fn classes_of(alloc: Global, plant: &Plant) -> Result<Vec<Class>, AllocError>
    ensures { IfOk result (λ classes. classes.items ≡ map (λ e. class e.state) plant.now.elements) }
{
    let mut classes = Vec::with_capacity(alloc, plant.len())?;
    for at in 0..plant.len() {
        classes.push(plant.element(at).state.class())?;
    }
    Ok(classes)
}

/// Returns the index of a name.
fn place_of(names: &[Sequence<u8>], name: &[u8]) -> Option<usize>
    ensures { result ≡ position (bytes_eq name.now) names.now }
{
    names.iter().position(|own| name == own.as_slice())
}

/// Returns the class at the index of a name.
fn class_at(names: &[Sequence<u8>], classes: &[Class], name: &[u8]) -> Option<Class>
    ensures { result ≡ class_named (record { names = names.now; classes = classes.now }) name.now }
{
    let Some(at) = place_of(names, name) else {
        return None;
    };
    match classes.get(at) {
        Some(class) => Some(*class),
        None => None,
    }
}

impl ElementIndex {
    ghost use Rattle.std.specs.Prelude.{◌≡◌, map, IfOk};
    ghost use Rattle.click_router.specs.One as spec;

    /// Collects the names and classes of a running configuration.
    fn of(alloc: Global, running: &RunningConfig) -> Result<ElementIndex, AllocError>
        ensures { IfOk result (λ l. l ≡ spec.listing_of running.now) }
    {
        Ok(ElementIndex {
            names: names_of(alloc, running.flat.elements.as_slice())?,
            classes: classes_of(alloc, &running.plant)?,
        })
    }

    /// Returns the class of the element with that name.
    fn class_named(&self, name: &[u8]) -> Option<Class>
        ensures { result ≡ spec.class_named self.now name.now }
    {
        class_at(self.names.as_slice(), self.classes.as_slice(), name)
    }

    /// Checks whether a handler can be read or written.
    fn check(&self, way: Access, name: &[u8]) -> Check
        ensures { result ≡ spec.check self.now way name.now }
    {
        match split(name) {
            Some((element, handler)) => check_element(self.class_named(element), way, handler),
            None => check_own(way, name),
        }
    }

    /// Copies the names.
    fn names(&self, alloc: Global) -> Result<Vec<Vec<u8>>, AllocError>
        ensures { IfOk result (λ names. map (λ n. n.items) names.items ≡ self.now.names) }
    {
        let mut names = Vec::with_capacity(alloc, self.names.len())?;
        for name in &self.names {
            names.push(Vec::from_slice(alloc, name.as_slice())?)?;
        }
        Ok(names)
    }
}

/// The names and the classes of a prepared configuration, which is all that checks need.
///
/// To a contract it is the configuration's text. Its answers hold of the router that the text
/// opens.
#[derive(Drop)]
pub struct Install {
    text: Sequence<u8>,
    listed: ElementIndex,
}

impl Model for Install {
    ghost use Rattle.std.specs.Prelude.{ℕ, List};
    ghost use Rattle.click_router.specs.One.{IsListing};

    ghost Value = { List ℕ };

    ghost view = { λ i. i.text };

    ghost invariant = { λ i. IsListing i.text i.listed };
}

impl Install {
    ghost use Rattle.std.specs.Prelude.{◌≡◌, map, IfOk};
    ghost use Rattle.click_router.specs.One.{Listing, IsListing, check};
    ghost use Rattle.click_router.specs.Opened.{IsOpened};

    /// Copies the names and classes of a prepared configuration.
    pub fn of_prepared(
        alloc: Global,
        text: &[u8],
        prepared: &Prepared,
    ) -> Result<Install, AllocError>
        requires { IsOpened text.now prepared.now }
        ensures { IfOk result (λ i. i ≡ text.now) }
    {
        Ok(Install {
            text: Sequence::copy_of(alloc, text)?,
            listed: ElementIndex::of(alloc, &prepared.running)?,
        })
    }

    /// Checks whether a handler can be read or written in the configuration. Allocates nothing.
    pub fn check(&self, way: Access, name: &[u8]) -> Check
        ensures { (l : Listing) × IsListing self.now l × (result ≡ check l way name.now) }
    {
        self.listed.check(way, name)
    }

    /// Copies the names of the elements, in flat order.
    pub fn names(&self, alloc: Global) -> Result<Vec<Vec<u8>>, AllocError>
        ensures { IfOk result (λ names. (l : Listing) × IsListing self.now l × (map (λ n. n.items) names.items ≡ l.names)) }
    {
        self.listed.names(alloc)
    }
}
