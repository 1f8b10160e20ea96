//! The compounds of a configuration, and the elements that are in them.

use click_base::Names;
use click_scopes::{ScopeElement, ScopeFault, Scopes, analyze};
use click_text::parse;
use click_text::syntax::FaultKind;
use std::alloc::{AllocError, Global};

/// The maximum number of compounds that are found. A configuration with a flat form has fewer.
const MAX_COMPOUNDS: usize = 16_384;

/// A compound of a configuration, or the whole text.
#[derive(Drop)]
struct Compound {
    /// The index of its scope.
    scope: usize,
    /// The front of the flat names of its elements: its own flat name and a slash. Empty for the
    /// whole text.
    front: Vec<u8>,
    /// The lengths of the flat names of the compounds around its elements, from the outermost.
    name_lens: Vec<usize>,
}

/// The compounds of a configuration, and the flat names of the elements in them.
#[derive(Drop)]
pub struct Compounds {
    /// Each compound comes after the one that it is in. The first is the whole text.
    compounds: Vec<Compound>,
    /// The flat names of the elements that are in compounds, and for each the index of its compound.
    names: Names,
    places: Vec<usize>,
}

impl Compounds {
    /// Returns no compounds.
    pub fn none(alloc: Global) -> Compounds {
        Compounds {
            compounds: Vec::new(alloc),
            names: Names::new(alloc),
            places: Vec::new(alloc),
        }
    }

    /// Returns the compounds of the configuration that the text spells. There are none if the text
    /// has a fault.
    pub fn of(alloc: Global, text: &[u8]) -> Result<Compounds, AllocError> {
        let config = match parse(alloc, text) {
            Ok(config) => config,
            Err(fault) if fault.kind == FaultKind::NoMemory => return Err(AllocError),
            Err(_) => return Ok(Compounds::none(alloc)),
        };
        match analyze(alloc, &config) {
            Ok(scopes) => in_scopes(alloc, &scopes),
            Err(ScopeFault::NoMemory) => Err(AllocError),
            Err(ScopeFault::Wrong(_)) => Ok(Compounds::none(alloc)),
        }
    }

    /// Returns the lengths of the flat names of the compounds that an element is in, from the
    /// outermost. The name of each is the front of the element's flat name `name`.
    pub fn around(&self, name: &[u8]) -> &[usize] {
        let place = self.names.place(name).and_then(|at| self.places.get(at));
        match place.and_then(|place| self.compounds.get(*place)) {
            Some(compound) => compound.name_lens.as_slice(),
            None => &[],
        }
    }
}

impl Compound {
    /// Returns the whole text, of which the scope has this index.
    fn whole(alloc: Global, scope: usize) -> Compound {
        Compound {
            scope,
            front: Vec::new(alloc),
            name_lens: Vec::new(alloc),
        }
    }

    /// Returns a copy.
    fn copy(&self, alloc: Global) -> Result<Compound, AllocError> {
        Ok(Compound {
            scope: self.scope,
            front: Vec::from_slice(alloc, self.front.as_slice())?,
            name_lens: Vec::from_slice(alloc, self.name_lens.as_slice())?,
        })
    }

    /// Returns the flat name of an element of this compound.
    fn name_of(&self, alloc: Global, element: &ScopeElement) -> Result<Vec<u8>, AllocError> {
        let mut name = Vec::from_slice(alloc, self.front.as_slice())?;
        name.extend_from_slice(element.name.as_slice())?;
        Ok(name)
    }

    /// Returns the compound of this one that has this flat name.
    fn inner(&self, alloc: Global, scope: usize, name: Vec<u8>) -> Result<Compound, AllocError> {
        let mut name_lens = Vec::from_slice(alloc, self.name_lens.as_slice())?;
        name_lens.push(name.len())?;
        let mut front = name;
        front.push(b'/')?;
        Ok(Compound {
            scope,
            front,
            name_lens,
        })
    }
}

impl Compounds {
    /// Adds an element of a compound, which is at the index `place`. An element that is a compound
    /// is added to the compounds, and another one to the names, if it is in a compound at all.
    fn add(
        &mut self,
        alloc: Global,
        place: usize,
        compound: &Compound,
        element: &ScopeElement,
    ) -> Result<(), AllocError> {
        let name = compound.name_of(alloc, element)?;
        if let Some(scope) = element.body() {
            self.compounds.push(compound.inner(alloc, scope, name)?)?;
        } else if !compound.name_lens.is_empty() && !self.names.add(alloc, name.as_slice())? {
            self.places.push(place)?;
        }
        Ok(())
    }

    /// Adds the elements of the compound at the index `place`. Returns whether there is one.
    fn add_elements_of(
        &mut self,
        alloc: Global,
        scopes: &Scopes,
        place: usize,
    ) -> Result<bool, AllocError> {
        let Some(compound) = self.compounds.get(place) else {
            return Ok(false);
        };
        let compound = compound.copy(alloc)?;
        for element in scopes.elements_at(compound.scope) {
            self.add(alloc, place, &compound, element)?;
        }
        Ok(true)
    }
}

/// Returns the compounds of the scopes, of which the last is the whole text.
fn in_scopes(alloc: Global, scopes: &Scopes) -> Result<Compounds, AllocError> {
    let mut found = Compounds::none(alloc);
    let whole = Compound::whole(alloc, scopes.scopes.len().saturating_sub(1));
    found.compounds.push(whole)?;
    for place in 0..MAX_COMPOUNDS {
        if !found.add_elements_of(alloc, scopes, place)? {
            break;
        }
    }
    Ok(found)
}
