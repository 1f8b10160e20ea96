//! The analysis of a configuration: its scopes, or the first misuse.

ghost use Rattle.std.specs.Prelude.{IfOk, IfErr};
ghost use Rattle.click_text.specs.Spelling.{Spells};
ghost use Rattle.click_scopes.specs.Faults.{IsFaultless};
ghost use Rattle.click_scopes.specs.kept.Nesting.{IsNested};
ghost use Rattle.click_scopes.specs.kept.Scoped.{AreSynonyms};
ghost use Rattle.click_scopes.specs.kept.FirstFault.{AreShort};
ghost use Rattle.click_scopes.specs.Analysis.{AreScopes, IsFirst, IsScopeFault};

use crate::classes::ClassEntry;
use crate::compound_faults::first_compound_fault;
use crate::first_fault::{TokenFault, first_of};
use crate::name_faults::first_name_fault;
use crate::scopes::{Scopes, all_scopes};
use crate::written_scopes::scopes_of;
use click_text::syntax::Config;
use std::alloc::{AllocError, Global};

/// The reason for which a configuration has no scopes.
#[derive(Clone, Copy, Debug, PartialEq, Eq)]
pub enum ScopeFault {
    NoMemory,
    /// The first misuse of a name, class, parameter or port.
    Wrong(TokenFault),
}

impl From<AllocError> for ScopeFault {
    ghost use Rattle.std.specs.Prelude.{◌≡◌};
    ghost use Rattle.click_scopes.specs.declared.analysis.ScopeFault.TheVariants as why;

    ghost from_gives = { λ _ r. r ≡ why.NoMemory };

    fn from(_error: AllocError) -> ScopeFault {
        ScopeFault::NoMemory
    }
}

/// Returns the first misuse of a name, class, parameter or port, if there is one.
fn first_wrong(
    alloc: Global,
    config: &Config,
    class_table: &[ClassEntry],
    scopes: &Scopes,
) -> Result<Option<TokenFault>, AllocError>
    requires nested { IsNested config.now }
    requires synonyms { AreSynonyms config.now class_table.now }
    requires scopes { AreScopes config.now scopes.now }
    ensures { IfOk result (IsFirst config.now) }
{
    let name_fault = first_name_fault(alloc, config, class_table, scopes)?;
    let compound_fault = first_compound_fault(alloc, config, scopes)?;
    Ok(first_of(name_fault, compound_fault))
}

/// Returns the length of the text.
///
/// proof: the contract states that every body begins at an offset below 2^64 - 1.
fn text_len(config: &Config) -> usize
    requires { Spells config.now.text config.now }
    ensures { AreShort config.now.bodies }
{
    config.text.len()
}

/// Returns the scopes of a configuration that a text spells, or its first misuse.
///
/// A scope has its elements, with their classes and arguments, and its connections as written
/// (Click manual, "Compound elements"). The first misuse of a name, class, parameter or port is the
/// one that comes first in the text. May fail with `NoMemory`.
pub fn analyze(alloc: Global, config: &Config) -> Result<Scopes, ScopeFault>
    requires { Spells config.now.text config.now }
    ensures scopes { IfOk result (AreScopes config.now) }
    ensures sound { IfOk result (λ _. IsFaultless config.now) }
    ensures err { IfErr result (IsScopeFault config.now) }
{
    let _length = text_len(config);
    let written = scopes_of(alloc, config)?;
    let scopes = all_scopes(alloc, config, &written)?;
    match first_wrong(alloc, config, written.class_table.as_slice(), &scopes)? {
        Some(wrong) => Err(ScopeFault::Wrong(wrong)),
        None => Ok(scopes),
    }
}
