//! The ports of a graph that reach a port with a certain code.

ghost use Rattle.std.specs.Prelude.{◌≡◌, ◌↔◌, ◌⊎◌, ℕ, ◌<◌, [], length, Contains, IfOk, OnOk, IsTrue, slice_index_or, true, false};
ghost use Rattle.click_classes.specs.declared.ports.Code.TheVariants.{Agnostic};
ghost use Rattle.click_ports.specs.kept.Search.{code_of, IsGraph, Spreads, RowMarked, AreMarked};

use crate::row::Row;
use click_classes::Code;
use std::alloc::{AllocError, Global};

/// Returns the numbers of the ports with this code.
fn numbers_of(alloc: Global, codes: &[Code], code: Code) -> Result<Vec<usize>, AllocError>
    ensures sound { IfOk result (λ found. (x : ℕ) → Contains found.items x → (x < length codes.now) × (code_of codes.now x ≡ code)) }
    ensures complete { IfOk result (λ found. (x : ℕ) → x < length codes.now → code_of codes.now x ≡ code → Contains found.items x) }
{
    let mut found = Vec::new(alloc);
    for (port, its_code) in codes.iter().enumerate() {
        if *its_code == code {
            found.push(port)?;
        }
    }
    Ok(found)
}

/// Returns whether marks spread from a port with the code `its_code`.
fn is_open(its_code: Code, code: Code) -> bool
    ensures { IsTrue result ↔ ((its_code ≡ code) ⊎ (its_code ≡ Agnostic)) }
{
    its_code == code || its_code == Code::Agnostic
}

/// Marks the ports of a row.
///
/// Newly marked ports from which the marks spread are appended to `work`.
fn mark_row(
    row: &[usize],
    codes: &[Code],
    code: Code,
    marks: &mut Vec<bool>,
    work: &mut Vec<usize>,
) -> Result<(), AllocError>
    requires sized { length marks.old.items ≡ length codes.now }
    requires within { (x : ℕ) → Contains row.now x → x < length codes.now }
    ensures { OnOk result (RowMarked codes.now code row.now marks.old.items work.old.items marks.new.items work.new.items) }
{
    for port in row {
        if !marks[*port] {
            marks[*port] = true;
            if is_open(codes[*port], code) {
                work.push(*port)?;
            }
        }
    }
    Ok(())
}

/// Returns for each port whether the marks that begin at the ports with this code spread to it.
pub fn ports_reaching(
    alloc: Global,
    codes: &[Code],
    outside: &[Row],
    inside: &[Row],
    code: Code,
) -> Result<Vec<bool>, AllocError>
    requires { IsGraph (length codes.now) outside.now inside.now }
    ensures { IfOk result (λ marks. AreMarked codes.now outside.now inside.now code marks.items) }
{
    let mut marks = vec![in alloc; false; codes.len()]?;
    let mut work = Vec::new(alloc);
    let starts = numbers_of(alloc, codes, code)?;
    mark_row(starts.as_slice(), codes, code, &mut marks, &mut work)?;
    while let Some(port) = work.pop() {
        mark_row(outside[port].as_slice(), codes, code, &mut marks, &mut work)?;
        mark_row(inside[port].as_slice(), codes, code, &mut marks, &mut work)?;
    }
    Ok(marks)
}
