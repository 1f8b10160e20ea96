//! A flat configuration as text.

ghost use Rattle.std.specs.Prelude.{◌≡◌, ◌++◌, IfOk, OnOk};
ghost use Rattle.click_expand.specs.FlatText.{flat_text_of, uses_gateway, requirement, element_line, connection_line, string_of, out_port, in_port, name_at_place};
ghost use Rattle.click_base.specs.Classes.{is_gateway};

use crate::flat::{Connection, Flat, FlatElement};
use click_base::Class;
use itoa::Buffer;
use std::alloc::{AllocError, Global};

/// Returns the text of a flat configuration, or fails with out of memory.
///
/// It has a line `name :: Class(text);` for each element, and then a line `a [p] -> [q] b;` for
/// each connection. The line `require(gateway);` comes before them if an element is of a class of
/// the gateway package, and is left out otherwise.
pub fn flat_text(alloc: Global, flat: &Flat) -> Result<Vec<u8>, AllocError>
    ensures { IfOk result (λ text. text.items ≡ flat_text_of flat.now) }
{
    let elements = flat.elements.as_slice();
    let mut text = Vec::new(alloc);
    push_requirement(&mut text, elements)?;
    for element in elements {
        push_element(&mut text, element)?;
    }
    for connection in flat.connections.as_slice() {
        push_connection(&mut text, elements, connection)?;
    }
    Ok(text)
}

/// Returns whether one of the elements is of a class of the gateway package.
pub fn uses_gateway(elements: &[FlatElement]) -> bool
    ensures { result ≡ uses_gateway elements.now }
{
    elements.iter().any(|element| is_gateway(element.class))
}

/// Returns whether a class is of the gateway package.
fn is_gateway(class: Class) -> bool
    ensures { result ≡ is_gateway class }
{
    match class {
        Class::ARPResponder
        | Class::ARPQuerier
        | Class::ICMPError
        | Class::ICMPPingResponder
        | Class::HostEtherFilter
        | Class::EtherMirror
        | Class::IPMirror
        | Class::SetIPChecksum
        | Class::StripIPHeader
        | Class::UDPIPEncap
        | Class::IPFilter
        | Class::IPClassifier => true,
        _ => false,
    }
}

/// Appends the line that requires the gateway package, if an element is of one of its classes.
fn push_requirement(text: &mut Vec<u8>, elements: &[FlatElement]) -> Result<(), AllocError>
    ensures { OnOk result (text.new.items ≡ text.old.items ++ requirement elements.now) }
{
    if uses_gateway(elements) {
        text.extend_from_slice(b"require(gateway);\n")?;
    }
    Ok(())
}

/// Appends the line of an element.
fn push_element(text: &mut Vec<u8>, element: &FlatElement) -> Result<(), AllocError>
    ensures { OnOk result (text.new.items ≡ text.old.items ++ element_line element.now) }
{
    text.extend_from_slice(element.name.as_slice())?;
    text.extend_from_slice(b" :: ")?;
    text.extend_from_slice(element.class.name())?;
    push_string(text, element.text.as_slice())?;
    text.extend_from_slice(b";\n")?;
    Ok(())
}

/// Appends a configuration string in parentheses, unless it is empty.
fn push_string(text: &mut Vec<u8>, string: &[u8]) -> Result<(), AllocError>
    ensures { OnOk result (text.new.items ≡ text.old.items ++ string_of string.now) }
{
    if !string.is_empty() {
        text.extend_from_slice(b"(")?;
        text.extend_from_slice(string)?;
        text.extend_from_slice(b")")?;
    }
    Ok(())
}

/// Appends the line of a connection.
fn push_connection(
    text: &mut Vec<u8>,
    elements: &[FlatElement],
    connection: &Connection,
) -> Result<(), AllocError>
    ensures { OnOk result (text.new.items ≡ text.old.items ++ connection_line elements.now connection.now) }
{
    push_name(text, elements, connection.from)?;
    push_out_port(text, connection.out_port)?;
    text.extend_from_slice(b" -> ")?;
    push_in_port(text, connection.in_port)?;
    push_name(text, elements, connection.to)?;
    text.extend_from_slice(b";\n")?;
    Ok(())
}

/// Appends the name of the element at an index, if there is one.
pub fn push_name(
    text: &mut Vec<u8>,
    elements: &[FlatElement],
    place: usize,
) -> Result<(), AllocError>
    ensures { OnOk result (text.new.items ≡ text.old.items ++ name_at_place elements.now place) }
{
    if let Some(element) = elements.get(place) {
        text.extend_from_slice(element.name.as_slice())?;
    }
    Ok(())
}

/// Appends an output in brackets, unless it is output 0.
fn push_out_port(text: &mut Vec<u8>, port: u8) -> Result<(), AllocError>
    ensures { OnOk result (text.new.items ≡ text.old.items ++ out_port port) }
{
    if port != 0 {
        let mut digits = Buffer::new();
        text.extend_from_slice(b" [")?;
        text.extend_from_slice(digits.format(port).as_bytes())?;
        text.extend_from_slice(b"]")?;
    }
    Ok(())
}

/// Appends an input in brackets, unless it is input 0.
fn push_in_port(text: &mut Vec<u8>, port: u8) -> Result<(), AllocError>
    ensures { OnOk result (text.new.items ≡ text.old.items ++ in_port port) }
{
    if port != 0 {
        let mut digits = Buffer::new();
        text.extend_from_slice(b"[")?;
        text.extend_from_slice(digits.format(port).as_bytes())?;
        text.extend_from_slice(b"] ")?;
    }
    Ok(())
}
