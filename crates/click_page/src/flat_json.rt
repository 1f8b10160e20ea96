//! The flat form of a configuration, as JSON.

ghost use Rattle.std.specs.Prelude.{◌≡◌, ◌≤◌, map, length, IfOk, IfErr};
ghost use Rattle.serde_json.specs.View.{view};
ghost use Rattle.click_handlers.specs.Names.{reads_of, writes_of};
ghost use Rattle.click_router.specs.Opened.{IsFirstFault, IsMemoryOr};
ghost use Rattle.click_draw.specs.Drawn.{IsFormNet};
ghost use Rattle.click_page.specs.Form.{IsFlatText, IsFormText, bytes_data, connection_data, element_data, elements_data, flat_data, list_data, port_data};

use crate::values::{json_text, push, text_value};
use click_base::Class;
use click_draw::{Compounds, Drawing, Figure, Mark, layout, resolved};
use click_expand::{Connection, Flat, FlatElement};
use click_handlers::{reads_of, writes_of};
use click_ports::Net;
use click_router::{ConfigFault, prepare};
use serde_json::{Value, json};
use std::alloc::{AllocError, Global};

/// Returns the JSON of a port.
fn port_value(alloc: Global, mark: &Mark) -> Result<Value, AllocError>
    ensures { IfOk result (λ value. view value ≡ port_data mark.now) }
{
    json!(in alloc; {"agnostic": mark.agnostic, "pull": mark.pull})
}

/// Returns the JSON of the inputs or outputs of an element.
fn ports_value(alloc: Global, marks: &[Mark]) -> Result<Value, AllocError>
    ensures { IfOk result (λ value. view value ≡ list_data (map port_data marks.now)) }
{
    let mut values = Vec::new(alloc);
    for mark in marks {
        push(&mut values, port_value(alloc, mark)?)?;
    }
    Ok(Value::from(values))
}

/// Returns the JSON of the names of handlers.
fn names_value(alloc: Global, names: &[&[u8]]) -> Result<Value, AllocError>
    ensures { IfOk result (λ value. view value ≡ list_data (map bytes_data (map (λ n. n.now) names.now))) }
{
    let mut values = Vec::new(alloc);
    for name in names {
        push(&mut values, text_value(alloc, name)?)?;
    }
    Ok(Value::from(values))
}

/// Returns the JSON of the handlers of a class that can be read.
fn reads_value(alloc: Global, class: Class) -> Result<Value, AllocError>
    ensures { IfOk result (λ value. view value ≡ list_data (map bytes_data (reads_of class))) }
{
    names_value(alloc, reads_of(class))
}

/// Returns the JSON of the handlers of a class that can be written.
fn writes_value(alloc: Global, class: Class) -> Result<Value, AllocError>
    ensures { IfOk result (λ value. view value ≡ list_data (map bytes_data (writes_of class))) }
{
    names_value(alloc, writes_of(class))
}

/// Returns the JSON of an element.
fn element_value(alloc: Global, element: &FlatElement, figure: &Figure) -> Result<Value, AllocError>
    ensures { IfOk result (λ value. view value ≡ element_data element.now figure.now) }
{
    let look = &figure.look;
    json!(in alloc; {
        "class": text_value(alloc, look.class.name())?,
        "inputs": ports_value(alloc, look.inputs.as_slice())?,
        "name": text_value(alloc, element.name.as_slice())?,
        "outputs": ports_value(alloc, look.outputs.as_slice())?,
        "reads": reads_value(alloc, look.class)?,
        "text": text_value(alloc, element.text.as_slice())?,
        "writes": writes_value(alloc, look.class)?,
    })
}

/// Returns the JSON of the elements, each with its figure.
fn elements_value(
    alloc: Global,
    elements: &[FlatElement],
    figures: &[Figure],
) -> Result<Value, AllocError>
    requires all { length figures.now ≡ length elements.now }
    ensures { IfOk result (λ value. view value ≡ list_data (elements_data elements.now figures.now)) }
{
    let mut values = Vec::new(alloc);
    for (at, element) in elements.iter().enumerate() {
        push(&mut values, element_value(alloc, element, &figures[at])?)?;
    }
    Ok(Value::from(values))
}

/// Returns the JSON of a connection.
fn connection_value(alloc: Global, connection: &Connection) -> Result<Value, AllocError>
    ensures { IfOk result (λ value. view value ≡ connection_data connection.now) }
{
    json!(in alloc; [connection.from, connection.out_port, connection.to, connection.in_port])
}

/// Returns the JSON of the connections.
fn connections_value(alloc: Global, connections: &[Connection]) -> Result<Value, AllocError>
    ensures { IfOk result (λ value. view value ≡ list_data (map connection_data connections.now)) }
{
    let mut values = Vec::new(alloc);
    for connection in connections {
        push(&mut values, connection_value(alloc, connection)?)?;
    }
    Ok(Value::from(values))
}

/// Returns the JSON of a flat form. Its ports are push, pull or agnostic as the drawing marks them.
fn flat_value(alloc: Global, flat: &Flat, drawing: &Drawing) -> Result<Value, AllocError>
    requires all { length drawing.now.figures ≡ length flat.now.elements }
    ensures { IfOk result (λ value. view value ≡ flat_data flat.now drawing.now) }
{
    json!(in alloc; {
        "connections": connections_value(alloc, flat.connections.as_slice())?,
        "elements": elements_value(alloc, flat.elements.as_slice(), drawing.figures.as_slice())?,
    })
}

/// Returns the text of the JSON of a flat form with this net.
fn form_text(alloc: Global, flat: &Flat, net: &Net) -> Result<Vec<u8>, AllocError>
    requires net { IsFormNet flat.now net.now }
    requires few { length net.now.shapes ≤ 4096 }
    ensures { IfOk result (λ made. IsFormText flat.now net.now made.items) }
{
    // The marks of the ports are needed, and no frames.
    let drawing = layout(alloc, net, &Compounds::none(alloc))?;
    json_text(alloc, &flat_value(alloc, flat, &drawing)?)
}

/// Returns the text of the JSON of the configuration's flat form. Fails with the configuration's
/// first fault, or with out of memory.
pub fn flat_text(alloc: Global, text: &[u8]) -> Result<Vec<u8>, ConfigFault>
    ensures text { IfOk result (λ made. IsFlatText text.now made.items) }
    ensures fault { IfErr result (λ fault. IsMemoryOr fault (IsFirstFault text.now fault)) }
{
    let prepared = prepare(alloc, text)?;
    let net = resolved(alloc, prepared.flat())?;
    Ok(form_text(alloc, prepared.flat(), &net)?)
}
