//! The sizes of boxes and the places of ports, in pixels.

ghost use Rattle.std.specs.Prelude.{◌≡◌, ◌≤◌, length};
ghost use Rattle.click_draw.specs.Measures as spec;

use click_base::Class;

/// The height of each box.
pub const BOX_HEIGHT: u64 = 46;

/// The free distance at each side of a box, and around the whole picture.
pub const BOX_GAP_PX: u64 = 20;

/// The distance between two ports of a side.
const PORT_SPACING_PX: u64 = 20;

/// The width of a letter of a name.
const LETTER_WIDTH_PX: u64 = 8;

/// The maximum number of letters that widen a box. A longer text extends beyond it.
const MAX_BOX_LETTERS: usize = 4096;

/// Returns the width of a text.
fn text_width(text: &[u8]) -> u64
    ensures { result ≡ spec.text_width text.now }
{
    LETTER_WIDTH_PX * text.len().min(MAX_BOX_LETTERS) as u64
}

/// Returns the width of a row of ports.
fn ports_width(ports: u16) -> u64
    ensures { result ≡ spec.ports_width ports }
{
    PORT_SPACING_PX * u64::from(ports)
}

/// Returns the width of an element's box, which its name, its class and its ports determine.
pub fn box_width(name: &[u8], class: Class, inputs: u16, outputs: u16) -> u64
    ensures { result ≡ spec.box_width name.now class inputs outputs }
{
    let texts = text_width(name).max(text_width(class.name()));
    let ports = ports_width(inputs).max(ports_width(outputs));
    (texts + 20).max(ports)
}

/// Returns the distance of a port from the left side of its box.
///
/// The box has this width, and this number of ports on the side.
pub fn port_offset(width: u64, ports: u16, port: u16) -> u64
    ensures { result ≡ spec.port_offset width ports port }
{
    width.saturating_sub(ports_width(ports)) / 2 + PORT_SPACING_PX * u64::from(port) + 10
}
