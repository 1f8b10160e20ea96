//! Drawing the picture of a configuration.

ghost use Rattle.click_prog.specs.Drawn.{DrawsTo};

use crate::status::MESSAGE_PREFIX;
use click_cli::{Status, refuse_configuration};
use click_draw::picture_of;
use std::alloc::Global;
use std::io::Write;

/// Writes the picture of a configuration to `to`, as SVG.
///
/// If there is no picture, writes the fault to `errors`, but nothing for out of memory. If the
/// picture cannot be written, writes a line to `errors`.
pub fn draw<W: Write, E: Write>(alloc: Global, to: &mut W, errors: &mut E, text: &[u8]) -> Status
    ensures { DrawsTo text.now (W.contents to.old) (W.contents to.new) result }
{
    match picture_of(alloc, text) {
        Ok(picture) => match to.write_all(picture.as_slice()) {
            Ok(()) => Status::Good,
            Err(_) => {
                // A failed write does not change the status.
                let _ = errors.write_all(b"click_prog: a write failed\n");
                Status::DeviceFailed
            }
        },
        Err(fault) => refuse_configuration(alloc, errors, MESSAGE_PREFIX, &fault),
    }
}
