//! Bytes as JSON values, and JSON values as text.

ghost use Rattle.std.specs.Prelude.{◌≡◌, ◌∷◌, [], ◌++◌, false, IfOk, OnOk};
ghost use Rattle.serde_json.specs.View.{view};
ghost use Rattle.serde_json.specs.Written.{compact_text, has_float};
ghost use Rattle.click_page.specs.Form.{bytes_data};

use serde_json::Value;
use std::alloc::{AllocError, Global};

/// Converts bytes to a JSON string. Each byte becomes the character with its number.
pub(crate) fn text_value(alloc: Global, bytes: &[u8]) -> Result<Value, AllocError>
    ensures { IfOk result (λ value. view value ≡ bytes_data bytes.now) }
{
    let mut text = String::with_capacity(alloc, bytes.len())?;
    for byte in bytes {
        text.push(char::from(*byte))?;
    }
    Ok(Value::from(text))
}

/// Returns the text of a JSON value, which has no floating-point number.
pub(crate) fn json_text(alloc: Global, value: &Value) -> Result<Vec<u8>, AllocError>
    requires { has_float (view value.now) ≡ false }
    ensures { IfOk result (λ text. text.items ≡ compact_text (view value.now)) }
{
    Ok(value.to_string(alloc)?.into_bytes())
}

/// Appends a value.
pub(crate) fn push(values: &mut Vec<Value>, value: Value) -> Result<(), AllocError>
    ensures { OnOk result (values.new.items ≡ values.old.items ++ value ∷ []) }
{
    values.push(value)?;
    Ok(())
}
