//! Names of two parts with a dot between them, such as `element.handler` (Click manual,
//! "Handlers").

ghost use Rattle.std.specs.Prelude.{◌≡◌, is_some, IfSome};
ghost use Rattle.std.specs.List.{list_any, before_last, after_last};
ghost use Rattle.click_base.specs.Dotted.{is_dot};

use memchr::memrchr;

/// Returns the parts of a name before and after its last dot, or `None` if it has no dot.
pub fn split(name: &[u8]) -> Option<(&[u8], &[u8])>
    ensures dot { is_some result ≡ list_any is_dot name.now }
    ensures front { IfSome result (λ parts. parts.0.now ≡ before_last is_dot name.now) }
    ensures back { IfSome result (λ parts. parts.1.now ≡ after_last is_dot name.now) }
{
    let dot = memrchr(b'.', name)?;
    Some((&name[..dot], &name[dot + 1..]))
}
