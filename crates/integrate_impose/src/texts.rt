//! Comparing names.

ghost use Rattle.std.specs.Prelude.{◌≡◌};
ghost use Rattle.std.specs.Str.{bytes_eq};

use smv_ast::Text;

/// Whether a name is this text.
pub fn same_text(a: &Text, b: &str) -> bool
    ensures { result ≡ bytes_eq a.now b.now }
{
    a.as_str() == b
}
