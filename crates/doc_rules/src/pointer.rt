//! Members' names in a JSON Pointer (RFC 6901).
ghost use Rattle.std.specs.Prelude.{◌≡◌, IfOk, string_bytes};
ghost use Rattle.doc_rules.specs.Pointers.{pointer_token};

use std::alloc::{AllocError, Global};

/// The token of a JSON Pointer that stands for a member's name: `~0` stands for `~`, and `~1` for
/// `/`.
///
/// Err where memory was refused.
pub fn pointer_token(alloc: Global, name: &str) -> Result<String, AllocError>
    ensures { IfOk result (λ token. string_bytes token ≡ pointer_token name.now) }
{
    let tildes = name.replace(alloc, '~', "~0")?;
    tildes.as_str().replace(alloc, '/', "~1")
}
