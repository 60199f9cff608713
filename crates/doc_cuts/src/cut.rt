//! Looks for a place at which a text may be cut.
ghost use Rattle.std.specs.Prelude.{◌≡◌, ◌≤◌, length};
ghost use Rattle.memchr.specs.Find.{IsFirst};
ghost use Rattle.doc_cuts.specs.Cuts.{IsCut, opens_array};

use memchr::memmem;

/// Whether, but for white space, a bracket `[` comes first.
fn opens_array(text: &[u8]) -> bool
    ensures { result ≡ opens_array text.now }
{
    for byte in text {
        if !byte.is_ascii_whitespace() {
            return *byte == b'[';
        }
    }
    false
}

/// The place of the first bracket `]` from a place on after which a text may be cut: a comma
/// follows it, and then, but for white space, a bracket `[`.
pub fn next_cut(text: &[u8], from: usize) -> Option<usize>
    requires { from ≤ length text.now }
    ensures { IsFirst (IsCut text.now) from (length text.now) result }
{
    let mut at = from;
    while let Some(found) = memmem::find(&text[at..], b"],") {
        let bracket = at + found;
        if opens_array(&text[bracket + 2..]) {
            return Some(bracket);
        }
        at = bracket + 1;
    }
    None
}
