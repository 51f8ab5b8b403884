//! A whole text, put at the end of another.
ghost use Rattle.std.specs.Prelude.{◌≡◌, ◌++◌, OnOk, OnErr};

use group_model::{NoMemory, Octets};

/// Puts a text at the end of another. Where that one is empty, the text takes its place, and is not copied.
pub fn append_text(text: Octets, out: &mut Octets) -> Result<(), NoMemory>
    ensures ok { OnOk result (out.new ≡ out.old ++ text) }
    ensures err { OnErr result (out.new ≡ out.old) }
{
    if out.is_empty() {
        *out = text;
        return Ok(());
    }
    out.extend(text.as_slice())
}
