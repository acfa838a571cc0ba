// The definition at which a run may begin under a name.
ghost use Rattle.std.specs.Prelude.{◌≡◌, ◌<◌, IfSome, None, length, slice_get};
ghost use Rattle.front.specs.EntryNameEntries.{begins, Begins_at, Begins_nowhere, is_text};

use fut_flat::{Definition, Flat};
use fut_scalar::BindId;

/// The number of the named file: the first in load order behind the prelude.
pub const NAMED_FILE: u32 = 1;

/// Whether a number's text is this one.
fn is_named(flat: &Flat<'_>, bind: BindId, name: &str) -> bool
    ensures { result ≡ is_text (slice_get flat.now.names.now bind.0) name.now }
{
    match flat.names.get(bind.0 as usize) {
        Some(text) => *text == name,
        None => false,
    }
}

/// Whether a run may begin at a definition under this name.
fn begins(flat: &Flat<'_>, definition: &Definition<'_>, name: &str) -> bool
    ensures { result ≡ begins flat.now name.now definition.now }
{
    definition.is_entry && definition.file == NAMED_FILE && is_named(flat, definition.bind, name)
}

/// The first definition at which a run may begin under this name. A file defines a name once, but for definitions with `local`.
pub fn entry_at(flat: &Flat<'_>, name: &str) -> Option<usize>
    ensures within { IfSome result (λ at. at < length flat.now.definitions.now) }
    ensures found { IfSome result (Begins_at flat.now name.now) }
    ensures none { result ≡ None → Begins_nowhere flat.now name.now }
{
    let definitions = flat.definitions;
    let mut at = 0;
    while at < definitions.len() {
        if begins(flat, &definitions[at], name) {
            return Some(at);
        }
        at += 1;
    }
    None
}
