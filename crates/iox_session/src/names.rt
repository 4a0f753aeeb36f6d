//! Which names a service may have.
ghost use Rattle.std.specs.Prelude.{◌≡◌};
ghost use Rattle.iox_session.specs.Sessions.{name_refusal};

use iox_names::{INTERNAL_SERVICE_PREFIX, is_text};
use iox_script::ScriptRefusal;

/// The most bytes of a name.
const MAX_NAME: usize = 255;

/// Why no service may have that name: the first test that fails.
pub(crate) fn name_refusal(name: &[u8]) -> Option<ScriptRefusal>
    ensures { result ≡ name_refusal name.now }
{
    if name.len() > MAX_NAME {
        return Some(ScriptRefusal::ExceedsMaximumLength);
    }
    if name.is_empty() || !is_text(name) {
        return Some(ScriptRefusal::InvalidContent);
    }
    if name.starts_with(INTERNAL_SERVICE_PREFIX.as_bytes()) {
        return Some(ScriptRefusal::InvalidContent);
    }
    None
}
