//! What is done at a telephone, as C numbers it.
ghost use Rattle.std.specs.Prelude.{◌≡◌};
ghost use Rattle.rgw_c.specs.Acts.{act_in};

use mg_line::Act;
use rgw_scripts::key_with;

/// The act with this number: 1 off hook, 2 on hook, 3 a flash, else a key by its sign in ASCII.
pub fn act_in(number: u32) -> Option<Act>
    ensures { result ≡ act_in number }
{
    match number {
        1 => Some(Act::OffHook),
        2 => Some(Act::OnHook),
        3 => Some(Act::Flash),
        _ => Some(Act::Key(key_with(number)?)),
    }
}
