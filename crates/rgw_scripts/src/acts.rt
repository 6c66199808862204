//! What is done at a telephone, as a script says it.
ghost use Rattle.std.specs.Prelude.{◌≡◌};
ghost use Rattle.rgw_scripts.specs.Script.{key_with, key_of, act_of};

use mg_line::{Act, Key};

/// The key with this sign, in ASCII.
#[tactic(auto, unfolding(crate::specs::Script::key_with))]
pub fn key_with(sign: u32) -> Option<Key>
    ensures { result ≡ key_with sign }
{
    match sign {
        48 => Some(Key::Zero),
        49 => Some(Key::One),
        50 => Some(Key::Two),
        51 => Some(Key::Three),
        52 => Some(Key::Four),
        53 => Some(Key::Five),
        54 => Some(Key::Six),
        55 => Some(Key::Seven),
        56 => Some(Key::Eight),
        57 => Some(Key::Nine),
        42 => Some(Key::Star),
        35 => Some(Key::Hash),
        65 => Some(Key::A),
        66 => Some(Key::B),
        67 => Some(Key::C),
        68 => Some(Key::D),
        _ => None,
    }
}

// The key that a word is the sign of.
fn key_of(word: &[u8]) -> Option<Key>
    ensures { result ≡ key_of word.now }
{
    match word {
        [sign] => key_with(u32::from(*sign)),
        _ => None,
    }
}

/// What is done at a telephone: `off`, `on`, `flash` or a key.
#[tactic(auto, unfolding(crate::specs::Script::act_of))]
pub fn act_of(word: &[u8]) -> Option<Act>
    ensures { result ≡ act_of word.now }
{
    if word == b"off".as_slice() {
        return Some(Act::OffHook);
    }
    if word == b"on".as_slice() {
        return Some(Act::OnHook);
    }
    if word == b"flash".as_slice() {
        return Some(Act::Flash);
    }
    Some(Act::Key(key_of(word)?))
}
