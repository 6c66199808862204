//! Blanks, which are spaces and tabs.
ghost use Rattle.std.specs.Prelude.{◌≡◌};
ghost use Rattle.std.specs.List.{list_all};
ghost use Rattle.mg_bytes.specs.Blanks.{is_blank, trimmed_start, trimmed_end, trimmed};

pub(crate) fn is_blank(byte: u8) -> bool
    ensures { result ≡ is_blank byte }
{
    byte == b' ' || byte == b'\t'
}

/// Whether a text is blanks alone, or nothing.
pub fn all_blank(text: &[u8]) -> bool
    ensures { result ≡ list_all is_blank text.now }
{
    text.iter().all(|byte| *byte == b' ' || *byte == b'\t')
}

pub(crate) fn trimmed_start(text: &[u8]) -> &[u8]
    ensures { result.now ≡ trimmed_start text.now }
{
    let mut rest = text;
    while let [first, after @ ..] = rest {
        if !is_blank(*first) {
            break;
        }
        rest = after;
    }
    rest
}

#[tactic(auto, unfolding(crate::specs::Blanks::trimmed_end))]
fn trimmed_end(text: &[u8]) -> &[u8]
    ensures { result.now ≡ trimmed_end text.now }
{
    let mut end = text.len();
    while end > 0 {
        if !is_blank(text[end - 1]) {
            break;
        }
        end -= 1;
    }
    &text[..end]
}

/// The bytes without the spaces and tabs at both ends.
#[tactic(auto, unfolding(crate::specs::Blanks::trimmed))]
pub fn trimmed(text: &[u8]) -> &[u8]
    ensures { result.now ≡ trimmed text.now }
{
    trimmed_end(trimmed_start(text))
}
