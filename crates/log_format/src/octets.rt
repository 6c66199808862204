//! Numbers as bytes, the highest first.
ghost use Rattle.std.specs.Prelude.{◌≡◌, ◌++◌};
ghost use Rattle.std.specs.Net.Addr.{octets_of};
ghost use Rattle.log_format.specs.Octets.{four_octets};

use mg_bytes::Draft;

/// Puts words of 16 bits.
pub(crate) fn put_words(out: &mut Draft, words: &[u16])
    ensures { out.new ≡ out.old ++ octets_of words.now }
{
    for word in words {
        out.put(&[(*word / 256) as u8, (*word % 256) as u8]);
    }
}

/// Puts the lowest 32 bits of a number.
pub(crate) fn put_number(out: &mut Draft, number: u64)
    ensures { out.new ≡ out.old ++ four_octets number }
{
    let words = [(number / 65536 % 65536) as u16, (number % 65536) as u16];
    put_words(out, &words);
}
