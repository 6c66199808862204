//! Domain names (RFC 3435, 2.1.2 and appendix A).
ghost use Rattle.std.specs.Prelude.{◌≡◌};
ghost use Rattle.std.specs.List.{list_all};
ghost use Rattle.endpoint_names.specs.Table.{is_domain_byte, is_domain};

/// The most bytes of a domain name (this gateway's profile).
pub const LONGEST_DOMAIN: usize = 64;

fn is_domain_byte(byte: u8) -> bool
    ensures { result ≡ is_domain_byte byte }
{
    byte.is_ascii_alphanumeric() || byte == b'-' || byte == b'.'
}

fn all_domain_bytes(text: &[u8]) -> bool
    ensures { result ≡ list_all is_domain_byte text.now }
{
    text.iter().all(|byte| is_domain_byte(*byte))
}

/// Whether a text is a domain name (RFC 3435, appendix A) of at most 64 bytes, which is this gateway's limit:
/// letters, digits, `-` and `.`.
pub fn is_domain(text: &[u8]) -> bool
    ensures { result ≡ is_domain text.now }
{
    text.len() >= 1 && text.len() <= LONGEST_DOMAIN && all_domain_bytes(text)
}
