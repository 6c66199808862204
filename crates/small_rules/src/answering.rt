//! Which message is the command that was issued, and what answers it.
ghost use Rattle.std.specs.Prelude.{◌≡◌, ◌&&◌, ◌==◌, nat_le};

// The least return code of a final response, and the greatest.
const LEAST_FINAL: u16 = 200;

const GREATEST_FINAL: u16 = 999;

/// Whether a response with this return code is final, and so the answer: 200 to 999 (RFC 3435, 2.4).
pub fn is_final(code: u16) -> bool
    ensures { result ≡ (nat_le 200 code && nat_le code 999) }
{
    code >= LEAST_FINAL && code <= GREATEST_FINAL
}

/// Whether a command with this id is the one that was issued with that id, where their names are equal or not (RFC 3435, 3.2.1).
pub fn is_command_issued(id: u32, issued: u32, same_name: bool) -> bool
    ensures { result ≡ (id == issued && same_name) }
{
    let same_id = id == issued;
    same_id && same_name
}

/// Whether what was answered is the command with this id: the ids alone tell (RFC 3435, 3.2.1.2).
pub fn is_answered(answered: u32, id: u32) -> bool
    ensures { result ≡ (answered == id) }
{
    answered == id
}
