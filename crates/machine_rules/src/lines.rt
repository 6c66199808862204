//! How many lines a gateway may have.
ghost use Rattle.std.specs.Prelude.{◌≡◌};
ghost use Rattle.machine_rules.specs.Lines.{are_lines};

/// The most lines of a gateway (this gateway's profile).
pub const MOST_LINES: u16 = 96;

/// Whether a gateway may have so many lines.
pub fn are_lines(lines: u32) -> bool
    ensures { result ≡ are_lines lines }
{
    lines >= 1 && lines <= MOST_LINES as u32
}
