//! What the program says of itself: how it is used, and its version.
ghost use Rattle.rgwd_words.specs.Names.{IsOwn};

use live_system::{About, VERSION};

/// The address of the gateway's socket where no word says another. Its port is that of gateways
/// (RFC 3435, 3.5). No other machine reaches it: the protocol has no passwords.
pub const LISTEN: &str = "127.0.0.1:2427";

/// The address of the telephones' socket where no word says another. No other machine reaches them
/// either.
pub const PHONES: &str = "127.0.0.1:2428";

/// The words of the command line, in a line.
pub const USAGE: &str =
    "rgwd CONFIG [--check] [--listen ADDRESS] [--agents ADDRESS[/BITS],..|any] [--phones ADDRESS] [--phones-open] [--http ADDRESS] [--http-host NAME,..] [--log] [--capture FILE] [--capture-size MB] [--capture-files N] [--trace] [--network TEXT] [--first N] [--spread MS] [--stop-after MS]
       rgwd --tell ADDRESS LINE
       rgwd --replay TRACE";

// What the words say, from the end of the first line on. The places of the defaults are left open.
const ABOVE: &str = "

An MGCP gateway of telephone lines, on a network. It serves until it is stopped.

  CONFIG              the file of its configuration, in TOML
  --check             what the gateway will be is written to standard output, and nothing is opened
  --listen ADDRESS    of its socket for call agents; else ";

const BETWEEN: &str = "
  --agents LIST       who may speak to it: any, or addresses, as 10.0.0.7,10.1.0.0/16; else the configuration's agent and names
  --phones ADDRESS    of its telephones' socket; else ";

const BELOW: &str = "
  --phones-open       other machines may use the telephones, too, but not end the program
  --http ADDRESS      of its page for browsers; else there is none
  --http-host LIST    names under which it is asked whether it is well, and what was counted; then it may be at 0.0.0.0
  --log               what is said is written to standard error, a line a message
  --capture FILE      datagrams are written into this file, for tshark and Wireshark
  --capture-size MB   they are written into FILE.1, FILE.2 .., of so many MB each
  --capture-files N   of these so many are kept; else 10
  --trace             all that happens is written to standard output; else nothing is
  --network TEXT      datagrams are lost, copied and late, as \"lose 10%, in copy 5%, out late 0-3000, seed 7\"
  --first N           ids begin with this number; else with one that the time of day gives, so that a new start has others
  --spread MS         it waits up to that before its clock begins, so that gateways don't start together; else it doesn't
  --stop-after MS     it ends at this moment of its clock, in ms; else it goes on
  --help, --version   this, or the version, on standard output

ADDRESS is a.b.c.d:port or localhost:port, and port 0 any free one. The first two sockets take datagrams (UDP).
With --tell it starts no gateway: LINE, as phone 1 off, goes to the telephones at ADDRESS, and the answer to standard output.
With --replay it starts none either: what went out in the file TRACE is compared with what the gateway sends for what came in.
More: the manual page rgwd(8), and docs/OPERATING.md.
";

// How the program is used, in pieces.
static HELP: [&str; 7] = ["usage: ", USAGE, ABOVE, LISTEN, BETWEEN, PHONES, BELOW];

// The version of the program, and of its protocol, in pieces.
static VERSIONS: [&str; 3] = ["rgwd ", VERSION, "\nMGCP 1.0 (RFC 3435)\n"];

/// What the program says of itself.
pub(crate) fn of_program() -> About
    ensures { IsOwn result }
{
    About {
        usage: USAGE,
        help: HELP.as_slice(),
        version: VERSIONS.as_slice(),
    }
}
