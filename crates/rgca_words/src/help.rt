//! What the program says of itself: how it is used, and its version.
ghost use Rattle.rgca_words.specs.Names.{IsOwn};

use live_system::{About, VERSION};

/// The address of the socket for commands where no word says another. No other machine reaches it.
pub const CONTROL: &str = "127.0.0.1:4280";

/// The words of the command line, in a line.
pub const USAGE: &str =
    "rgca CONFIG [--listen ADDRESS] [--control ADDRESS] [--route] [--log] [--capture FILE] [--network TEXT] [--stop-after MS]";

// What the words say, from the end of the first line on. The place of the default is left open.
const ABOVE: &str = "

An MGCP call agent, on a network. It serves until it is stopped.

  CONFIG              the file of its configuration, in TOML
  --listen ADDRESS    of its socket for gateways; else the configuration's own
  --control ADDRESS   of its socket for commands; else ";

const BELOW: &str = "
  --route             it is an exchange: it routes calls between the lines
  --log               what is said is written to standard error, a line a message
  --capture FILE      datagrams are written into this file, for tshark and Wireshark
  --network TEXT      datagrams are spoilt, as by \"lose 10%, in copy 5%, out late 0-3000, seed 7\"
  --stop-after MS     it ends at this moment of its clock, in ms; else it goes on
  --help, --version   this, or the version, on standard output

ADDRESS is a.b.c.d:port or localhost:port, and port 0 any free one. Both sockets take datagrams (UDP).

At the socket for commands a datagram is one of these:

  VERB NAME           issues this command, as AUEP aaln/1@gw1.example.net; without @.. where
                      there is one gateway. The lines behind the first are its parameters,
                      and \\n, typed as two characters, ends a line too:
                      RQNT aaln/1\\nX: 1\\nR: L/hd(N)
                      It is answered with: issued ID
  counts              asks what was counted so far
  stop, quit          end the program in order

Standard output has a line for each answer, each notification, each announcement, each command
that is given up, and with --route for each change of a call or of a line:

  answer aaln/1@gw1.example.net 200 1207 OK | parameters
  notify aaln/1@gw1.example.net L/hd
  announce *@gw1.example.net restart
  given up AUEP 1207 aaln/1@gw1.example.net
  call 7: 201 -> 202 ringing          and so answered, connected, over
  line 201: dialling                  and so busy tone, reorder tone, at rest

Gateways are checked by rgw-check, and calls are made at a rate by rgw-load.
More: the manual page rgca(1).
";

// How the program is used, in pieces.
static HELP: [&str; 5] = ["usage: ", USAGE, ABOVE, CONTROL, BELOW];

// The version of the program, and of its protocol, in pieces.
static VERSIONS: [&str; 3] = ["rgca ", VERSION, "\nMGCP 1.0 (RFC 3435)\n"];

/// What the program says of itself.
pub fn of_program() -> About
    ensures { IsOwn result }
{
    About {
        usage: USAGE,
        help: HELP.as_slice(),
        version: VERSIONS.as_slice(),
    }
}
