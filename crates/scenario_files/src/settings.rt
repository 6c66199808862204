//! The gateway that scenarios are about.

/// The configuration that a gateway has where a scenario says no other.
pub const SETTINGS: &str = "domain = \"rgw.example.net\"
lines = 16
agent = \"ca@ca.example.net\"
restart_wait = 1
disconnected_wait = 5000
media_address = \"127.0.0.1\"
media_base = 3000
[names]
\"ca.example.net\" = \"127.0.0.1\"
";
