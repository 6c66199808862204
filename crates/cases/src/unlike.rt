//! What differs is said.
use scenario_files::Report;

/// Whether this is given that is wanted. Where it isn't both are said, behind the title and who gives it.
pub fn tell_unlike(
    report: &mut Report,
    title: &str,
    who: &str,
    gives: &str,
    given: &[u8],
    wanted: &[u8],
) -> bool {
    if given == wanted {
        return true;
    }
    report.put(b"= ");
    report.put(title.as_bytes());
    report.put(b"\n");
    report.put(who.as_bytes());
    report.put(b" ");
    report.put(gives.as_bytes());
    report.put(b" this:\n");
    report.put(given);
    report.put(b"and not this:\n");
    report.put(wanted);
    report.put(b"\n");
    false
}
