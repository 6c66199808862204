//! Why the system refused a socket or a file, in words. A program ends the line that tells of it with what stands here.
ghost use Rattle.std.specs.Prelude.{◌≡◌};
ghost use Rattle.output_queues.specs.Reasons.{reason_of};

use std::io::ErrorKind;

/// What a line that tells of a refused socket or file ends with, by the kind of the system's error: as `: address in use`, and
/// nothing where the kind says no more than that.
#[tactic(auto, unfolding(crate::specs::Reasons::reason_of))]
pub fn reason_of(kind: ErrorKind) -> &'static str
    ensures { result.now ≡ reason_of kind }
{
    if kind == ErrorKind::AddrInUse {
        return ": address in use";
    }
    if kind == ErrorKind::AddrNotAvailable {
        return ": not an address of this machine";
    }
    if kind == ErrorKind::PermissionDenied {
        return ": permission denied";
    }
    if kind == ErrorKind::NotFound {
        return ": no such file or directory";
    }
    if kind == ErrorKind::IsADirectory {
        return ": is a directory";
    }
    if kind == ErrorKind::AlreadyExists {
        return ": exists already";
    }
    if kind == ErrorKind::StorageFull {
        return ": no space left";
    }
    if kind == ErrorKind::BrokenPipe {
        return ": nobody reads it any more";
    }
    if kind == ErrorKind::OutOfMemory {
        return ": out of memory";
    }
    ""
}
