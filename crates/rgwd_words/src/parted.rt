//! What words say of the files of a capture.
ghost use Rattle.std.specs.Prelude.{◌≡◌, true, IfErr, option_copied};
ghost use Rattle.rgwd_words.specs.Parting.{number_within, files_of, parted_of, sizeless, parting_of};
ghost use Rattle.rgwd_words.specs.Statuses.{fails};

use crate::ending::Ending;
use live_system::Parting;
use mg_bytes::decimal;

/// So large a file of a capture may be at most, in MB.
pub const MOST_MEGABYTES: u64 = 100_000;

/// So many files of a capture may be kept at most.
pub const MOST_FILES: u64 = 10_000;

// So many are kept where nothing is said.
const USUAL_FILES: u64 = 10;

const MEGABYTE: u64 = 1_000_000;

// A number, if it is one from 1 to this one.
fn number_within(most: u64, number: Option<u64>) -> Option<u64>
    ensures { result ≡ number_within most number }
{
    match number {
        Some(number) if number >= 1 && number <= most => Some(number),
        Some(_) | None => None,
    }
}

fn files_of(text: Option<&[u8]>) -> Option<u64>
    ensures { result ≡ files_of (option_copied text.entry) }
{
    match text {
        Some(text) => number_within(MOST_FILES, decimal(text)),
        None => Some(USUAL_FILES),
    }
}

fn parted_of(size: &[u8], files: Option<&[u8]>) -> Result<Option<Parting>, Ending>
    ensures parted { result ≡ parted_of size.now (option_copied files.entry) }
    ensures refused { IfErr result (λ ending. fails ending ≡ true) }
{
    let Some(megabytes) = number_within(MOST_MEGABYTES, decimal(size)) else {
        return Err(Ending::BadSize);
    };
    let Some(files) = files_of(files) else {
        return Err(Ending::BadFiles);
    };
    Ok(Some(Parting {
        size: megabytes * MEGABYTE,
        files,
    }))
}

// Without a size a number of files says nothing.
fn sizeless(files: Option<&[u8]>) -> Result<Option<Parting>, Ending>
    ensures parted { result ≡ sizeless (option_copied files.entry) }
    ensures refused { IfErr result (λ ending. fails ending ≡ true) }
{
    match files {
        Some(_) => Err(Ending::BadFiles),
        None => Ok(None),
    }
}

/// How a capture is parted, where there is one, by what stands behind `--capture-size` and `--capture-files`.
pub fn parting_of(
    has_capture: bool,
    size: Option<&[u8]>,
    files: Option<&[u8]>,
) -> Result<Option<Parting>, Ending>
    ensures parted { result ≡ parting_of has_capture (option_copied size.entry) (option_copied files.entry) }
    ensures refused { IfErr result (λ ending. fails ending ≡ true) }
{
    let Some(size) = size else {
        return sizeless(files);
    };
    if !has_capture {
        return Err(Ending::BadSize);
    }
    parted_of(size, files)
}
