// Scanning for programs in other languages, into entries of plain numbers.
ghost use Rattle.std.specs.Prelude.{◌≡◌, length, IfOk};
ghost use Rattle.picture.specs.Scanning.{listed_at, RecoversAt};
ghost use Rattle.capi.specs.Settings.{answer_number, Filled, Told, end_times};
ghost use Rattle.capi.specs.Scanning.{told_entry, scan_result, listing};

use super::numbers::{EndNumbers, EntryNumbers};
use super::telling::tell;
use ends::Timing;
use line::Refusal;
use picture::scan;

impl From<(u16, u8)> for EntryNumbers {
    ghost from_gives = { λ entry numbers. numbers ≡ told_entry entry };

    fn from((character, flags): (u16, u8)) -> EntryNumbers {
        EntryNumbers { character, flags }
    }
}

// Gives the picture to a new receiver, lists every entry, read as it arrives, and says how many there are.
#[unsafe(no_mangle)]
pub extern "C" fn hotskrebi_scan(
    end: &EndNumbers,
    picture: &[u8],
    entries: &mut [EntryNumbers],
    found: &mut usize,
) -> u8
    ensures answer { result ≡ answer_number (scan_result end.now picture.now (length entries.old)) }
    ensures entries { Filled (scan_result end.now picture.now (length entries.old)) (listing end.now picture.now) entries.new entries.old }
    ensures found { Told (scan_result end.now picture.now (length entries.old)) found.new found.old }
    ensures recovers { IfOk (end_times end.now) (λ t. RecoversAt t picture.now (listed_at t picture.now)) }
{
    tell(scan_at(end, picture, entries), found)
}

fn scan_at(end: &EndNumbers, picture: &[u8], entries: &mut [EntryNumbers]) -> Result<usize, Refusal>
    ensures answer { result ≡ scan_result end.now picture.now (length entries.old) }
    ensures entries { Filled result (listing end.now picture.now) entries.new entries.old }
    ensures recovers { IfOk (end_times end.now) (λ t. RecoversAt t picture.now (listed_at t picture.now)) }
{
    scan(&Timing::try_from(*end)?, picture, entries)
}
