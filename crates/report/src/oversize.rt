// The refusal of a file that is longer than any session, told from its header and its true length.
// A program whose buffer holds every session can answer for every file so.
ghost use Rattle.std.specs.Prelude.{◌≡◌, ◌<◌, leb};
ghost use Rattle.definition.specs.Refusals.{number_of};
ghost use Rattle.definition.specs.Session as Se;
ghost use Rattle.report.specs.Oversize.{length_bound, oversize_number};

use definition::refusals::Refusal;
use definition::sizes::TOTAL_LENGTH_AT;
use encoding::u32_at;

// No length field is so large.
const LENGTH_BOUND: u64 = 0x1_0000_0000;

// A file of so many bytes has more than any length field says, and is refused as every longer one is.
pub fn past_length_field(bytes: u64) -> bool
    ensures { result ≡ leb length_bound bytes }
{
    bytes >= LENGTH_BOUND
}

// 1 where the length field is wrong, else 2.
pub fn oversize_refusal(head: &[u8], bytes: u64) -> Refusal
    ensures number { number_of result ≡ oversize_number (Se.total_length head.now) bytes }
    ensures below_the_bound { Se.total_length head.now < length_bound }
{
    if u32_at(head, TOTAL_LENGTH_AT) as u64 == bytes {
        Refusal::InvalidHeader
    } else {
        Refusal::WrongLength
    }
}
