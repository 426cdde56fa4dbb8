//! The share of the total above which a report lists keys.

ghost use Rattle.std.specs.Prelude.{◌≡◌, ◌<◌, true, length, IfSome};
ghost use Rattle.std.specs.List.{position_from};
ghost use Rattle.hh_summaries.specs.Counters.{max_k};
ghost use Rattle.hh_summaries.specs.Report.{IsShare};
ghost use Rattle.hh_stream.specs.Ranges.{in_range};
ghost use Rattle.hh_rows.specs.Thresholds.{is_slash, number_of, numbers_of, threshold_of};

use hh_counters::is_threshold;
use hh_records::number_in;

/// The share of the total weight above which a report lists keys.
#[derive(Debug, Drop)]
pub enum Share {
    /// 1/(k + 1), the least share for which k counters are enough.
    OfCounters,
    /// As the text says, `P/Q`: two numbers of 1 to 10 digits, leading zeros allowed. `1/100` lists
    /// the keys with more than a hundredth of the total. P is at least 1, Q at least P and at most
    /// 4,294,967,296, and P/Q at least 1/(k + 1).
    Text(Vec<u8>),
}

/// The place of the first slash.
fn slash_in(text: &[u8]) -> Option<usize>
    ensures first { result ≡ position_from is_slash 0 text.now }
    ensures within { IfSome result (λ place. place < length text.now) }
{
    text.iter().position(|byte| *byte == b'/')
}

/// The number that 1 to 10 digits write.
fn number_of(digits: &[u8]) -> Option<u64>
    ensures { result ≡ number_of digits.now }
{
    number_in(digits, 10)
}

/// The two numbers of a text `P/Q`.
fn numbers_of(text: &[u8]) -> Option<(u64, u64)>
    ensures { result ≡ numbers_of text.now }
{
    let slash = slash_in(text)?;
    let p = number_of(&text[..slash])?;
    let q = number_of(&text[slash + 1..])?;
    Some((p, q))
}

/// The p and q of the threshold for k counters. There are none where the share is a text that is no
/// `P/Q`, or whose P/Q is above the whole or below 1/(k + 1), or whose Q is too large.
pub fn threshold_of(k: u64, share: &Share) -> Option<(u64, u64)>
    requires { in_range k max_k ≡ true }
    ensures threshold { result ≡ threshold_of k share.now }
    ensures is_share { IfSome result (λ t. IsShare t.0 t.1) }
{
    match share {
        Share::OfCounters => Some((1, k + 1)),
        Share::Text(text) => {
            let (p, q) = numbers_of(text)?;
            if is_threshold(k, p, q) {
                Some((p, q))
            } else {
                None
            }
        }
    }
}
