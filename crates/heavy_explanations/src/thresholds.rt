//! Which k a threshold needs, and how one is written.

use crate::escaped::Name;
use heavy_arguments::Verb;
use heavy_requests::Asked;
use hh_rows::{Share, threshold_of};

/// The most counters of a summary.
pub(crate) const MOST_COUNTERS: u64 = 65_535;

/// The most digits of a share that is no fraction.
const SHARE_DIGITS: usize = 9;

/// What a decimal is a part of, by its digits behind the point.
const TENS: [u64; 10] = [
    1,
    10,
    100,
    1_000,
    10_000,
    100_000,
    1_000_000,
    10_000_000,
    100_000_000,
    1_000_000_000,
];

/// Divides `numerator` and `denominator`, which is more than 0, by what they have in common.
fn reduced(numerator: u64, denominator: u64) -> (u64, u64) {
    let (mut larger, mut smaller) = (denominator, numerator);
    for _ in 0..u64::MAX {
        match larger.checked_rem(smaller) {
            None => break,
            Some(rest) => {
                larger = smaller;
                smaller = rest;
            }
        }
    }
    (
        numerator.checked_div(larger).unwrap_or(numerator),
        denominator.checked_div(larger).unwrap_or(denominator),
    )
}

/// Gives the number that has the digits of `text` after those of `number`.
fn with_digits(mut number: u64, text: &str) -> Option<u64> {
    for digit in text.bytes() {
        if !digit.is_ascii_digit() {
            return None;
        }
        number = number
            .saturating_mul(10)
            .saturating_add(u64::from(digit - b'0'));
    }
    Some(number)
}

/// Reads a share that is a percentage, as `5%`, or a decimal, as `0.05`, as a fraction.
fn fraction_of(word: &[u8]) -> Option<(u64, u64)> {
    let text = str::from_utf8(word).ok()?;
    let (number, hundred) = match text.strip_suffix("%") {
        Some(number) => (number, 100u64),
        None => (text, 1),
    };
    let (whole, decimals) = number.split_once('.').unwrap_or((number, ""));
    let one = hundred.saturating_mul(*TENS.get(decimals.len())?);
    if whole.len().saturating_add(decimals.len()) > SHARE_DIGITS {
        return None;
    }
    let digits = with_digits(with_digits(0, whole)?, decimals)?;
    (digits > 0 && digits <= one).then_some(reduced(digits, one))
}

/// Whether each smaller share than this one is refused with `k` counters.
pub(crate) fn is_least(share: &Share, k: u64) -> bool {
    match threshold_of(MOST_COUNTERS, share) {
        Some((p, q)) => p.saturating_mul(k.saturating_add(1)) <= q,
        None => false,
    }
}

/// Prints which k a share needs, or how it is written.
fn tell_share(rt: &HostRuntime, share: &Share, owner: &str) {
    if let Share::Text(word) = share {
        if let Some((p, q)) = fraction_of(word) {
            let _ = eprintln!(rt; "  {} is written {p}/{q}", Name(word.as_slice()));
            return;
        }
    }
    match threshold_of(MOST_COUNTERS, share) {
        Some((p, q)) => {
            let least = q.saturating_sub(1).checked_div(p).unwrap_or(0);
            let _ = eprintln!(rt; "  {p}/{q} needs a k of {least} or more{owner}");
        }
        None => {
            let _ = eprintln!(rt; "  a share is two whole numbers, as 1/50, from 1/65536 to 1/1");
        }
    }
}

/// Prints which k the share that is `asked` for needs.
pub(crate) fn tell_threshold(rt: &HostRuntime, asked: &Asked) {
    let owner = match asked.verb {
        Verb::Report => "",
        _ => ", and the summary has a k of its own",
    };
    tell_share(rt, &asked.options.threshold, owner);
}
