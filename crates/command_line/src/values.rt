//! The values of a command line, read from what `clap` found.
ghost use Rattle.std.specs.Prelude.{◌≡◌, ◌≤◌, IfSome, option_map};
ghost use Rattle.clap.specs.Words.{first_of, found_of, rows_of};
ghost use Rattle.command_line.specs.Numbers.{number_in};
ghost use Rattle.command_line.specs.inner.Padding.{is_padded};
ghost use Rattle.command_line.specs.CommandLine.{IfIn, number_at, number_if, number_of};

use clap::ArgMatches;

/// The most faults in a hundred that are asked for by number.
pub(crate) const MOST_PERCENT: u64 = 100;

/// The most rounds that make the patterns fewer.
pub(crate) const MOST_ROUNDS: u64 = 100;

/// The most patterns that each fault is to be detected by.
pub(crate) const MOST_TIMES: u64 = 100;

// A plus, or a zero before more, stands in front: `clap` and `parse` read over both.
fn is_padded(text: &str) -> bool
    ensures { result ≡ is_padded text.now }
{
    matches!(text.as_bytes(), [b'+', ..] | [b'0', _, ..])
}

// The number that the text writes, from `low` to `high`.
fn number(text: &str, low: u64, high: u64) -> Option<u64>
    ensures value { result ≡ number_in low high text.now }
    ensures in_range { IfSome result (λ n. (low ≤ n) × (n ≤ high)) }
{
    if is_padded(text) {
        return None;
    }
    match text.parse::<u64>() {
        Ok(number) if low <= number && number <= high => Some(number),
        _ => None,
    }
}

/// The text of the argument `id`, where the words give it.
pub(crate) fn text<'a>(found: &ArgMatches<'a>, id: &str) -> Option<&'a str>
    ensures { option_map (λ s. s.now) result ≡ first_of id.now (rows_of (found_of found.now)) }
{
    found.get_str(id)
}

/// The number of the option `name`, or `default` where the words don't give it.
pub(crate) fn number_or(
    found: &ArgMatches<'_>,
    name: &str,
    default: u64,
    low: u64,
    high: u64,
) -> Option<u64>
    requires { (low ≤ default) × (default ≤ high) }
    ensures value { result ≡ number_at name.now default low high (rows_of (found_of found.now)) }
    ensures in_range { IfSome result (λ n. (low ≤ n) × (n ≤ high)) }
{
    match text(found, name) {
        Some(given) => number(given, low, high),
        None => Some(default),
    }
}

/// The number of the option `name`, where the words give it.
pub(crate) fn number_if(
    found: &ArgMatches<'_>,
    name: &str,
    low: u64,
    high: u64,
) -> Option<Option<u64>>
    ensures value { result ≡ number_if name.now low high (rows_of (found_of found.now)) }
    ensures in_range { IfSome result (IfIn low high) }
{
    match text(found, name) {
        Some(given) => {
            let number = number(given, low, high)?;
            Some(Some(number))
        }
        None => Some(None),
    }
}

/// The number that must be there, known by its place.
pub(crate) fn number_of(found: &ArgMatches<'_>, name: &str, low: u64, high: u64) -> Option<u64>
    ensures value { result ≡ number_of name.now low high (rows_of (found_of found.now)) }
    ensures in_range { IfSome result (λ n. (low ≤ n) × (n ≤ high)) }
{
    let given = text(found, name)?;
    number(given, low, high)
}
