//! The words of a line.

ghost use Rattle.std.specs.Prelude.{◌≡◌, option_map};
ghost use Rattle.std.specs.List.{prefix_len};
ghost use Rattle.schedule.specs.Grammar.{is_blank, is_solid};
ghost use Rattle.schedule.specs.Reading.{word_at, number_from, number_in};

/// Whether a byte stands between words.
pub fn is_blank(byte: u8) -> bool
    ensures { result ≡ is_blank byte }
{
    byte == b' ' || byte == b'\t'
}

/// The first word of a line, and what stands behind it.
#[tactic(auto, unfolding(crate::specs::Reading::word_at))]
pub fn word_at(line: &[u8]) -> Option<(&[u8], &[u8])>
    ensures { option_map (λ found. (found.0.now, found.1.now)) result ≡ word_at line.now }
{
    let (_, start) = line.split_at(blank_len(line));
    let (word, rest) = start.split_at(word_len(start));
    if word.is_empty() {
        return None;
    }
    Some((word, rest))
}

/// How many blanks a line begins with.
fn blank_len(line: &[u8]) -> usize
    ensures { result ≡ prefix_len is_blank line.now }
{
    line.iter().take_while(|byte| is_blank(**byte)).count()
}

/// How many bytes stand before the first blank.
fn word_len(line: &[u8]) -> usize
    ensures { result ≡ prefix_len is_solid line.now }
{
    line.iter().take_while(|byte| !is_blank(**byte)).count()
}

/// The number that a word of 1 to 10 digits spells, up to 4294967295.
#[tactic(auto, unfolding(crate::specs::Reading::number_in))]
pub fn number_in(word: &[u8]) -> Option<u32>
    ensures { result ≡ number_in word.now }
{
    if word.is_empty() || word.len() > 10 {
        return None;
    }
    digits_value(word)
}

/// The number that digits spell, up to 4294967295.
#[tactic(auto, unfolding(crate::specs::Reading::number_from))]
fn digits_value(digits: &[u8]) -> Option<u32>
    ensures { result ≡ number_from 0 digits.now }
{
    let mut value = 0u64;
    for digit in digits {
        if !digit.is_ascii_digit() {
            return None;
        }
        value = 10 * value + u64::from(*digit - b'0');
        if value > u32::MAX as u64 {
            return None;
        }
    }
    Some(value as u32)
}
