//! The lines of a text.

ghost use Rattle.std.specs.Prelude.{◌≡◌, ◌<◌, [], length};
ghost use Rattle.std.specs.List.{prefix_len, list_all};
ghost use Rattle.schedule.specs.Grammar.{is_in_line, without_cr, is_blank, is_skipped, begins_with_hash};
ghost use Rattle.schedule.specs.Reading.{line_at};

use crate::words::is_blank;

/// The first line of a text that isn't empty, without its end, and the text behind that end.
#[tactic(auto, unfolding(crate::specs::Reading::line_at))]
pub fn line_at(text: &[u8]) -> (&[u8], &[u8])
    ensures { (result.0.now, result.1.now) ≡ line_at text.now }
{
    let len = feed_at(text);
    if len == text.len() {
        return (text, &[]);
    }
    (without_cr(&text[..len]), &text[len + 1..])
}

/// How many bytes stand before the first line feed.
fn feed_at(text: &[u8]) -> usize
    ensures value { result ≡ prefix_len is_in_line text.now }
{
    text.iter().take_while(|byte| **byte != b'\n').count()
}

/// The line that stands before a line feed: a CR directly before it belongs to the line's end.
fn without_cr(line: &[u8]) -> &[u8]
    ensures { result.now ≡ without_cr line.now }
{
    let Some((last, front)) = line.split_last() else {
        return line;
    };
    if *last == b'\r' { front } else { line }
}

/// Whether the first byte of a line is `#`.
fn is_comment(line: &[u8]) -> bool
    ensures { result ≡ begins_with_hash line.now }
{
    line.first().is_some_and(|byte| *byte == b'#')
}

/// Whether a line has blanks alone.
fn is_blank_line(line: &[u8]) -> bool
    ensures { result ≡ list_all is_blank line.now }
{
    line.iter().all(|byte| is_blank(*byte))
}

/// Whether a line tells nothing: it is blank, or its first byte is `#`.
pub fn is_skipped(line: &[u8]) -> bool
    ensures { result ≡ is_skipped line.now }
{
    is_comment(line) || is_blank_line(line)
}
