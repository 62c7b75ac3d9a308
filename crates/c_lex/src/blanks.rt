//! White space and comments.

ghost use Rattle.std.specs.Prelude.{◌≡◌, IfSome};
ghost use Rattle.std.specs.Option.{option_copied};
ghost use Rattle.c_lex.specs.Blanks.{is_blank, IsGap};
ghost use Rattle.c_lex.specs.Reading.{after_line_end, after_star_slash, after_close, in_line, from_line_end, after_comment, after_gap};

/// A blank that doesn't end a line.
fn is_blank(byte: u8) -> bool
    ensures { result ≡ is_blank byte }
{
    matches!(byte, b' ' | b'\t' | 0x0b | 0x0c | b'\r')
}

/// The text behind a line's end, LF or CR LF.
#[tactic(auto, unfolding(crate::specs::Reading::after_line_end))]
fn after_line_end(text: &[u8]) -> Option<&[u8]>
    ensures { option_copied result ≡ after_line_end text.now }
{
    match text {
        [b'\n', rest @ ..] | [b'\r', b'\n', rest @ ..] => Some(rest),
        _ => None,
    }
}

/// The text behind `*/`.
#[tactic(auto, unfolding(crate::specs::Reading::after_star_slash))]
fn after_star_slash(text: &[u8]) -> Option<&[u8]>
    ensures { option_copied result ≡ after_star_slash text.now }
{
    match text {
        [b'*', b'/', rest @ ..] => Some(rest),
        _ => None,
    }
}

/// The text behind the first `*/`.
fn after_close(text: &[u8]) -> Option<&[u8]>
    ensures { option_copied result ≡ after_close text.now }
{
    let mut rest = text;
    'close: while let Some((_, behind)) = rest.split_first() {
        if let Some(end) = after_star_slash(rest) {
            return Some(end);
        }
        rest = behind;
    }
    None
}

/// The text behind a joined line, or behind one byte that doesn't end its line.
#[tactic(auto, unfolding(crate::specs::Reading::in_line))]
fn in_line(text: &[u8]) -> Option<&[u8]>
    ensures { option_copied result ≡ in_line text.now }
{
    match text {
        [] | [b'\n', ..] => None,
        [b'\\', b'\n', rest @ ..] | [b'\\', b'\r', b'\n', rest @ ..] => Some(rest),
        [_, rest @ ..] => Some(rest),
    }
}

/// The text from the first line's end on that isn't joined.
fn from_line_end(text: &[u8]) -> &[u8]
    ensures { result.now ≡ from_line_end text.now }
{
    let mut rest = text;
    'line: while let Some(next) = in_line(rest) {
        rest = next;
    }
    rest
}

/// The text behind a comment, of which the first `/` is taken.
#[tactic(auto, unfolding(crate::specs::Reading::after_comment))]
fn after_comment(text: &[u8]) -> Option<&[u8]>
    ensures { option_copied result ≡ after_comment text.now }
{
    match text {
        [b'*', rest @ ..] => after_close(rest),
        [b'/', rest @ ..] => Some(from_line_end(rest)),
        _ => None,
    }
}

/// The text behind one blank, joined line or comment.
pub fn after_gap(text: &[u8]) -> Option<&[u8]>
    ensures reads { option_copied result ≡ after_gap text.now }
    ensures gap { IfSome result (λ rest. IsGap text.now rest.now) }
{
    gap_end(text)
}

#[tactic(auto, unfolding(crate::specs::Reading::after_gap))]
fn gap_end(text: &[u8]) -> Option<&[u8]>
    ensures { option_copied result ≡ after_gap text.now }
{
    match text {
        [first, rest @ ..] if is_blank(*first) => Some(rest),
        [b'\\', rest @ ..] => after_line_end(rest),
        [b'/', rest @ ..] => after_comment(rest),
        _ => None,
    }
}
