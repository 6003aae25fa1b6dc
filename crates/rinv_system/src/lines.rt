//! The lines of a text, and what stands on each.

ghost use Rattle.std.specs.Prelude.{◌≡◌, ◌^◌, ◌-◌, ◌<◌, ◌≤◌, ◌==◌, ◌∷◌, ◌||◌, not, take, drop, length, IsTrue};
ghost use Rattle.std.specs.List.{list_all, position, position_or_len, take_while};
ghost use Rattle.rinv_system.specs.Lines.{lines_of, without_return, is_allowed, is_blank, is_bad_line, first_bad_line, from_word, to_last_word, before_comment, content_of};

fn place_of(byte: u8, bytes: &[u8]) -> Option<usize>
    ensures { result ≡ position (λ b. b == byte) bytes.now }
{
    bytes.iter().position(|b| *b == byte)
}

/// How many bytes stand before the first such byte, or the whole length.
pub fn len_before(bytes: &[u8], byte: u8) -> usize
    ensures before { result ≡ position_or_len (λ b. b == byte) bytes.now }
    ensures within { result ≤ length bytes.now }
{
    place_of(byte, bytes).unwrap_or(bytes.len())
}

/// The first line of a text that is not empty, without its line feed, and what follows it.
pub fn first_line(text: &[u8]) -> (&[u8], &[u8])
    requires { length text.now ≡ 0 → ⊥ }
    ensures lines { lines_of text.now ≡ result.0.now ∷ lines_of result.1.now }
    ensures shorter { length result.1.now < length text.now }
{
    let (line, rest) = text.split_at(len_before(text, b'\n'));
    match rest.split_first() {
        Some((_, following)) => (line, following),
        None => (line, rest),
    }
}

fn without_return(line: &[u8]) -> &[u8]
    ensures { result.now ≡ without_return line.now }
{
    let Some((last, front)) = line.split_last() else {
        return line;
    };
    if *last == b'\r' { front } else { line }
}

fn is_allowed(byte: u8) -> bool
    ensures { result ≡ is_allowed byte }
{
    matches!(byte, b'\t' | b' '..=b'~')
}

fn are_allowed(bytes: &[u8]) -> bool
    ensures { result ≡ list_all is_allowed bytes.now }
{
    bytes.iter().all(|b| is_allowed(*b))
}

fn is_blank(byte: u8) -> bool
    ensures { result ≡ is_blank byte }
{
    matches!(byte, b' ' | b'\t')
}

fn word_place(bytes: &[u8]) -> Option<usize>
    ensures { result ≡ position (λ b. not (is_blank b)) bytes.now }
{
    bytes.iter().position(|b| !is_blank(*b))
}

// How many blanks stand in front.
fn blanks_before(bytes: &[u8]) -> usize
    ensures before { result ≡ position_or_len (λ b. not (is_blank b)) bytes.now }
    ensures within { result ≤ length bytes.now }
{
    word_place(bytes).unwrap_or(bytes.len())
}

// How many bytes stand before the first blank, or the whole length.
pub(crate) fn word_len(bytes: &[u8]) -> usize
    ensures before { result ≡ position_or_len is_blank bytes.now }
    ensures within { result ≤ length bytes.now }
{
    blank_place(bytes).unwrap_or(bytes.len())
}

fn blank_place(bytes: &[u8]) -> Option<usize>
    ensures { result ≡ position is_blank bytes.now }
{
    bytes.iter().position(|b| is_blank(*b))
}

// Without blanks in front.
pub(crate) fn from_word(bytes: &[u8]) -> &[u8]
    ensures { result.now ≡ from_word bytes.now }
{
    bytes.split_at(blanks_before(bytes)).1
}

/// Without blanks at the end.
pub fn to_last_word(bytes: &[u8]) -> &[u8]
    ensures { result.now ≡ to_last_word bytes.now }
{
    let mut front = bytes;
    while let Some((last, rest)) = front.split_last() {
        if !is_blank(*last) {
            return front;
        }
        front = rest;
    }
    front
}

fn before_comment(line: &[u8]) -> &[u8]
    ensures { result.now ≡ before_comment line.now }
{
    line.split_at(len_before(line, b'#')).0
}

/// What comes before the comment of a line, without blanks at both ends.
pub fn content(line: &[u8]) -> &[u8]
    ensures { result.now ≡ content_of line.now }
{
    to_last_word(from_word(before_comment(without_return(line))))
}

/// Bytes that are allowed as text.
pub fn ascii_text(bytes: &[u8]) -> &str
    requires { IsTrue (list_all is_allowed bytes.now) }
    ensures { result.now ≡ bytes.now }
{
    match str::from_utf8(bytes) {
        Ok(text) => text,
        Err(_) => unreachable!(),
    }
}

/// The number of the first line with a byte that is not allowed.
pub fn first_bad_line(text: &[u8]) -> Option<u32>
    requires { length text.now < 2 ^ 32 - 1 }
    ensures { result ≡ first_bad_line text.now }
{
    let mut rest = text;
    let mut number = 1;
    while !rest.is_empty() {
        let (line, following) = first_line(rest);
        if !are_allowed(without_return(line)) {
            return Some(number);
        }
        rest = following;
        number += 1;
    }
    None
}
