//! Where the words of a line stand.

ghost use Rattle.std.specs.Prelude.{◌≡◌, ◌≤◌, ◌+◌, ◌-◌, ◌^◌, ◌==◌, length, not, count_by, position, slice_range, min};
ghost use Rattle.std.specs.List.{position_or_len};
ghost use Rattle.lab_places.specs.Places as spec;

/// The first byte of a word, and the first behind it.
#[derive(Clone, Copy, PartialEq, Eq, Debug)]
pub struct Span {
    pub from: usize,
    pub to: usize,
}

/// A byte between words.
fn is_space(byte: u8) -> bool
    ensures { result ≡ spec.is_space byte }
{
    byte == b' ' || byte == b'\t' || byte == b'\r'
}

/// The bytes of a line from one place to another, and none past its end.
fn stretch(line: &[u8], from: usize, end: usize) -> &[u8]
    ensures bytes { result.now ≡ slice_range line.now from (min end (length line.now)) }
    ensures within { from + length result.now ≤ 2 ^ 64 - 1 }
{
    let end = end.min(line.len());
    if from < end { &line[from..end] } else { &[] }
}

/// The first byte that is no space.
fn find_sign(bytes: &[u8]) -> Option<usize>
    ensures { result ≡ position (λ b. not (spec.is_space b)) bytes.now }
{
    bytes.iter().position(|b| !is_space(*b))
}

/// How many spaces some bytes begin with.
fn count_spaces(bytes: &[u8]) -> usize
    ensures value { result ≡ position_or_len (λ b. not (spec.is_space b)) bytes.now }
    ensures within { result ≤ length bytes.now }
{
    match find_sign(bytes) {
        Some(at) => at,
        None => bytes.len(),
    }
}

/// The first space.
fn find_space(bytes: &[u8]) -> Option<usize>
    ensures { result ≡ position spec.is_space bytes.now }
{
    bytes.iter().position(|b| is_space(*b))
}

/// How many bytes stand before the first space.
fn count_signs(bytes: &[u8]) -> usize
    ensures value { result ≡ position_or_len spec.is_space bytes.now }
    ensures within { result ≤ length bytes.now }
{
    match find_space(bytes) {
        Some(at) => at,
        None => bytes.len(),
    }
}

/// The first `;`.
fn find_part_end(bytes: &[u8]) -> Option<usize>
    ensures { result ≡ position (λ b. b == 59) bytes.now }
{
    bytes.iter().position(|b| *b == b';')
}

/// How many bytes stand before the first `;`.
fn count_part(bytes: &[u8]) -> usize
    ensures value { result ≡ position_or_len (λ b. b == 59) bytes.now }
    ensures within { result ≤ length bytes.now }
{
    match find_part_end(bytes) {
        Some(at) => at,
        None => bytes.len(),
    }
}

/// The first place from `from` on, before `end`, where a byte is no space.
fn word_begin(line: &[u8], from: usize, end: usize) -> usize
    ensures { result ≡ spec.word_begin line.now from end }
{
    from + count_spaces(stretch(line, from, end))
}

/// The first place from `from` on, before `end`, where a byte is a space.
fn space_from(line: &[u8], from: usize, end: usize) -> usize
    ensures { result ≡ spec.first_place spec.is_space line.now from end }
{
    from + count_signs(stretch(line, from, end))
}

/// The next word from this place on, before `end`.
pub fn next_word(line: &[u8], from: usize, end: usize) -> Option<Span>
    ensures { result ≡ spec.next_word line.now from end }
{
    let from = word_begin(line, from, end);
    let to = space_from(line, from, end);
    if from < to {
        Some(Span { from, to })
    } else {
        None
    }
}

/// Word k of the part of a line from `from` to `end`, counted from 0.
pub fn word_span(line: &[u8], from: usize, end: usize, k: usize) -> Option<Span>
    ensures { result ≡ spec.word_number line.now from end k }
{
    let mut word = next_word(line, from, end);
    for _ in 0..k {
        word = word_behind(line, end, word);
    }
    word
}

/// The next word behind another, before `end`, if there are both.
fn word_behind(line: &[u8], end: usize, word: Option<Span>) -> Option<Span>
    ensures { result ≡ spec.word_behind line.now end word }
{
    next_word(line, word?.to, end)
}

/// The bytes of a word.
pub fn bytes_of(line: &[u8], word: Span) -> &[u8]
    ensures { (word.from ≤ word.to) → (word.to ≤ length line.now) →
        result.now ≡ spec.bytes_of line.now word }
{
    if word.from <= word.to && word.to <= line.len() {
        &line[word.from..word.to]
    } else {
        &[]
    }
}

/// Where the remark of a line begins, or its end.
pub fn code_end(line: &[u8]) -> usize {
    let mut at = 0;
    for _ in 0..line.len() {
        match next_word(line, at, line.len()) {
            None => return line.len(),
            Some(word) => {
                if bytes_of(line, word).starts_with(b"#") {
                    return word.from;
                }
                at = word.to;
            }
        }
    }
    line.len()
}

/// How many characters begin among some bytes.
fn count_characters(bytes: &[u8]) -> usize
    ensures { result ≡ count_by spec.begins_character bytes.now }
{
    bytes.iter().filter(|b| **b & 0xc0 != 0x80).count()
}

/// The column of a place, counted from 1 in characters.
pub fn column_of(line: &[u8], at: usize) -> usize
    ensures { result ≡ spec.column line.now at }
{
    count_characters(&line[..at.min(line.len())]) + 1
}

/// The part of a line up to the next `;` from this place on, before `end`.
pub fn next_part(line: &[u8], from: usize, end: usize) -> Span
    ensures { result ≡ spec.next_part line.now from end }
{
    let to = from + count_part(stretch(line, from, end));
    Span { from, to }
}
