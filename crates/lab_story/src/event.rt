//! Which lines of a script are events.

ghost use Rattle.std.specs.Prelude.{◌≡◌, ◌<◌, ◌-◌, ◌^◌};
ghost use Rattle.lab_story.specs.Events as spec;

use text_words::Parts;

/// The first word of a line.
fn first_word(line: &[u8]) -> &[u8]
    ensures { result.now ≡ spec.first_word line.now }
{
    match Parts::new(line, b' ').next() {
        Some(word) => word,
        None => [].as_slice(),
    }
}

/// Whether a word begins a line that stands before the events.
fn sets_up(word: &[u8]) -> bool
    ensures { result ≡ spec.sets_up word.now }
{
    word == b"frames".as_slice()
        || word == b"patience".as_slice()
        || word == b"grant".as_slice()
        || word == b"boot".as_slice()
}

/// Whether a line is empty, or a remark.
fn is_blank(line: &[u8]) -> bool
    ensures { result ≡ spec.is_blank line.now }
{
    line.is_empty() || line[0] == b'#'
}

/// Whether a line of a script is an event: not blank, and not one of those up to `boot`.
pub fn is_event(line: &[u8]) -> bool
    ensures { result ≡ spec.is_event line.now }
{
    !is_blank(line) && !sets_up(first_word(line))
}

/// How many events there are by the end of a line, of so many before it.
pub(crate) fn count_by(before: usize, line: &[u8]) -> usize
    requires { before < 2 ^ 64 - 1 }
    ensures { result ≡ spec.events_by before line.now }
{
    if is_event(line) { before + 1 } else { before }
}

/// How many lines of a script are events.
pub fn count_events(script: &[u8]) -> usize
    ensures { result ≡ spec.event_count script.now }
{
    let mut lines = Parts::new(script, b'\n');
    let mut count = 0;
    while let Some(line) = lines.next() {
        count = count_by(count, line);
    }
    count
}
