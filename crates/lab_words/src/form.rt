//! The forms of the lines that the program writes.

ghost use Rattle.std.specs.Prelude.{◌≡◌, ◌==◌, ◌++◌, ◌&&◌, List, [], Some, IfSome, is_some, find};
ghost use Rattle.lab_words.specs.declared.slot.Slot.{Slot};
ghost use Rattle.lab_words.specs.Forms as spec;

use crate::beside::{words_before, words_behind};
use crate::slot::{Slot, Verb, is_number, slot_fits};
use lab_codes::{CODES, Code, RewriterCode, text_of};
use text_words::Parts;

/// The form of a line. The words beside it are those of `docs/FORMATS.md`.
#[derive(Clone, Copy, Debug, PartialEq, Eq)]
pub enum Form {
    /// `0 boot F B K`.
    Booted,
    /// `N tick T`.
    Ticked,
    /// `m ok`.
    Done,
    /// `m ok A`.
    Answered,
    /// `N ok A B`: an image.
    Loaded,
    /// `m data`.
    GaveNothing,
    /// `m data HEX`.
    Gave,
    /// `N ran K`.
    Ran,
    /// `m waits OBJ H`.
    Waits,
    /// `m graft Q PT D`.
    InGraft,
    /// `left P M`.
    Left,
    /// The line of a code: of a refusal or a drop.
    Coded(Code),
}

/// The forms without a code.
pub const PLAIN_FORMS: [Form; 11] = [
    Form::Booted,
    Form::Ticked,
    Form::Done,
    Form::Answered,
    Form::Loaded,
    Form::GaveNothing,
    Form::Gave,
    Form::Ran,
    Form::Waits,
    Form::InGraft,
    Form::Left,
];

/// Takes as many words as there are slots, where each may stand in its slot.
fn take_words(slots: &[Slot], words: &mut Parts) -> bool
    ensures { (more : List Slot) → spec.words_fit (slots.now ++ more) words.old
        ≡ (result && spec.words_fit more words.new) }
{
    for slot in slots {
        match words.next() {
            None => return false,
            Some(word) => {
                if !slot_fits(*slot, word) {
                    return false;
                }
            }
        }
    }
    true
}

/// Whether no word is left.
fn is_end(words: &mut Parts) -> bool
    ensures { result ≡ spec.words_fit [] words.old }
{
    words.next().is_none()
}

/// Whether the words that are left are as many as the slots, and each may stand in its slot.
fn take_last(slots: &[Slot], words: &mut Parts) -> bool
    ensures { result ≡ spec.words_fit slots.now words.old }
{
    if !take_words(slots, words) {
        return false;
    }
    is_end(words)
}

/// Whether a line has these words.
fn has_words(line: &[u8], slots: &[Slot]) -> bool
    ensures { result ≡ spec.words_fit slots.now (spec.words_of_line line.now) }
{
    let mut words = Parts::new(line, b' ');
    take_last(slots, &mut words)
}

/// Whether a line is one of this code.
fn has_code(line: &[u8], code: Code) -> bool
    ensures { result ≡ spec.line_fits line.now (Form.Coded code) }
{
    let mut words = Parts::new(line, b' ');
    if !take_words(words_before(code), &mut words) {
        return false;
    }
    if !take_words([Slot::CodeText(code)].as_slice(), &mut words) {
        return false;
    }
    take_last(words_behind(code), &mut words)
}

/// Whether a line has a form.
fn has_form(line: &[u8], form: Form) -> bool
    ensures { result ≡ spec.line_fits line.now form }
{
    const N: Slot = Slot::Number;
    match form {
        Form::Booted => has_words(line, &[N, Slot::Said(Verb::Boot), N, N, N]),
        Form::Ticked => has_words(line, &[N, Slot::Said(Verb::Tick), N]),
        Form::Done => has_words(line, &[N, Slot::Said(Verb::Done)]),
        Form::Answered => has_words(line, &[N, Slot::Said(Verb::Done), N]),
        Form::Loaded => has_words(line, &[N, Slot::Said(Verb::Done), N, N]),
        Form::GaveNothing => has_words(line, &[N, Slot::Said(Verb::Data)]),
        Form::Gave => has_words(line, &[N, Slot::Said(Verb::Data), Slot::HexDigits]),
        Form::Ran => has_words(line, &[N, Slot::Said(Verb::Ran), N]),
        Form::Waits => has_words(line, &[N, Slot::Said(Verb::Waits), Slot::ObjectName, N]),
        Form::InGraft => has_words(line, &[N, Slot::Said(Verb::Graft), N, N, N]),
        Form::Left => has_words(line, &[Slot::Said(Verb::Left), N, N]),
        Form::Coded(code) => has_code(line, code),
    }
}

/// The second word of a line; nothing where it has one word.
fn second_word(line: &[u8]) -> &[u8]
    ensures { result.now ≡ spec.second_word line.now }
{
    let mut words = Parts::new(line, b' ');
    let _ = words.next();
    match words.next() {
        Some(word) => word,
        None => [].as_slice(),
    }
}

/// Whether the second word of a line may be that of a line of this code.
fn may_have_code(second: &[u8], code: Code) -> bool
    ensures { result ≡ spec.second_fits (spec.words_of_form (Form.Coded code)) second.now }
{
    match code {
        Code::Script(_) | Code::Assembler(_) | Code::Language(_) => is_number(second),
        Code::Call(_) | Code::Image(_) => text_of(code) == second,
        Code::Drop(_) => b"drop".as_slice() == second,
        Code::Rewriter(RewriterCode::End) | Code::Rewriter(RewriterCode::TooLarge) => true,
        Code::Rewriter(_) => is_number(second),
        Code::Input(_) | Code::Status(_) => true,
    }
}

/// Whether the second word of a line may be that of a line of this form.
fn may_have_form(second: &[u8], form: Form) -> bool
    ensures { result ≡ spec.second_fits (spec.words_of_form form) second.now }
{
    match form {
        Form::Booted => b"boot".as_slice() == second,
        Form::Ticked => b"tick".as_slice() == second,
        Form::Done | Form::Answered | Form::Loaded => b"ok".as_slice() == second,
        Form::GaveNothing | Form::Gave => b"data".as_slice() == second,
        Form::Ran => b"ran".as_slice() == second,
        Form::Waits => b"waits".as_slice() == second,
        Form::InGraft => b"graft".as_slice() == second,
        Form::Left => is_number(second),
        Form::Coded(code) => may_have_code(second, code),
    }
}

#[tactic(auto, using(crate::proofs::Fits::unfit))]
/// Whether a line with this second word has a form.
fn has_form_at(line: &[u8], second: &[u8], form: Form) -> bool
    requires { second.now ≡ spec.second_word line.now }
    ensures { result ≡ spec.line_fits line.now form }
{
    may_have_form(second, form) && has_form(line, form)
}

#[tactic(auto, using(crate::proofs::Fits::unfit))]
/// Whether a line with this second word is one of a code.
fn has_code_at(line: &[u8], second: &[u8], code: Code) -> bool
    requires { second.now ≡ spec.second_word line.now }
    ensures { result ≡ spec.line_fits line.now (Form.Coded code) }
{
    may_have_code(second, code) && has_code(line, code)
}

/// The first of these forms that a line has. Most are ruled out by its second word.
fn find_form(forms: &[Form], line: &[u8]) -> Option<Form>
    ensures { result ≡ find (spec.line_fits line.now) forms.now }
{
    let second = second_word(line);
    for form in forms {
        if has_form_at(line, second, *form) {
            return Some(*form);
        }
    }
    None
}

/// The first of these codes whose line it is. Most are ruled out by its second word.
fn find_coded(codes: &[Code], line: &[u8]) -> Option<Code>
    ensures { result ≡ find (λ c. spec.line_fits line.now (Form.Coded c)) codes.now }
{
    let second = second_word(line);
    for code in codes {
        if has_code_at(line, second, *code) {
            return Some(*code);
        }
    }
    None
}

/// The form of a line without its newline, if it has one.
pub fn form_of(line: &[u8]) -> Option<Form>
    ensures { result ≡ spec.form_of line.now }
{
    match find_form(&PLAIN_FORMS, line) {
        Some(form) => Some(form),
        None => match find_coded(&CODES, line) {
            Some(code) => Some(Form::Coded(code)),
            None => None,
        },
    }
}

/// Whether lines of a form are told in words: not those that say it themselves.
pub fn form_is_told(form: Form) -> bool
    ensures { result ≡ spec.form_is_told form }
{
    match form {
        Form::Ticked | Form::Done | Form::Answered | Form::GaveNothing | Form::Gave => false,
        Form::Booted
        | Form::Loaded
        | Form::Ran
        | Form::Waits
        | Form::InGraft
        | Form::Left
        | Form::Coded(_) => true,
    }
}

/// The form of a line without its newline, if it has one whose lines are told in words.
pub fn told_form(line: &[u8]) -> Option<Form>
    ensures told { is_some result ≡ spec.is_told (spec.form_of line.now) }
    ensures form { IfSome result (λ f. spec.form_of line.now ≡ Some f) }
{
    match form_of(line) {
        Some(form) if form_is_told(form) => Some(form),
        _ => None,
    }
}
