//! The commands of a script: their words, their places and the forms of their further words.
//!
//! The word of a command is compared where it stands in its line, so that its end isn't looked for
//! before. Only where it is no fixed word, it is looked up among those that were added.

ghost use Rattle.std.specs.Prelude.{◌≡◌, ◌≤◌, [], ◌∷◌, length, cond, Some, None, option_map};
ghost use Rattle.script_model.specs.World.{same_bytes};
ghost use Rattle.script_model.specs.declared.Command.TheVariants as command_is;
ghost use Rattle.script_model.specs.Script.{command_named, command_among, own_named, command_word};
ghost use Rattle.script_model.specs.Script.{call_word, is_setup, call_forms, forms_of};
ghost use Rattle.script_text.specs.Syntax.{words_seen, IsSyntax, FindsSyntax, FindsSyntaxAt};
ghost use Rattle.script_text.specs.Words.{word_length, front_word};

use crate::digits::ends_at;
use crate::words::word_end;
use script_model::{CallName, Command, Form};

/// Whether the word that a text begins with is this one. It is always inlined: an ending is a
/// constant, and takes one comparison a byte then.
#[inline(always)]
fn goes_on(ending: &[u8], rest: &[u8]) -> bool
    requires { word_length ending.now ≡ length ending.now }
    ensures { result ≡ same_bytes ending.now (front_word rest.now) }
{
    if rest.len() < ending.len() {
        return false;
    }
    for i in 0..ending.len() {
        if ending[i] != rest[i] {
            return false;
        }
    }
    ends_at(rest, ending.len())
}

/// The syntax of a command: what its line must be like.
#[derive(Clone, Copy)]
pub(crate) struct Syntax {
    pub(crate) command: Command,
    /// How many bytes its word has.
    pub(crate) size: usize,
    /// The forms of the words after its own.
    pub(crate) forms: &'static [Form],
    /// Whether it stands before `boot`.
    pub(crate) sets_up: bool,
}

/// The syntax of a command. It is always inlined where the command's word was read:
/// a command is a constant there, and so is all of this.
#[inline(always)]
fn syntax_of(command: Command) -> Syntax
    ensures command { result.command ≡ command }
    ensures syntax { IsSyntax result }
{
    Syntax {
        command,
        size: word_size(command),
        forms: forms(command),
        sets_up: sets_up(command),
    }
}

/// The command of a word that is `b` and goes on as this text begins.
fn named_b(rest: &[u8]) -> Option<Syntax>
    ensures { FindsSyntax (command_named (98 ∷ front_word rest.now)) result }
{
    if goes_on(b"oot".as_slice(), rest) {
        Some(syntax_of(Command::Boot))
    } else if goes_on(b"ill".as_slice(), rest) {
        Some(syntax_of(Command::Call(CallName::Bill)))
    } else {
        None
    }
}

/// The command of a word that is `f` and goes on as this text begins.
fn named_f(rest: &[u8]) -> Option<Syntax>
    ensures { FindsSyntax (command_named (102 ∷ front_word rest.now)) result }
{
    if goes_on(b"rames".as_slice(), rest) {
        Some(syntax_of(Command::Frames))
    } else if goes_on(b"und".as_slice(), rest) {
        Some(syntax_of(Command::Call(CallName::Fund)))
    } else {
        None
    }
}

/// The command of a word that is `g` and goes on as this text begins.
fn named_g(rest: &[u8]) -> Option<Syntax>
    ensures { FindsSyntax (command_named (103 ∷ front_word rest.now)) result }
{
    if goes_on(b"rant".as_slice(), rest) {
        Some(syntax_of(Command::Grant))
    } else if goes_on(b"ive".as_slice(), rest) {
        Some(syntax_of(Command::Call(CallName::Give)))
    } else {
        None
    }
}

/// The command of a word that is `i` and goes on as this text begins.
fn named_i(rest: &[u8]) -> Option<Syntax>
    ensures { FindsSyntax (command_named (105 ∷ front_word rest.now)) result }
{
    if goes_on(b"mage".as_slice(), rest) {
        Some(syntax_of(Command::Image))
    } else if goes_on(b"nstall".as_slice(), rest) {
        Some(syntax_of(Command::Call(CallName::Install)))
    } else {
        None
    }
}

/// The command of a word that is `p` and goes on as this text begins.
fn named_p(rest: &[u8]) -> Option<Syntax>
    ensures { FindsSyntax (command_named (112 ∷ front_word rest.now)) result }
{
    if goes_on(b"eek".as_slice(), rest) {
        Some(syntax_of(Command::Call(CallName::Peek)))
    } else if goes_on(b"oke".as_slice(), rest) {
        Some(syntax_of(Command::Call(CallName::Poke)))
    } else if goes_on(b"atience".as_slice(), rest) {
        Some(syntax_of(Command::Patience))
    } else {
        None
    }
}

/// The command of a word that is `r` and goes on as this text begins.
fn named_r(rest: &[u8]) -> Option<Syntax>
    ensures { FindsSyntax (command_named (114 ∷ front_word rest.now)) result }
{
    if goes_on(b"ead".as_slice(), rest) {
        Some(syntax_of(Command::Call(CallName::Read)))
    } else if goes_on(b"aw".as_slice(), rest) {
        Some(syntax_of(Command::Raw))
    } else if goes_on(b"emove".as_slice(), rest) {
        Some(syntax_of(Command::Call(CallName::Remove)))
    } else {
        None
    }
}

/// The command of a word that is `s` and goes on as this text begins.
fn named_s(rest: &[u8]) -> Option<Syntax>
    ensures { FindsSyntax (command_named (115 ∷ front_word rest.now)) result }
{
    if goes_on(b"tep".as_slice(), rest) {
        Some(syntax_of(Command::Step))
    } else if goes_on(b"pawn".as_slice(), rest) {
        Some(syntax_of(Command::Call(CallName::Spawn)))
    } else if goes_on(b"ync".as_slice(), rest) {
        Some(syntax_of(Command::Call(CallName::Sync)))
    } else if goes_on(b"erve".as_slice(), rest) {
        Some(syntax_of(Command::Call(CallName::Serve)))
    } else if goes_on(b"read".as_slice(), rest) {
        Some(syntax_of(Command::Call(CallName::StreamRead)))
    } else if goes_on(b"write".as_slice(), rest) {
        Some(syntax_of(Command::Call(CallName::StreamWrite)))
    } else {
        None
    }
}

/// The command of a word that is `t` and goes on as this text begins.
fn named_t(rest: &[u8]) -> Option<Syntax>
    ensures { FindsSyntax (command_named (116 ∷ front_word rest.now)) result }
{
    if goes_on(b"ick".as_slice(), rest) {
        Some(syntax_of(Command::Tick))
    } else if goes_on(b"une".as_slice(), rest) {
        Some(syntax_of(Command::Call(CallName::Tune)))
    } else {
        None
    }
}

/// This call, where a word goes on as its word does.
#[inline(always)]
fn call_if(name: CallName, ending: &[u8], rest: &[u8]) -> Option<Syntax>
    requires { word_length ending.now ≡ length ending.now }
    ensures { FindsSyntax
        (cond (same_bytes ending.now (front_word rest.now)) (Some (command_is.Call name)) None)
        result }
{
    if goes_on(ending, rest) {
        Some(syntax_of(Command::Call(name)))
    } else {
        None
    }
}

/// The command of the word that begins with this byte and goes on as this text begins.
fn named_after(first: u8, rest: &[u8]) -> Option<Syntax>
    ensures { FindsSyntax (command_named (first ∷ front_word rest.now)) result }
{
    match first {
        b'b' => named_b(rest),
        b'c' => call_if(CallName::Close, b"lose".as_slice(), rest),
        b'd' => call_if(CallName::Default, b"efault".as_slice(), rest),
        b'e' => call_if(CallName::Exit, b"xit".as_slice(), rest),
        b'f' => named_f(rest),
        b'g' => named_g(rest),
        b'i' => named_i(rest),
        b'l' => call_if(CallName::Lock, b"ock".as_slice(), rest),
        b'o' => call_if(CallName::Open, b"pen".as_slice(), rest),
        b'p' => named_p(rest),
        b'r' => named_r(rest),
        b's' => named_s(rest),
        b't' => named_t(rest),
        b'u' => call_if(CallName::Unlock, b"nlock".as_slice(), rest),
        b'w' => call_if(CallName::Write, b"rite".as_slice(), rest),
        b'y' => call_if(CallName::Yield, b"ield".as_slice(), rest),
        _ => None,
    }
}

/// The command of the fixed word that a text begins with.
fn fixed(text: &[u8]) -> Option<Syntax>
    ensures { FindsSyntax (command_named (front_word text.now)) result }
{
    match text.split_first() {
        Some((first, rest)) => named_after(*first, rest),
        None => None,
    }
}

/// A word that a kernel designer adds to the fixed ones of scripts. A fixed word keeps its meaning,
/// and of several words with one name the first counts.
#[derive(Clone, Copy)]
pub struct OwnWord<'a> {
    /// The word itself. It is found only where it has no space and doesn't begin with `#`.
    pub name: &'a [u8],
    /// The call that it makes. Its line has the further words of this call.
    pub call: CallName,
}

/// No words but the fixed ones.
pub fn no_words() -> &'static [OwnWord<'static>]
    ensures { result.now ≡ [] }
{
    let none: &'static [OwnWord<'static>] = &[];
    none
}

/// The call of a word among these.
fn own_call(own: &[OwnWord<'_>], word: &[u8]) -> Option<CallName>
    ensures { option_map (λ name. command_is.Call name) result
        ≡ own_named (words_seen own.now) word.now }
{
    let Some((first, others)) = own.split_first() else {
        return None;
    };
    if first.name == word {
        return Some(first.call);
    }
    own_call(others, word)
}

/// The syntax of a call, whose word has so many bytes.
fn syntax_of_call(name: CallName, size: usize) -> Syntax
    ensures command { result.command ≡ command_is.Call name }
    ensures size { result.size ≡ size }
    ensures forms { result.forms.now ≡ forms_of (command_is.Call name) }
    ensures few { length result.forms.now ≤ 5 }
    ensures setup { result.sets_up ≡ is_setup (command_is.Call name) }
{
    Syntax {
        command: Command::Call(name),
        size,
        forms: forms_of_call(name),
        sets_up: false,
    }
}

/// The command of the word that a text begins with, if it is one of these.
#[inline(never)]
fn named_own(own: &[OwnWord<'_>], text: &[u8]) -> Option<Syntax>
    ensures { FindsSyntaxAt text.now (own_named (words_seen own.now) (front_word text.now)) result }
{
    let end = word_end(text);
    match own_call(own, &text[..end]) {
        Some(name) => Some(syntax_of_call(name, end)),
        None => None,
    }
}

/// The command of the word that a text begins with: a fixed word, or else one of these.
pub(crate) fn named(own: &[OwnWord<'_>], text: &[u8]) -> Option<Syntax>
    ensures { FindsSyntaxAt text.now
        (command_among (words_seen own.now) (front_word text.now)) result }
{
    match fixed(text) {
        Some(syntax) => Some(syntax),
        None => named_own(own, text),
    }
}

/// How many bytes the word of a system call has.
fn call_size(name: CallName) -> usize
    ensures { result ≡ length (call_word name) }
{
    match name {
        CallName::Exit
        | CallName::Sync
        | CallName::Open
        | CallName::Read
        | CallName::Lock
        | CallName::Poke
        | CallName::Peek
        | CallName::Tune
        | CallName::Give
        | CallName::Fund
        | CallName::Bill => 4,
        CallName::Spawn
        | CallName::Yield
        | CallName::Close
        | CallName::Write
        | CallName::Serve
        | CallName::StreamRead => 5,
        CallName::Unlock | CallName::Remove | CallName::StreamWrite => 6,
        CallName::Default | CallName::Install => 7,
    }
}

/// How many bytes the word of a command has.
pub(crate) fn word_size(command: Command) -> usize
    ensures { result ≡ length (command_word command) }
{
    match command {
        Command::Raw => 3,
        Command::Boot | Command::Tick | Command::Step => 4,
        Command::Grant | Command::Image => 5,
        Command::Frames => 6,
        Command::Patience => 8,
        Command::Call(name) => call_size(name),
    }
}

/// Whether a command stands before `boot`.
pub(crate) fn sets_up(command: Command) -> bool
    ensures { result ≡ is_setup command }
{
    match command {
        Command::Frames | Command::Patience | Command::Grant | Command::Boot => true,
        Command::Tick | Command::Step | Command::Raw | Command::Image | Command::Call(_) => false,
    }
}

/// The forms of the words of a system call, that of its process first.
fn forms_of_call(name: CallName) -> &'static [Form]
    ensures forms { result.now ≡ Form.Number ∷ call_forms name }
    ensures few { length result.now ≤ 5 }
{
    match name {
        CallName::Spawn | CallName::Exit | CallName::Yield | CallName::Sync => [
            Form::Number,
        ].as_slice(),
        CallName::Open => [Form::Number, Form::Text].as_slice(),
        CallName::Serve => [Form::Number, Form::Number, Form::Text].as_slice(),
        CallName::Read | CallName::StreamRead => [Form::Number; 5].as_slice(),
        CallName::Write | CallName::StreamWrite => {
            [
                Form::Number,
                Form::Number,
                Form::Number,
                Form::Number,
                Form::Text,
            ]
            .as_slice()
        }
        CallName::Tune | CallName::Install => [Form::Number; 4].as_slice(),
        CallName::Poke | CallName::Default => [Form::Number; 3].as_slice(),
        CallName::Give | CallName::Fund => {
            [Form::Number, Form::Number, Form::Amount, Form::Number].as_slice()
        }
        CallName::Close
        | CallName::Lock
        | CallName::Unlock
        | CallName::Peek
        | CallName::Remove
        | CallName::Bill => [Form::Number; 2].as_slice(),
    }
}

/// The forms of the words of a command after its own.
pub(crate) fn forms(command: Command) -> &'static [Form]
    ensures forms { result.now ≡ forms_of command }
    ensures few { length result.now ≤ 5 }
{
    match command {
        Command::Boot | Command::Tick | Command::Raw => [].as_slice(),
        Command::Frames | Command::Grant => [Form::Number].as_slice(),
        Command::Patience => [Form::ObjectKind, Form::Number].as_slice(),
        Command::Step => [Form::Number, Form::Number].as_slice(),
        Command::Image => [Form::Number, Form::Text].as_slice(),
        Command::Call(name) => forms_of_call(name),
    }
}
