//! What is said of codes, as text: of one, and the page of all of them.

ghost use Rattle.std.specs.Prelude.{◌≡◌, ◌++◌, OnOk, IfOk};
ghost use Rattle.lab_codes.specs.Rows as rows;

use crate::code::{CODES, Code, text_of};
use crate::entry::{page_of, words_of};
use crate::words::Words;
use script_model::NoMemory;
use std::alloc::Global;
use text_words::append;

/// The head of the page of all codes.
const PAGE_HEAD: &str = "# The codes in words

Every code and word with which the program refuses something or reports a dropped graft, and its \
exit statuses: what it means, the usual cause, the page that describes it, and a file that shows it. \
`lab explain CODE` prints one of them; `lab explain --all` prints this page.
";

#[tactic(auto, unfolding(crate::specs::Rows::part))]
/// Appends words and the text behind them.
fn append_part(out: &mut Vec<u8>, before: &[u8], text: &str) -> Result<(), NoMemory>
    ensures { OnOk result (out.new.items ≡ out.old.items ++ rows.part before.now text.now) }
{
    append(out, before)?;
    append(out, text.as_bytes())
}

/// Appends what a row says of its code, in lines.
fn append_explained(out: &mut Vec<u8>, code: Code, words: &Words) -> Result<(), NoMemory>
    ensures { OnOk result (out.new.items ≡ out.old.items ++ rows.explained code words.now) }
{
    append(out, text_of(code))?;
    append_part(out, b": ", words.meaning)?;
    append_part(out, b"\n  ", words.cause)?;
    append_part(out, b"\n  described in ", page_of(code))?;
    append_part(out, b"\n  shown by ", words.example)?;
    append(out, b"\n")?;
    Ok(())
}

/// What is said of a code, in lines: its meaning, its usual cause, its page and a file that shows it.
pub fn explanation(alloc: Global, code: Code) -> Result<Vec<u8>, NoMemory>
    ensures { IfOk result (λ text. rows.Explains code text.items) }
{
    let mut out = Vec::new(alloc);
    append_explained(&mut out, code, words_of(code))?;
    Ok(out)
}

/// The title of the section of a code.
fn title_of(code: Code) -> &'static str {
    match code {
        Code::Script(_) => "Refused lines of a script",
        Code::Call(_) => "Refused calls",
        Code::Drop(_) => "Dropped grafts",
        Code::Image(_) => "Refused images",
        Code::Assembler(_) => "Refused lines of assembler text",
        Code::Language(_) => "Refused lines of the graft language",
        Code::Rewriter(_) => "Raw code that can't be boxed",
        Code::Input(_) => "Refused input of `box`, `check`, `reseal`, `dis` and `audit`",
        Code::Status(_) => "How the program ends",
    }
}

/// Appends the head of a section: its title, where its codes are described, and the head of a table.
fn append_section(out: &mut Vec<u8>, code: Code) -> Result<(), NoMemory> {
    append(out, b"\n## ")?;
    append(out, title_of(code).as_bytes())?;
    append(out, b"\n\nDescribed in ")?;
    append(out, page_of(code).as_bytes())?;
    append(
        out,
        b".\n\n| code | means | usual cause | shown by |\n|---|---|---|---|\n",
    )
}

/// Appends the row of a code.
fn append_row(out: &mut Vec<u8>, code: Code) -> Result<(), NoMemory> {
    let words = words_of(code);
    append(out, b"| `")?;
    append(out, text_of(code))?;
    append(out, b"` | ")?;
    append(out, words.meaning.as_bytes())?;
    append(out, b" | ")?;
    append(out, words.cause.as_bytes())?;
    append(out, b" | ")?;
    append(out, words.example.as_bytes())?;
    append(out, b" |\n")
}

/// The page of all codes, in Markdown: `docs/CODES.md`.
pub fn codes_page(alloc: Global) -> Result<Vec<u8>, NoMemory> {
    let mut out = Vec::new(alloc);
    append(&mut out, PAGE_HEAD.as_bytes())?;
    let mut title = "";
    for code in &CODES {
        if title_of(*code) != title {
            title = title_of(*code);
            append_section(&mut out, *code)?;
        }
        append_row(&mut out, *code)?;
    }
    Ok(out)
}
