//! `lab --help`, `lab help COMMAND`, and what is told of a wrong command line.

ghost use Rattle.std.specs.Prelude.{◌≡◌};

use crate::edge::{REFUSED, write_error, write_out};

/// What stands above the commands.
const HEAD: &[u8] =
    b"lab runs lab files: scripts for the simulated kernel, with grafts and wanted lines

";

const RUN: &[u8] = b"lab run FILE.. [--plain] [--raw-heads] [--disk PATH]
    prints each line with its number, and below it what it wrote, in words;
    the FILE - is standard input
    --plain      prints the written lines only, as `vino run` writes them
    --raw-heads  prints a head above each kind of row of `raw`
    --disk PATH  takes this file as the disk
";

const TEST: &[u8] = b"lab test FILE..
    compares the wanted lines of each file with those that its run writes
";

const GRADE: &[u8] = b"lab grade TASK SUBMISSION.. [--tap | --json]
    runs the tests of a task with the grafts of each submission, and grades it;
    docs/GRADE.md says how to write a task
    --tap        prints verdicts as TAP 14
    --json       prints a JSON object for each test and each submission
";

const MEASURE: &[u8] = b"lab measure FILE.. [--json | --csv]
    counts what a policy is judged by, a column for each file: calls, blocks
    found and read, evictions, waits, instructions, records, drops;
    docs/MEASURE.md says how each is counted
    --json       prints an object for each file
    --csv        prints comma-separated values
";

const SCORE: &[u8] = b"lab score TASK SUBMISSION..
    ranks submissions of a task, and the stock policy, by the figure of
    `lab measure` that the task names in its line `score least FIGURE` or
    `score most FIGURE`
";

const SCRIPT: &[u8] = b"lab script FILE [--key]
    prints the plain script of a lab file, for `vino run`
    --key        prints its key instead
";

const BOX: &[u8] = b"lab box FILE NAME
    prints the code of a graft, and beside it what runs in the sandbox
";

const WATCH: &[u8] = b"lab watch FILE
    prints the lines that the kernel writes and, between them, in lines that
    begin with a bar, every instruction of a graft, what it changes, what is
    held and what waits
";

const WHY: &[u8] = b"lab why FILE EVENT
    explains the lines of an event: the cause of a drop, a refusal or a wait,
    where the graft was, and how often
";

const AUDIT: &[u8] = b"lab audit FILE CLAIM
    compares the lines in the file CLAIM with what `vino run` writes for the
    script, by a second kernel; prints the first line that differs, and the
    right one
";

const PICTURE: &[u8] = b"lab picture FILE [--from N] [--to N]
    draws a timeline of the run as SVG, at most 2,000 events of it
    --from N     from this event on
    --to N       up to this event
";

const QUIZ: &[u8] = b"lab quiz FILE --seed N [--answers]
    prints a run to be predicted: the lines of the file, and below each what it
    wrote, with `?` for a third of the lines
    --seed N     a number up to 4,294,967,295; the same number, the same quiz
    --answers    prints all lines
";

const TRACE: &[u8] = b"lab trace FILE [--from N] [--to N]
    writes the run as JSON Lines, an object for each moment: what was written
    and what changed in the state; docs/TRACE.md explains each field
    --from N     from this moment on
    --to N       up to this moment
";

const EXPLAIN: &[u8] = b"lab explain CODE.. , lab explain --all
    explains codes, or a written line; with --all, prints the page of all codes
";

const HELP: &[u8] = b"lab help COMMAND , lab COMMAND --help
    explains a command, and the words that it takes
";

/// What stands below the commands.
const FOOT: &[u8] = b"lab --version

Statuses: 0 success; 1 a wanted line didn't come, a submission doesn't pass, or a
claim is wrong; 2 a refused file, line or command line; 3 an input that can't be
read; 4 failed output; 5 out of memory; 7 an input that is too long.
docs/LAB.md explains lab files.
";

/// What is said of a command; None where there is no such command.
fn said_of(command: &str) -> Option<&'static [u8]> {
    match command {
        "run" => Some(RUN),
        "test" => Some(TEST),
        "grade" => Some(GRADE),
        "measure" => Some(MEASURE),
        "score" => Some(SCORE),
        "script" => Some(SCRIPT),
        "box" => Some(BOX),
        "watch" => Some(WATCH),
        "why" => Some(WHY),
        "audit" => Some(AUDIT),
        "picture" => Some(PICTURE),
        "quiz" => Some(QUIZ),
        "trace" => Some(TRACE),
        "explain" => Some(EXPLAIN),
        "help" => Some(HELP),
        _ => None,
    }
}

/// What a command without options takes.
const NO_OPTIONS: &[&str] = &[];

/// The options of a command.
pub fn options_of(command: &str) -> &'static [&'static str] {
    match command {
        "run" => ["--plain", "--raw-heads", "--disk"].as_slice(),
        "script" => ["--key"].as_slice(),
        "grade" => ["--tap", "--json"].as_slice(),
        "measure" => ["--json", "--csv"].as_slice(),
        "quiz" => ["--seed", "--answers"].as_slice(),
        "picture" | "trace" => ["--from", "--to"].as_slice(),
        "explain" => ["--all"].as_slice(),
        _ => NO_OPTIONS,
    }
}

/// Writes what is said of all commands: the status.
pub fn help(rt: &HostRuntime) -> u8 {
    let mut status = 0;
    for part in [
        HEAD, RUN, TEST, GRADE, MEASURE, SCORE, SCRIPT, BOX, WATCH, WHY, AUDIT, PICTURE, QUIZ,
        TRACE, EXPLAIN, HELP, FOOT,
    ] {
        if status == 0 {
            status = write_out(rt, part, 0);
        }
    }
    status
}

/// Writes what is said of a command, or that there is none of this name: the status.
pub fn help_of(rt: &HostRuntime, command: &str) -> u8 {
    match said_of(command) {
        Some(said) => write_out(rt, said, 0),
        None => no_command(rt, command),
    }
}

/// Tells that a command is wanted: the status.
pub fn no_words(rt: &HostRuntime) -> u8 {
    write_error(rt, b"lab: a command is wanted; `lab --help` lists them\n");
    REFUSED
}

/// Tells that the events or moments asked for end before they begin: the status.
pub fn wrong_range(rt: &HostRuntime) -> u8
    ensures { result ≡ 2 }
{
    write_error(
        rt,
        b"lab: the number after --from is above the one after --to\n",
    );
    REFUSED
}

/// Tells that there is no command of this name: the status.
fn no_command(rt: &HostRuntime, name: &str) -> u8
    ensures { result ≡ 2 }
{
    write_error(rt, b"lab: there is no command '");
    write_error(rt, name.as_bytes());
    write_error(rt, b"'; `lab --help` lists them\n");
    REFUSED
}

/// Tells that a command has no such option, and what it takes; or that there is no such command:
/// the status.
pub fn wrong_option(rt: &HostRuntime, name: &str, option: &str) -> u8 {
    match said_of(name) {
        Some(said) => {
            let _ = eprintln!(rt; "lab: `lab {name}` has no option '{option}':");
            write_error(rt, said);
            REFUSED
        }
        None => no_command(rt, name),
    }
}

/// Tells what a command takes, since it doesn't take the words that stand behind it; or that there
/// is no such command: the status.
pub fn wrong_words(rt: &HostRuntime, name: &str) -> u8
    ensures { result ≡ 2 }
{
    match said_of(name) {
        Some(said) => {
            write_error(rt, b"lab: these words aren't what the command takes:\n");
            write_error(rt, said);
            REFUSED
        }
        None => no_command(rt, name),
    }
}
