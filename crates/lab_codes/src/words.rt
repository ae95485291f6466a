//! What is said of each code: its meaning, its usual cause, and a file that shows it.
//!
//! The rows of a table are in the order of the variants of their enum.

/// What is said of a code.
#[derive(Clone, Copy)]
pub struct Words {
    /// The code, as it is written.
    pub code: &'static str,
    /// What it means. For a dropped graft: what the graft did.
    pub meaning: &'static str,
    /// The usual cause, and what helps.
    pub cause: &'static str,
    /// A file that shows it.
    pub example: &'static str,
}

pub(crate) const SCRIPT: [Words; 6] = [
    Words {
        code: "S1",
        meaning: "wrong number of words, an empty word, or an unknown kind",
        cause: "A word is missing or there is one too many, two spaces follow each other or one \
            ends the line, or `steps`, `records`, `locks` or the name of an object is misspelled.",
        example: "examples/labs/script-words.lab",
    },
    Words {
        code: "S2",
        meaning: "a word isn't a number, hex or name as required, or is out of range",
        cause: "Numbers are decimal, at most 4,294,967,295; hex has an even number of digits; \
            names have lower-case letters; `frames` is 2 to 64 and `patience` 1 to 1,000. If lines \
            end with CR LF, the last word contains the CR.",
        example: "examples/labs/script-numbers.lab",
    },
    Words {
        code: "S3",
        meaning: "the line has more than 65,536 bytes",
        cause: "Newlines are missing, or the input isn't a script.",
        example: "cases/lines.case",
    },
    Words {
        code: "S4",
        meaning: "the line belongs on the other side of `boot`",
        cause: "`frames`, `patience` and `grant` come before `boot`, which occurs once; everything \
            else comes after it.",
        example: "examples/labs/script-place.lab",
    },
    Words {
        code: "S5",
        meaning: "the first word isn't a command",
        cause: "It is misspelled or has a capital letter, or the line begins with a space.",
        example: "examples/labs/script-command.lab",
    },
    Words {
        code: "S6",
        meaning: "the input ends without a newline",
        cause: "The last line was cut off, or has no newline.",
        example: "cases/lines.case",
    },
];

pub(crate) const CALL: [Words; 18] = [
    Words {
        code: "E1",
        meaning: "no such process",
        cause: "At first only process 0 is alive. `spawn` makes the others, and `exit` ends them.",
        example: "examples/labs/processes.lab",
    },
    Words {
        code: "E2",
        meaning: "the process has a call in flight",
        cause: "Its call waits or runs a graft. `step` runs the graft, and enough `tick`s end any \
            wait; then the process can call again.",
        example: "examples/labs/busy.lab",
    },
    Words {
        code: "E3",
        meaning: "the process may not do this",
        cause: "Process 0 can't exit, and no other process may tune or choose policies.",
        example: "examples/labs/policies.lab",
    },
    Words {
        code: "E4",
        meaning: "no such point, kind or policy",
        cause: "Points are 0 to 15, kinds of policies 0 to 2. Kind 0 has the policies 0 to 2, the \
            others 0 and 1.",
        example: "examples/labs/policies.lab",
    },
    Words {
        code: "E5",
        meaning: "the descriptor isn't open",
        cause: "Descriptors are 0 to 3, and each process has its own. `open` returns the one that \
            it took.",
        example: "examples/labs/files.lab",
    },
    Words {
        code: "E6",
        meaning: "no such file",
        cause: "The directory has no usable file of that name. The sample disk has `alpha`, `beta` \
            and `gamma`.",
        example: "examples/labs/files.lab",
    },
    Words {
        code: "E7",
        meaning: "four files are open",
        cause: "A process has four descriptors. `close` frees one.",
        example: "examples/labs/files.lab",
    },
    Words {
        code: "E8",
        meaning: "a number is out of its range",
        cause: "Cells are 0 to 3, ports 0 to 7, user locks 0 to 15, slots 0 to 31; a limit and the \
            number of `step` are 1 to 65,536; offset and length together are at most 512; block \
            and bytes must lie in the file; each policy has the range of its parameter.",
        example: "examples/labs/ranges.lab",
    },
    Words {
        code: "E9",
        meaning: "no such image",
        cause: "No `image` line loaded that slot, or the image was refused with an L code.",
        example: "examples/labs/slots.lab",
    },
    Words {
        code: "E10",
        meaning: "the slot or the point is taken",
        cause: "The slot has an image, which stays; or the point has a graft, and `remove` removes \
            it.",
        example: "examples/labs/slots.lab",
    },
    Words {
        code: "E11",
        meaning: "the point has no graft",
        cause: "No graft was installed, or it was removed or dropped: a dropped graft is removed.",
        example: "examples/labs/slots.lab",
    },
    Words {
        code: "E12",
        meaning: "the process has too little",
        cause: "The process has less than this amount. The number after the code is what it has.",
        example: "examples/labs/amounts.lab",
    },
    Words {
        code: "E13",
        meaning: "sixteen processes live",
        cause: "There is no room for another. `exit` makes room.",
        example: "examples/labs/processes.lab",
    },
    Words {
        code: "E14",
        meaning: "the process holds the lock",
        cause: "It took the user lock before. A process can't take a lock twice.",
        example: "examples/labs/locks.lab",
    },
    Words {
        code: "E15",
        meaning: "the process doesn't hold the lock",
        cause: "It never took the user lock, or has freed it.",
        example: "examples/labs/locks.lab",
    },
    Words {
        code: "E16",
        meaning: "the disk failed",
        cause: "A disk call read or wrote less than a block. `0 E16` means that block 0 couldn't \
            be read: the file at PATH can't be opened for reading and writing, or has no whole \
            block.",
        example: "examples/labs/disk-fails.lab",
    },
    Words {
        code: "E17",
        meaning: "it waited too long",
        cause: "Another process held the user lock for as many ticks as a call waits for one: 10, \
            unless `patience lock` sets another number.",
        example: "examples/labs/locks.lab",
    },
    Words {
        code: "E18",
        meaning: "the port has eight handlers already",
        cause: "Points 6 to 13 are the points of the ports 0 to 7, and at most eight processes can \
            have a graft at one of them. `remove` makes room.",
        example: "examples/labs/port-full.lab",
    },
];

pub(crate) const DROP: [Words; 13] = [
    Words {
        code: "C1",
        meaning: "divided by zero",
        cause: "`divu` or `remu` had a divisor of 0.",
        example: "examples/labs/divide.lab",
    },
    Words {
        code: "C2",
        meaning: "trapped",
        cause: "It executed a `trap`, by which code ends itself. The number after the code is the \
            trap's.",
        example: "examples/labs/trap.lab",
    },
    Words {
        code: "C3",
        meaning: "called an id that isn't callable",
        cause: "`callr` had a register above 15. The number after the code is the id.",
        example: "examples/labs/unknown-call.lab",
    },
    Words {
        code: "C4",
        meaning: "called with a bad argument",
        cause: "r0, r1 or r2 is out of range for the callable, or the descriptor isn't open. The \
            number after the code is the id.",
        example: "examples/labs/bad-argument.lab",
    },
    Words {
        code: "C5",
        meaning: "asked for a frame of another owner",
        cause: "`frame_block` and `frame_mark` accept only frames of the graft's own process. \
            `frame_at` returns these.",
        example: "examples/labs/frame-of-another.lab",
    },
    Words {
        code: "C6",
        meaning: "made a call that only process 0's grafts may make",
        cause: "`tune_get` and `tune_set` are only for grafts that process 0 installed.",
        example: "examples/labs/root-only.lab",
    },
    Words {
        code: "C7",
        meaning: "asked where four levels ran already",
        cause: "A graft that was asked may ask another graft, but at most four levels run at once.",
        example: "examples/labs/too-deep.lab",
    },
    Words {
        code: "C8",
        meaning: "asked a graft that is running already",
        cause: "The graft at the asked point is already a level of this call, perhaps the one that \
            asks.",
        example: "examples/labs/asks-itself.lab",
    },
    Words {
        code: "C9",
        meaning: "had no step left",
        cause: "It isn't billed (`bill`) and got no steps (`fund`), or its account is empty, or it \
            took as many instructions as the limit of `install` allows.",
        example: "examples/labs/limit.lab",
    },
    Words {
        code: "C10",
        meaning: "had no record left",
        cause: "A callable that changes something costs a record. The graft isn't billed and got \
            no records, or its account is empty, or its call has 64 records already.",
        example: "examples/labs/records.lab",
    },
    Words {
        code: "C11",
        meaning: "had no lock left",
        cause: "`take_lock` costs a lock, unless its call already holds that user lock. The graft \
            isn't billed and got no locks, or its account is empty.",
        example: "examples/labs/no-locks.lab",
    },
    Words {
        code: "C12",
        meaning: "gave an answer that its point refuses",
        cause: "The point doesn't accept r0 and r1: too many blocks or past the end of the file, a \
            frame of another process, a process that isn't alive, more than 512 bytes for an \
            event, or a different number of bytes than a stream passed in. The numbers after the \
            code are r0 and r1.",
        example: "examples/labs/bad-answer.lab",
    },
    Words {
        code: "C13",
        meaning: "was in the way for too long",
        cause: "Another process waited for something that it held for as many ticks as the \
            patience allows, 10 unless `patience` sets it; or it waited that long for a user lock. \
            After the code come the object and the other process.",
        example: "examples/labs/time-out.lab",
    },
];

pub(crate) const IMAGE: [Words; 13] = [
    Words {
        code: "L1",
        meaning: "it has too few bytes, or another length than its sizes say",
        cause: "Hex was cut off, or this is a raw image where a sealed one is expected: `box` \
            turns a raw image into a sealed one.",
        example: "examples/labs/broken-images.lab",
    },
    Words {
        code: "L2",
        meaning: "its first four bytes are wrong",
        cause: "A raw image begins with VGR0 and a sealed one with VGR1. One was given where the \
            other is expected.",
        example: "examples/labs/broken-images.lab",
    },
    Words {
        code: "L3",
        meaning: "its version is neither 1 nor 2",
        cause: "A later version made it, or it was changed.",
        example: "examples/labs/broken-images.lab",
    },
    Words {
        code: "L4",
        meaning: "it has more than 1,024 instructions or 4,096 data bytes",
        cause: "The code is too long, or the sizes were changed.",
        example: "examples/labs/broken-images.lab",
    },
    Words {
        code: "L5",
        meaning: "its seal isn't right",
        cause: "It was sealed under a different key from the run's, or was changed afterwards.",
        example: "examples/labs/broken-images.lab",
    },
    Words {
        code: "L6",
        meaning: "an instruction doesn't decode",
        cause: "Its first byte isn't an operation, a register is above 15, or a field that the \
            operation doesn't use isn't 0. The number after the code is its place.",
        example: "examples/labs/broken-images.lab",
    },
    Words {
        code: "L7",
        meaning: "r14 or r15 is named outside of an access to memory",
        cause: "The code was sealed without being boxed. r14 and r15 belong to the sandbox. The \
            number after the code is the place.",
        example: "examples/labs/unboxed.lab",
    },
    Words {
        code: "L8",
        meaning: "a jump leaves the code, or goes into an access to memory",
        cause: "The code was sealed without being boxed, or its targets weren't moved with it. The \
            number after the code is the place.",
        example: "examples/labs/forged.lab",
    },
    Words {
        code: "L9",
        meaning: "the address of an access to memory isn't masked",
        cause: "The code was sealed without being boxed: `box` puts the two masking instructions \
            before each access. The number after the code is the place.",
        example: "examples/labs/forged.lab",
    },
    Words {
        code: "L10",
        meaning: "a `call` has an id above 15",
        cause: "There are sixteen callables, 0 to 15. The number after the code is the place.",
        example: "examples/labs/unboxed.lab",
    },
    Words {
        code: "L11",
        meaning: "the last instruction isn't `ret`, `jmp` or `trap`",
        cause: "Code may not run past its end, so the last instruction must leave it. Code without \
            instructions is refused too.",
        example: "examples/labs/unboxed.lab",
    },
    Words {
        code: "L12",
        meaning: "a flag is set that isn't known",
        cause: "A later version made it, or it was changed.",
        example: "examples/labs/broken-images.lab",
    },
    Words {
        code: "L13",
        meaning: "it names a key that wasn't given",
        cause: "It was sealed under the second of two keys, and the run has only one.",
        example: "examples/labs/broken-images.lab",
    },
];

pub(crate) const ASSEMBLER: [Words; 6] = [
    Words {
        code: "A1",
        meaning: "the first word is no mnemonic",
        cause: "It is misspelled or has a capital letter, the line begins with a space, or it is a \
            label that isn't one: a small letter, then small letters, digits and `_`, at most 16, \
            and a colon.",
        example: "cases/labs/unknown-instruction.lab",
    },
    Words {
        code: "A2",
        meaning: "too few or too many operands, or one of the wrong form",
        cause: "One space separates operands, with no comma and no remark after them; registers \
            are r0 to r15; numbers are decimal and not negative; a target is a label, or `@` and a \
            number. A label is alone on its line.",
        example: "cases/labs/comma.lab",
    },
    Words {
        code: "A3",
        meaning: "the label is never set",
        cause: "It is misspelled, here or at its definition.",
        example: "cases/labs/label-not-set.lab",
    },
    Words {
        code: "A4",
        meaning: "the label is set twice",
        cause: "Two places have the same name. Rename one.",
        example: "cases/labs/label-twice.lab",
    },
    Words {
        code: "A5",
        meaning: "there are more than 1,024 instructions",
        cause: "An image has no room for more.",
        example: "cases/labs/many-instructions.lab",
    },
    Words {
        code: "A6",
        meaning: "the word after `.bytes` isn't hex, or there are more than 4,096 data bytes",
        cause: "Hex has an even number of digits, with nothing between them.",
        example: "cases/labs/bad-data.lab",
    },
];

pub(crate) const LANGUAGE: [Words; 6] = [
    Words {
        code: "G1",
        meaning: "a word isn't a token",
        cause: "Spaces separate tokens: `x = 1 ;` is four, `x=1;` is none. Names have lower-case \
            letters, digits and `_`, at most 16; numbers are decimal.",
        example: "cases/labs/language-token.lab",
    },
    Words {
        code: "G2",
        meaning: "no program continues like this",
        cause: "Each operation has its own parentheses, each block its braces, and each other \
            statement ends with `;`. A call is alone on the right of `=`.",
        example: "cases/labs/language-goes-on.lab",
    },
    Words {
        code: "G3",
        meaning: "the variable isn't known",
        cause: "A variable is known after its first assignment. a0 to a3 are known from the \
            beginning.",
        example: "cases/labs/language-variable.lab",
    },
    Words {
        code: "G4",
        meaning: "the call has a wrong number of arguments",
        cause: "Each callable takes the arguments that the list of callables gives.",
        example: "cases/labs/language-arguments.lab",
    },
    Words {
        code: "G5",
        meaning: "there are more than 64 levels",
        cause: "Braces and parentheses are nested too deep. Put an intermediate value into a \
            variable.",
        example: "cases/labs/language-levels.lab",
    },
    Words {
        code: "G6",
        meaning: "there are more than 120 tokens",
        cause: "The program is too long.",
        example: "cases/labs/language-tokens.lab",
    },
];

pub(crate) const REWRITER: [Words; 5] = [
    Words {
        code: "Register",
        meaning: "an instruction names r14 or r15",
        cause: "These two belong to the sandbox. Code has r0 to r13. The number after the word is \
            the place.",
        example: "cases/labs/reserved-register.lab",
    },
    Words {
        code: "Jump",
        meaning: "an instruction jumps past the code",
        cause: "A target is at most the number of the last instruction. The number after the word \
            is the place.",
        example: "cases/labs/jump-past-code.lab",
    },
    Words {
        code: "Call",
        meaning: "a `call` has an id above 15",
        cause: "There are sixteen callables, 0 to 15. The number after the word is the place.",
        example: "cases/labs/high-call.lab",
    },
    Words {
        code: "End",
        meaning: "the last instruction isn't `ret`, `jmp` or `trap`",
        cause: "Code may not run past its end. Add a `ret`.",
        example: "cases/labs/no-return.lab",
    },
    Words {
        code: "TooLarge",
        meaning: "boxed, it has more than 1,024 instructions",
        cause: "Each access to memory becomes three instructions.",
        example: "cases/labs/too-large.lab",
    },
];

pub(crate) const INPUT: [Words; 3] = [
    Words {
        code: "input S1",
        meaning: "there are bytes after the first newline",
        cause: "The input is one line of hex and nothing else.",
        example: "cases/box.case",
    },
    Words {
        code: "input S2",
        meaning: "the input isn't hex",
        cause: "The program before it in the pipe wrote a refusal, such as `asm 1 A2`, or nothing. \
            That refusal is the one that counts.",
        example: "cases/box.case",
    },
    Words {
        code: "input S6",
        meaning: "the input ends without a newline; of `audit`: no line is `%%`",
        cause: "The line was cut off, or has no newline.",
        example: "cases/box.case",
    },
];

pub(crate) const STATUS: [Words; 9] = [
    Words {
        code: "status 0",
        meaning: "everything ran, or was made, to its end",
        cause: "Refused calls, dropped grafts and faults of the disk show only in the lines.",
        example: "examples/labs/first.lab",
    },
    Words {
        code: "status 1",
        meaning: "the command line isn't understood; of `lab`: a wanted line didn't come, or a \
            claim is wrong",
        cause: "A word is misspelled, or a key isn't 64 hex digits.",
        example: "cases/words.case",
    },
    Words {
        code: "status 2",
        meaning: "a line or the input was refused",
        cause: "The last line written says which one and why.",
        example: "examples/labs/script-command.lab",
    },
    Words {
        code: "status 3",
        meaning: "a read of the input failed",
        cause: "Standard input is closed, or is a folder.",
        example: "cases/streams",
    },
    Words {
        code: "status 4",
        meaning: "a write of the output failed",
        cause: "Standard output is closed, full, or no longer read.",
        example: "cases/streams",
    },
    Words {
        code: "status 5",
        meaning: "out of memory",
        cause: "The machine has too little memory, or a limit on the process is too low.",
        example: "none",
    },
    Words {
        code: "status 6",
        meaning: "`box`, `check` or `reseal` refuses an image",
        cause: "The line written says why.",
        example: "cases/check.case",
    },
    Words {
        code: "status 7",
        meaning: "the input has more than 16,777,216 bytes",
        cause: "The input isn't a script, or has to be split.",
        example: "cases/streams",
    },
    Words {
        code: "status 8",
        meaning: "of `audit`: a claim isn't what the script writes",
        cause: "The number written is that of the first line that differs, or that only one of the \
            two has.",
        example: "cases/audit.case",
    },
];
