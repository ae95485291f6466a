//! The forms of the lines of a script (docs/FORMATS.md, "Scripts").

/// Every word that begins a line of a script or of a lab file.
pub const COMMANDS: [&str; 35] = [
    "boot", "frames", "patience", "grant", "tick", "step", "raw", "image", "spawn", "exit",
    "yield", "sync", "open", "close", "read", "write", "sread", "swrite", "lock", "unlock", "poke",
    "peek", "tune", "default", "give", "install", "remove", "fund", "bill", "serve", "graft",
    "end", "key", "disk", "fail",
];

/// What stands at a place of a line.
#[derive(Clone, Copy, PartialEq, Eq)]
pub enum Slot {
    /// A number, with its name.
    Number(&'static str),
    /// `steps`, `records` or `locks`.
    Kind,
    /// The kind of an object.
    Object,
    /// The name of a file.
    Name,
    /// Hex digits.
    Hex,
}

const NOTHING: &[Slot] = &[];

const PROCESS: Slot = Slot::Number("process");

const POINT: Slot = Slot::Number("point");

const DESCRIPTOR: Slot = Slot::Number("descriptor");

const BLOCK: Slot = Slot::Number("block");

const OFFSET: Slot = Slot::Number("offset");

const AMOUNT: Slot = Slot::Number("amount");

const CELL: Slot = Slot::Number("cell");

const VALUE: Slot = Slot::Number("value");

const POLICIES: Slot = Slot::Number("kind of policies");

/// What stands behind a command; None for another word.
pub fn slots_of(command: &[u8]) -> Option<&'static [Slot]> {
    match command {
        b"boot" | b"tick" | b"raw" => Some(NOTHING),
        b"frames" => Some([Slot::Number("frames")].as_slice()),
        b"patience" => Some([Slot::Object, Slot::Number("ticks")].as_slice()),
        b"grant" => Some([AMOUNT].as_slice()),
        b"step" => Some([PROCESS, Slot::Number("instructions")].as_slice()),
        b"image" => Some([Slot::Number("slot"), Slot::Hex].as_slice()),
        b"spawn" | b"exit" | b"yield" | b"sync" => Some([PROCESS].as_slice()),
        b"open" => Some([PROCESS, Slot::Name].as_slice()),
        b"close" => Some([PROCESS, DESCRIPTOR].as_slice()),
        b"read" | b"sread" => {
            Some([PROCESS, DESCRIPTOR, BLOCK, OFFSET, Slot::Number("length")].as_slice())
        }
        b"write" | b"swrite" => Some([PROCESS, DESCRIPTOR, BLOCK, OFFSET, Slot::Hex].as_slice()),
        b"lock" | b"unlock" => Some([PROCESS, Slot::Number("user lock")].as_slice()),
        b"poke" => Some([PROCESS, CELL, VALUE].as_slice()),
        b"peek" => Some([PROCESS, CELL].as_slice()),
        b"tune" => Some([PROCESS, POLICIES, Slot::Number("parameter"), VALUE].as_slice()),
        b"default" => Some([PROCESS, POLICIES, Slot::Number("policy")].as_slice()),
        b"give" => Some([
            PROCESS,
            Slot::Number("process to give to"),
            Slot::Kind,
            AMOUNT,
        ]
        .as_slice()),
        b"install" => {
            Some([PROCESS, POINT, Slot::Number("slot"), Slot::Number("limit")].as_slice())
        }
        b"remove" | b"bill" => Some([PROCESS, POINT].as_slice()),
        b"fund" => Some([PROCESS, POINT, Slot::Kind, AMOUNT].as_slice()),
        b"serve" => Some([PROCESS, Slot::Number("port"), Slot::Hex].as_slice()),
        _ => None,
    }
}

/// What a slot is called.
pub fn name_of(slot: Slot) -> &'static str {
    match slot {
        Slot::Number(name) => name,
        Slot::Kind => "steps, records or locks",
        Slot::Object => "kind of object",
        Slot::Name => "name of a file",
        Slot::Hex => "hex digits",
    }
}

/// Whether a slot is one of a number.
pub fn is_number(slot: Slot) -> bool {
    match slot {
        Slot::Number(_) => true,
        _ => false,
    }
}
