//! The plain data of the graft language (docs/LANGUAGE.md).

/// An operator between two values.
#[derive(Clone, Copy, PartialEq, Eq, Debug)]
pub enum Operator {
    Plus,
    Minus,
    Times,
    Over,
    Rest,
    And,
    Or,
    Xor,
    ShiftLeft,
    ShiftRight,
    Less,
    Equal,
}

/// A word that stands for itself: a keyword or a sign.
#[derive(Clone, Copy, PartialEq, Eq, Debug)]
pub enum Symbol {
    If,
    Else,
    While,
    Trap,
    Answer,
    Assign,
    Semicolon,
    OpenBrace,
    CloseBrace,
    OpenParenthesis,
    CloseParenthesis,
    Comma,
}

/// Why a text is refused, in the order of the codes G1 to G6.
#[derive(Clone, Copy, PartialEq, Eq, Debug)]
pub enum LangKind {
    NoToken,
    NoProgram,
    UnknownVariable,
    WrongArguments,
    TooDeep,
    TooManyTokens,
}

/// What must come next in a text.
#[derive(Clone, Copy)]
pub enum Goal {
    /// More statements, or the end: of a block, or of the text. The first says whether they are in
    /// a block, the second whether an `if` has just ended.
    Statements(bool, bool),
    /// Statements in braces.
    Braces,
    /// An expression.
    Operand,
    InfixOperator,
    /// An expression, or a call.
    RightSide,
    /// An argument, or the end of the call. The number says how many arguments are left.
    FirstArgument(u32),
    NextArgument(u32),
    /// A comma, or the end of the call.
    AfterArgument(u32),
    EndOfAssignment,
    Constant,
    Awaits(Symbol),
}
