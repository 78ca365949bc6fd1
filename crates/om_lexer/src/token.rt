//! Tokens, and where they stand.

use om_seq::Seq;

/// The bytes from `start` up to `end` of the source, and the line of `start`.
///
/// A line is 1 and the line feeds before it, those behind a backslash and in comments too.
#[derive(Clone, Copy)]
pub struct Span {
    /// The first byte, from 0.
    pub start: u32,
    /// The byte behind the last.
    pub end: u32,
    /// The line of `start`, from 1.
    pub line: u32,
}

/// A token: what it is, and its place.
#[derive(Drop)]
pub struct Token {
    pub kind: TokenKind,
    pub span: Span,
}

/// What a token is.
#[derive(Drop)]
pub enum TokenKind {
    /// A name (C17 6.4.2): 1 to 63 letters, digits and `_`, the first no digit, and no keyword.
    Name(Seq<u8>),
    /// An integer constant (C17 6.4.4.1), at most 2147483647.
    Constant(u32),
    Keyword(Keyword),
    /// A string literal (C17 6.4.5): the characters that it stands for.
    Text(Seq<u8>),
    Punctuator(Punctuator),
    /// The `#` of a `#pragma omp` line. The words and marks of the line follow, `pragma` and `omp` first.
    DirectiveBegin,
    /// The end of a `#pragma omp` line: of no width, behind its last token.
    DirectiveEnd,
    /// The end of the source: of no width, at its length.
    End,
}

/// A keyword of C17 6.4.1.
#[derive(Clone, Copy, PartialEq, Eq)]
pub enum Keyword {
    Auto,
    Break,
    Case,
    Char,
    Const,
    Continue,
    Default,
    Do,
    Double,
    Else,
    Enum,
    Extern,
    Float,
    For,
    Goto,
    If,
    Inline,
    Int,
    Long,
    Register,
    Restrict,
    Return,
    Short,
    Signed,
    Sizeof,
    Static,
    Struct,
    Switch,
    Typedef,
    Union,
    Unsigned,
    Void,
    Volatile,
    While,
    Alignas,
    Alignof,
    Atomic,
    Bool,
    Complex,
    Generic,
    Imaginary,
    Noreturn,
    StaticAssert,
    ThreadLocal,
}

/// A punctuator of the accepted C (of C17 6.4.6).
#[derive(Clone, Copy, PartialEq, Eq)]
pub enum Punctuator {
    /// `(`
    OpenParen,
    /// `)`
    CloseParen,
    /// `[`
    OpenBracket,
    /// `]`
    CloseBracket,
    /// `{`
    OpenBrace,
    /// `}`
    CloseBrace,
    /// `;`
    Semicolon,
    /// `,`
    Comma,
    /// `?`
    Question,
    /// `:`
    Colon,
    /// `=`
    Equal,
    /// `+=`
    PlusEqual,
    /// `-=`
    MinusEqual,
    /// `*=`
    StarEqual,
    /// `/=`
    SlashEqual,
    /// `%=`
    PercentEqual,
    /// `==`
    EqualEqual,
    /// `!=`
    BangEqual,
    /// `<`
    Less,
    /// `>`
    Greater,
    /// `<=`
    LessEqual,
    /// `>=`
    GreaterEqual,
    /// `+`
    Plus,
    /// `-`
    Minus,
    /// `*`
    Star,
    /// `/`
    Slash,
    /// `%`
    Percent,
    /// `!`
    Bang,
    /// `++`
    PlusPlus,
    /// `--`
    MinusMinus,
    /// `&&`
    AndAnd,
    /// `||`
    OrOr,
}
