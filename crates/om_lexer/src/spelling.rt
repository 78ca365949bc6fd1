//! How keywords and punctuators are spelled.

ghost use Rattle.std.specs.Prelude.{◌≡◌, ◌≢◌, IfSome, IfNone};
ghost use Rattle.om_lexer.specs.declared.token.Keyword.{Keyword};
ghost use Rattle.om_lexer.specs.Spellings.{keyword_text, punctuator_text, BeginsWithPunctuator, IsLongestPunctuator, BeginsWithNoPunctuator};

use crate::token::{Keyword, Punctuator};

const KEYWORDS: [Keyword; 44] = [
    Keyword::Auto,
    Keyword::Break,
    Keyword::Case,
    Keyword::Char,
    Keyword::Const,
    Keyword::Continue,
    Keyword::Default,
    Keyword::Do,
    Keyword::Double,
    Keyword::Else,
    Keyword::Enum,
    Keyword::Extern,
    Keyword::Float,
    Keyword::For,
    Keyword::Goto,
    Keyword::If,
    Keyword::Inline,
    Keyword::Int,
    Keyword::Long,
    Keyword::Register,
    Keyword::Restrict,
    Keyword::Return,
    Keyword::Short,
    Keyword::Signed,
    Keyword::Sizeof,
    Keyword::Static,
    Keyword::Struct,
    Keyword::Switch,
    Keyword::Typedef,
    Keyword::Union,
    Keyword::Unsigned,
    Keyword::Void,
    Keyword::Volatile,
    Keyword::While,
    Keyword::Alignas,
    Keyword::Alignof,
    Keyword::Atomic,
    Keyword::Bool,
    Keyword::Complex,
    Keyword::Generic,
    Keyword::Imaginary,
    Keyword::Noreturn,
    Keyword::StaticAssert,
    Keyword::ThreadLocal,
];

// Those of two bytes stand first, so that the first that fits is the longest.
const PUNCTUATORS: [Punctuator; 32] = [
    Punctuator::PlusEqual,
    Punctuator::MinusEqual,
    Punctuator::StarEqual,
    Punctuator::SlashEqual,
    Punctuator::PercentEqual,
    Punctuator::EqualEqual,
    Punctuator::BangEqual,
    Punctuator::LessEqual,
    Punctuator::GreaterEqual,
    Punctuator::PlusPlus,
    Punctuator::MinusMinus,
    Punctuator::AndAnd,
    Punctuator::OrOr,
    Punctuator::OpenParen,
    Punctuator::CloseParen,
    Punctuator::OpenBracket,
    Punctuator::CloseBracket,
    Punctuator::OpenBrace,
    Punctuator::CloseBrace,
    Punctuator::Semicolon,
    Punctuator::Comma,
    Punctuator::Question,
    Punctuator::Colon,
    Punctuator::Equal,
    Punctuator::Less,
    Punctuator::Greater,
    Punctuator::Plus,
    Punctuator::Minus,
    Punctuator::Star,
    Punctuator::Slash,
    Punctuator::Percent,
    Punctuator::Bang,
];

/// The keyword with this spelling.
pub(crate) fn keyword_spelled(text: &[u8]) -> Option<Keyword>
    ensures found { IfSome result (λ k. text.now ≡ keyword_text k) }
    ensures none { IfNone result ((k : Keyword) → text.now ≢ keyword_text k) }
{
    for keyword in KEYWORDS {
        if keyword_text(keyword) == text {
            return Some(keyword);
        }
    }
    None
}

/// The longest punctuator with which the bytes begin.
pub(crate) fn longest_punctuator(bytes: &[u8]) -> Option<Punctuator>
    ensures begins { IfSome result (BeginsWithPunctuator bytes.now) }
    ensures longest { IfSome result (IsLongestPunctuator bytes.now) }
    ensures none { IfNone result (BeginsWithNoPunctuator bytes.now) }
{
    for punctuator in PUNCTUATORS {
        if bytes.starts_with(punctuator_text(punctuator)) {
            return Some(punctuator);
        }
    }
    None
}

/// The spelling of a keyword.
pub(crate) fn keyword_text(keyword: Keyword) -> &'static [u8]
    ensures { result.now ≡ keyword_text keyword }
{
    match keyword {
        Keyword::Auto => b"auto",
        Keyword::Break => b"break",
        Keyword::Case => b"case",
        Keyword::Char => b"char",
        Keyword::Const => b"const",
        Keyword::Continue => b"continue",
        Keyword::Default => b"default",
        Keyword::Do => b"do",
        Keyword::Double => b"double",
        Keyword::Else => b"else",
        Keyword::Enum => b"enum",
        Keyword::Extern => b"extern",
        Keyword::Float => b"float",
        Keyword::For => b"for",
        Keyword::Goto => b"goto",
        Keyword::If => b"if",
        Keyword::Inline => b"inline",
        Keyword::Int => b"int",
        Keyword::Long => b"long",
        Keyword::Register => b"register",
        Keyword::Restrict => b"restrict",
        Keyword::Return => b"return",
        Keyword::Short => b"short",
        Keyword::Signed => b"signed",
        Keyword::Sizeof => b"sizeof",
        Keyword::Static => b"static",
        Keyword::Struct => b"struct",
        Keyword::Switch => b"switch",
        Keyword::Typedef => b"typedef",
        Keyword::Union => b"union",
        Keyword::Unsigned => b"unsigned",
        Keyword::Void => b"void",
        Keyword::Volatile => b"volatile",
        Keyword::While => b"while",
        Keyword::Alignas => b"_Alignas",
        Keyword::Alignof => b"_Alignof",
        Keyword::Atomic => b"_Atomic",
        Keyword::Bool => b"_Bool",
        Keyword::Complex => b"_Complex",
        Keyword::Generic => b"_Generic",
        Keyword::Imaginary => b"_Imaginary",
        Keyword::Noreturn => b"_Noreturn",
        Keyword::StaticAssert => b"_Static_assert",
        Keyword::ThreadLocal => b"_Thread_local",
    }
}

/// The spelling of a punctuator.
pub(crate) fn punctuator_text(punctuator: Punctuator) -> &'static [u8]
    ensures { result.now ≡ punctuator_text punctuator }
{
    match punctuator {
        Punctuator::OpenParen => b"(",
        Punctuator::CloseParen => b")",
        Punctuator::OpenBracket => b"[",
        Punctuator::CloseBracket => b"]",
        Punctuator::OpenBrace => b"{",
        Punctuator::CloseBrace => b"}",
        Punctuator::Semicolon => b";",
        Punctuator::Comma => b",",
        Punctuator::Question => b"?",
        Punctuator::Colon => b":",
        Punctuator::Equal => b"=",
        Punctuator::PlusEqual => b"+=",
        Punctuator::MinusEqual => b"-=",
        Punctuator::StarEqual => b"*=",
        Punctuator::SlashEqual => b"/=",
        Punctuator::PercentEqual => b"%=",
        Punctuator::EqualEqual => b"==",
        Punctuator::BangEqual => b"!=",
        Punctuator::Less => b"<",
        Punctuator::Greater => b">",
        Punctuator::LessEqual => b"<=",
        Punctuator::GreaterEqual => b">=",
        Punctuator::Plus => b"+",
        Punctuator::Minus => b"-",
        Punctuator::Star => b"*",
        Punctuator::Slash => b"/",
        Punctuator::Percent => b"%",
        Punctuator::Bang => b"!",
        Punctuator::PlusPlus => b"++",
        Punctuator::MinusMinus => b"--",
        Punctuator::AndAnd => b"&&",
        Punctuator::OrOr => b"||",
    }
}
