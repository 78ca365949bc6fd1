//! The words of the list of changes.

ghost use Rattle.std.specs.Prelude.{◌≡◌};
ghost use Rattle.lab_port.specs.Warnings.{warning_of, type_warning};
ghost use Rattle.lab_port.specs.Names.{name_of, type_name, kind_name, warning_words, type_words, lack_words, lack_help};

use lab_port_rules::Rule;
use lab_port_words::{Lack, TypeWord};

/// How a change may change what a program does.
#[derive(Clone, Copy)]
pub enum Kind {
    /// It may compute another value without a fault.
    WrongValue,
    /// It may only fault where the source does not.
    Fault,
    /// It orders more than the source.
    HidesRaces,
    /// It prints or answers something else, or takes another time.
    Differs,
}

/// The name of a rule.
pub fn name_of(rule: Rule) -> &'static [u8]
    ensures { result.now ≡ name_of rule }
{
    match rule {
        Rule::Include => b"include",
        Rule::Macro => b"macro",
        Rule::Use => b"name",
        Rule::Enumeration | Rule::EnumerationType | Rule::EnumerationTypedef => b"enum",
        Rule::Typedef => b"typedef",
        Rule::List | Rule::FileList | Rule::Fill => b"list",
        Rule::Length(_) => b"length",
        Rule::FlatArray(_) | Rule::FlatIndex(_) => b"flat",
        Rule::Text => b"text",
        Rule::Storage | Rule::Attribute => b"storage",
        Rule::Volatile => b"volatile",
        Rule::Type(word) | Rule::TypeAgain(word) => type_name(word),
        Rule::Suffix => b"suffix",
        Rule::UnsignedSuffix => b"unsigned",
        Rule::Character(_) | Rule::One | Rule::Nought | Rule::Largest | Rule::Least => b"constant",
        Rule::DefineAbort => b"abort",
        Rule::DefineAssert => b"assert",
        Rule::Exit => b"exit",
        Rule::Routine => b"routine",
        Rule::Zero | Rule::InParallel => b"asks",
        Rule::Wait => b"wait",
        Rule::PrintError | Rule::PrintOut => b"stderr",
        Rule::Puts => b"puts",
        Rule::Format => b"format",
        Rule::Cast | Rule::WideCast | Rule::NarrowCast => b"cast",
        Rule::Main => b"main",
        Rule::Dynamic | Rule::Static => b"kind",
        Rule::DropClause => b"drop-clause",
        Rule::Plus => b"reduction",
    }
}

fn type_name(word: TypeWord) -> &'static [u8]
    ensures { result.now ≡ type_name word }
{
    match word {
        TypeWord::Unsigned => b"unsigned",
        TypeWord::Truth => b"bool",
        _ => b"narrow",
    }
}

/// How a change by this rule may change what the program does; `None` where it does not.
pub fn warning_of(rule: Rule) -> Option<Kind>
    ensures { result ≡ warning_of rule }
{
    match rule {
        Rule::Volatile | Rule::Wait => Some(Kind::HidesRaces),
        Rule::Type(word) | Rule::TypeAgain(word) => type_warning(word),
        Rule::UnsignedSuffix | Rule::NarrowCast => Some(Kind::WrongValue),
        Rule::EnumerationType | Rule::EnumerationTypedef => Some(Kind::WrongValue),
        Rule::FlatArray(_) => Some(Kind::WrongValue),
        Rule::List | Rule::Fill => Some(Kind::Differs),
        Rule::Suffix | Rule::WideCast => Some(Kind::Fault),
        Rule::Zero | Rule::InParallel => Some(Kind::WrongValue),
        Rule::Attribute | Rule::Routine | Rule::PrintError | Rule::Format | Rule::Main => Some(
            Kind::Differs,
        ),
        Rule::Dynamic | Rule::Static => Some(Kind::Differs),
        _ => None,
    }
}

fn type_warning(word: TypeWord) -> Option<Kind>
    ensures { result ≡ type_warning word }
{
    match word {
        TypeWord::Long => Some(Kind::Fault),
        TypeWord::Char | TypeWord::Short => Some(Kind::WrongValue),
        TypeWord::Unsigned | TypeWord::Truth => Some(Kind::WrongValue),
        _ => None,
    }
}

/// The name of a kind.
pub(crate) fn kind_name(kind: Kind) -> &'static [u8]
    ensures { result.now ≡ kind_name kind }
{
    match kind {
        Kind::WrongValue => b"wrong value",
        Kind::Fault => b"fault",
        Kind::HidesRaces => b"hides races",
        Kind::Differs => b"differs",
    }
}

/// What the warning of a rule says.
pub(crate) fn warning_words(rule: Rule) -> &'static [u8]
    ensures { result.now ≡ warning_words rule }
{
    match rule {
        Rule::Volatile => b"no read or write is kept or added by it here",
        Rule::Wait => b"no time passes, and the schedule decides",
        Rule::EnumerationType | Rule::EnumerationTypedef => b"a negative value differs",
        Rule::FlatArray(_) => b"an index past its row stays in the array, and is no fault F3",
        Rule::List | Rule::Fill => b"the stores are steps",
        Rule::Attribute => b"what it asks for is not done here",
        Rule::Type(word) | Rule::TypeAgain(word) => type_words(word),
        Rule::UnsignedSuffix => b"an operand that is negative or above 2147483647 differs",
        Rule::NarrowCast => b"the value is not cut to the type",
        Rule::Suffix | Rule::WideCast => b"a result that does not fit is the fault F1",
        Rule::Zero => b"the answer is 0 here",
        Rule::InParallel => b"in a team of one in a larger team the answer is 0",
        Rule::Routine => b"one level of teams is active, and its size is not adjusted",
        Rule::PrintError => b"it is printed to the output",
        Rule::Format => b"widths, flags and lengths are left out",
        Rule::Main => b"there are no arguments",
        Rule::Dynamic | Rule::Static => b"other threads may make an iteration",
        _ => b"",
    }
}

fn type_words(word: TypeWord) -> &'static [u8]
    ensures { result.now ≡ type_words word }
{
    match word {
        TypeWord::Long => b"a result that does not fit is the fault F1",
        TypeWord::Char | TypeWord::Short => b"it does not wrap",
        TypeWord::Truth => b"a value other than 0 and 1 is kept as it is",
        TypeWord::Unsigned => {
            b"a value above 2147483647 or a negative one differs; a sum that wraps is the fault F1"
        }
        _ => b"",
    }
}

/// Why a token has no form.
pub fn lack_words(lack: Lack) -> &'static [u8]
    ensures { result.now ≡ lack_words lack }
{
    match lack {
        Lack::Floating => b"floating point has no form here",
        Lack::Pointer => b"a pointer has no form here",
        Lack::Statement => b"this word has no form here",
        Lack::Struct => b"a struct has no form here",
        Lack::Union => b"a union has no form here",
        Lack::Exit => b"an exit outside of main has no form here",
        Lack::Lock => b"a lock has no form here",
        Lack::Threads => b"the number of threads is not known here",
        Lack::Conversion => b"this conversion has no form here",
        Lack::Directive => b"this word has no form here",
        Lack::Memory => b"the length is not known here",
        Lack::Input => b"a program has no input here",
        Lack::Random => b"random numbers of the library have no form here",
    }
}

/// What to write for it.
pub fn lack_help(lack: Lack) -> &'static [u8]
    ensures { result.now ≡ lack_help lack }
{
    match lack {
        Lack::Floating => b"write int in smaller units, or leave the measurement out",
        Lack::Pointer => b"pass an index of a global array",
        Lack::Statement => b"write it with if and while",
        Lack::Struct => b"write one variable or array for each member",
        Lack::Union => b"write one variable for each member",
        Lack::Exit => b"return to main, and end there",
        Lack::Lock => b"write #pragma omp critical (NAME) before what it guards",
        Lack::Threads => b"write num_threads(N) at each parallel, and N for the question",
        Lack::Conversion => b"print whole numbers by %d, and write one printf for each text",
        Lack::Directive => b"docs/PORTING.md says what to write for it",
        Lack::Memory => b"write a global array of a fixed length",
        Lack::Input => b"write a #define for each value",
        Lack::Random => b"write a function for them",
    }
}
