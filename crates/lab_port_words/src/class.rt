//! The classes of pieces.

ghost use Rattle.std.specs.Prelude.{◌≡◌};
ghost use Rattle.lab_port_words.specs.Classes.{is_gap, is_word};

/// What a piece is to the rules.
#[derive(Clone, Copy)]
pub enum Class {
    /// White space or a comment, without a line feed.
    Gap,
    /// White space or a comment with a line feed in it, which ends no line (C17 5.1.1.2, phases 2 and 3).
    Join,
    /// A line feed.
    LineEnd,
    /// A punctuator.
    Sign(Sign),
    /// A word of a type.
    Type(TypeWord),
    /// A word of how a name is stored.
    Storage(Storage),
    /// A name of the library.
    Library(Library),
    /// A word of a directive.
    Clause(Clause),
    /// A word of a `#` line.
    Hash(Hash),
    /// Another word.
    Word(Word),
    /// A number.
    Number(Form),
    /// A text, and which conversions it has.
    Text(Format),
    /// A character, and its number if it is one character or one escape (C17 6.4.4.4).
    Character(Option<u8>),
}

/// Punctuators that rules look at.
#[derive(Clone, Copy)]
pub enum Sign {
    /// `(`
    Open,
    /// `)`
    Close,
    /// `{`
    OpenBrace,
    /// `}`
    CloseBrace,
    /// `[`
    OpenBracket,
    /// `]`
    CloseBracket,
    /// `;`
    Semicolon,
    /// `,`
    Comma,
    /// `:`
    Colon,
    /// `#`
    Hash,
    /// `*`
    Star,
    /// `&`
    And,
    /// `-`
    Minus,
    /// `<`
    Less,
    /// `>`
    Greater,
    /// `->`
    Arrow,
    /// `=` or a compound assignment.
    Changes,
    /// `++` or `--`
    Steps,
    /// Any other.
    Other,
}

/// Words of types (C17 6.7.2, 7.19, 7.20).
#[derive(Clone, Copy)]
pub enum TypeWord {
    /// `int`
    Int,
    /// `signed`, and names of the type that `int` is here.
    Signed,
    /// `long`, and names of wider signed types.
    Long,
    /// `char`, signed or not.
    Char,
    /// `short`, and names of narrower types.
    Short,
    /// `unsigned`, and names of unsigned types of 32 bits or more.
    Unsigned,
    /// `bool`, `_Bool`
    Truth,
    /// `void`
    Void,
    /// `float` or `double`
    Floating,
}

/// Words of storage and qualifiers (C17 6.7.1, 6.7.3, 6.7.4).
#[derive(Clone, Copy)]
pub enum Storage {
    /// `const`, `register`, `inline`, `restrict` and their spellings in gcc.
    Plain,
    /// `auto`
    Auto,
    /// `volatile`
    Volatile,
    /// `static`
    Static,
    /// `extern`
    Extern,
    /// `__attribute__`
    Attribute,
}

/// Names of the library (C17 7, OpenMP API 5.2 section 18, POSIX).
#[derive(Clone, Copy)]
pub enum Library {
    /// `abort`
    Abort,
    /// `assert`
    Assert,
    /// `exit`
    Exit,
    /// A routine that sets how teams are made.
    Setting,
    /// A call that waits, empties a buffer or seeds random numbers.
    Wait,
    /// A routine that asks for what is 0 here.
    Zero,
    /// `omp_in_parallel`
    InParallel,
    /// `fprintf`
    PrintTo,
    /// `stderr`
    ErrorStream,
    /// `stdout`
    OutputStream,
    /// `puts`
    Puts,
    /// `true`, `EXIT_FAILURE`
    One,
    /// `false`, `EXIT_SUCCESS`
    Nought,
    /// `INT_MAX`
    Largest,
    /// `INT_MIN`
    Least,
    /// `NDEBUG`
    NoDebug,
    /// A name that a rule brings in.
    BroughtIn,
    /// A function that has no form here.
    Lacking(Lack),
}

/// Why a word has no form.
#[derive(Clone, Copy)]
pub enum Lack {
    /// Floating point.
    Floating,
    /// `*` of a declaration, `&` of an address, `->`
    Pointer,
    /// `goto`, `asm`, `_Generic`
    Statement,
    /// `struct`
    Struct,
    /// `union`
    Union,
    /// An `exit` outside of `main`.
    Exit,
    /// A lock of OpenMP.
    Lock,
    /// A routine whose answer or effect depends on the number of threads that is asked for.
    Threads,
    /// A conversion of `printf` other than of a whole number.
    Conversion,
    /// A directive or a clause.
    Directive,
    /// `malloc` and its like.
    Memory,
    /// `scanf` and its like.
    Input,
    /// `rand` and its like.
    Random,
}

/// Words of directives (OpenMP API 5.2).
#[derive(Clone, Copy)]
pub enum Clause {
    /// `schedule`
    Schedule,
    /// `guided`
    Guided,
    /// `runtime`
    Runtime,
    /// `untied`, `mergeable`, and memory orders of `atomic` that the subset has not.
    Bare,
    /// `proc_bind`, `priority`, `hint`, `affinity`, `allocate`
    Called,
    /// `collapse`
    Collapse,
    /// `reduction`
    Reduction,
    /// A word that has no form.
    Lacking,
}

/// Words of `#` lines (C17 6.10).
#[derive(Clone, Copy)]
pub enum Hash {
    /// `include`
    Include,
    /// `define`
    Define,
    /// `pragma`
    Pragma,
    /// `omp`, which is also a part of a header's name.
    Omp,
    /// `stdio`
    Stdio,
    /// `stdlib`
    Stdlib,
}

/// Other words.
#[derive(Clone, Copy)]
pub enum Word {
    /// `return`
    Return,
    /// `else` or `do`
    Branch,
    /// `main`
    Main,
    /// `argc` or `argv`
    Argument,
    /// A word that has no form.
    Lacking(Lack),
    /// Any other.
    Other,
}

/// Which conversions a text has, as a format of `printf` (C17 7.21.6.1).
#[derive(Clone, Copy)]
pub enum Format {
    /// Those of whole numbers as the subset spells them, or none.
    Same,
    /// Those of whole numbers, one at least in another spelling.
    Respelled,
    /// One of another kind.
    Lacking,
}

/// Forms of numbers (C17 6.4.4).
#[derive(Clone, Copy)]
pub enum Form {
    /// The number 1.
    One,
    /// Another number without a suffix.
    Plain,
    /// A whole number with a suffix for `long`.
    Long,
    /// A whole number with a suffix for `unsigned`.
    Unsigned,
    /// A floating number.
    Floating,
}

/// Whether a piece is white space, a comment or a line feed.
pub fn is_gap(class: Class) -> bool
    ensures { result ≡ is_gap class }
{
    match class {
        Class::Gap | Class::Join | Class::LineEnd => true,
        _ => false,
    }
}

/// Whether a piece is a word.
pub fn is_word(class: Class) -> bool
    ensures { result ≡ is_word class }
{
    match class {
        Class::Type(_)
        | Class::Storage(_)
        | Class::Library(_)
        | Class::Clause(_)
        | Class::Hash(_)
        | Class::Word(_) => true,
        _ => false,
    }
}
