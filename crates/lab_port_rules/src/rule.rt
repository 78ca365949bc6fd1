//! The rules.

use lab_port_words::TypeWord;
use om_seq::Seq;

/// What stands for a name: the body of a macro, or the stores that give an array its values.
#[derive(Drop)]
pub struct Meaning {
    /// The name, as it stands in the source.
    pub name: Seq<u8>,
    /// The text that is written for it.
    pub text: Seq<u8>,
}

/// A rule, with what decides its text and its warning.
#[derive(Clone, Copy)]
pub enum Rule {
    /// `include`: a header that is left out.
    Include,
    /// `macro`: the line of a macro that is written out.
    Macro,
    /// `macro`: a name that is written out.
    Use,
    /// `enum`: the definition of an enumeration, whose constants are written out.
    Enumeration,
    /// `enum`: the type of an enumeration becomes `int`.
    EnumerationType,
    /// `enum`: the definition of a name for the type of an enumeration, whose constants are written out too.
    EnumerationTypedef,
    /// `typedef`: the definition of a name for a type, which is written out.
    Typedef,
    /// `list`: an array in a block, whose values are stored behind its declaration.
    List,
    /// `list`: an array at file scope, whose values are stored at the beginning of `main`.
    FileList,
    /// `list`: the `{` of `main`, behind which the arrays at file scope get their values.
    Fill,
    /// `length`: the length of an array becomes this number.
    Length(usize),
    /// `flat`: an array of two dimensions becomes one of one dimension, with this length.
    FlatArray(usize),
    /// `flat`: two indices become one, where a row has so many elements.
    FlatIndex(usize),
    /// `text`: a `printf` of a text in quotes, or of one of several, becomes one for each text.
    Text,
    /// `storage`: a word of storage, or a prototype of the library, that is left out.
    Storage,
    /// `storage`: an `__attribute__` that is left out.
    Attribute,
    /// `volatile`: the word is left out.
    Volatile,
    /// `narrow`, `bool`, `unsigned`: the first word of a type becomes `int`.
    Type(TypeWord),
    /// The same, for a further word of the type, which is left out.
    TypeAgain(TypeWord),
    /// `suffix`: a suffix for `long` is left out.
    Suffix,
    /// `unsigned`: a suffix for `unsigned` is left out.
    UnsignedSuffix,
    /// `constant`: a character is its number.
    Character(u8),
    /// `constant`: `true` and `EXIT_FAILURE` are 1.
    One,
    /// `constant`: `false` and `EXIT_SUCCESS` are 0.
    Nought,
    /// `constant`: `INT_MAX`.
    Largest,
    /// `constant`: `INT_MIN`.
    Least,
    /// `abort`: the header or the prototype of `abort` becomes a definition of it.
    DefineAbort,
    /// `assert`: its header becomes a definition of it.
    DefineAssert,
    /// `exit` in `main`: `return`.
    Exit,
    /// `routine`: a call that sets how teams are made is left out.
    Routine,
    /// `asks`: a routine whose answer is 0 here.
    Zero,
    /// `asks`: `omp_in_parallel`.
    InParallel,
    /// `wait`: a call that waits, empties a buffer or seeds random numbers is left out.
    Wait,
    /// `stderr`: `fprintf (stderr,` becomes `printf(`.
    PrintError,
    /// `stderr`: `fprintf (stdout,` becomes `printf(`.
    PrintOut,
    /// `puts`: it becomes a `printf` whose text ends its line.
    Puts,
    /// `format`: each conversion of a whole number becomes `%d`.
    Format,
    /// `cast`: a cast that changes no value is left out.
    Cast,
    /// `cast`: a cast to a wider type is left out.
    WideCast,
    /// `cast`: a cast that may change the value is left out.
    NarrowCast,
    /// `main`: its parameters are left out.
    Main,
    /// `kind`: `guided` becomes `dynamic`.
    Dynamic,
    /// `kind`: `runtime` and `auto` become `static`.
    Static,
    /// `drop-clause`: a clause is left out.
    DropClause,
    /// `reduction`: `-` becomes `+`.
    Plus,
}
