//! The words and punctuators that rules know.

ghost use Rattle.std.specs.Prelude.{◌≡◌, map, IfOk};
ghost use Rattle.std.specs.Str.{bytes_eq};
ghost use Rattle.lab_port_words.specs.Tables.{class_in, word_class, sign_class, gap_class, text_class, class_by, class_of, classes_of};

use crate::class::{Class, Clause, Hash, Lack, Library, Sign, Storage, TypeWord, Word};
use crate::text::{character_number, form_of, format_of, has_one_of};
use lab_port_tokens::{Piece, PieceKind};
use om_seq::AllocResult;
use std::alloc::Global;

// A name, and the class that it has.
type Row = (&'static [u8], Class);

const WORDS: [Row; 147] = [
    (b"int", Class::Type(TypeWord::Int)),
    (b"signed", Class::Type(TypeWord::Signed)),
    (b"__signed__", Class::Type(TypeWord::Signed)),
    (b"int32_t", Class::Type(TypeWord::Signed)),
    (b"long", Class::Type(TypeWord::Long)),
    (b"int64_t", Class::Type(TypeWord::Long)),
    (b"ssize_t", Class::Type(TypeWord::Long)),
    (b"ptrdiff_t", Class::Type(TypeWord::Long)),
    (b"intptr_t", Class::Type(TypeWord::Long)),
    (b"char", Class::Type(TypeWord::Char)),
    (b"short", Class::Type(TypeWord::Short)),
    (b"int8_t", Class::Type(TypeWord::Short)),
    (b"int16_t", Class::Type(TypeWord::Short)),
    (b"uint8_t", Class::Type(TypeWord::Short)),
    (b"uint16_t", Class::Type(TypeWord::Short)),
    (b"unsigned", Class::Type(TypeWord::Unsigned)),
    (b"size_t", Class::Type(TypeWord::Unsigned)),
    (b"uint32_t", Class::Type(TypeWord::Unsigned)),
    (b"uint64_t", Class::Type(TypeWord::Unsigned)),
    (b"uintptr_t", Class::Type(TypeWord::Unsigned)),
    (b"bool", Class::Type(TypeWord::Truth)),
    (b"_Bool", Class::Type(TypeWord::Truth)),
    (b"void", Class::Type(TypeWord::Void)),
    (b"double", Class::Type(TypeWord::Floating)),
    (b"float", Class::Type(TypeWord::Floating)),
    (b"const", Class::Storage(Storage::Plain)),
    (b"register", Class::Storage(Storage::Plain)),
    (b"inline", Class::Storage(Storage::Plain)),
    (b"restrict", Class::Storage(Storage::Plain)),
    (b"__const", Class::Storage(Storage::Plain)),
    (b"__inline", Class::Storage(Storage::Plain)),
    (b"__inline__", Class::Storage(Storage::Plain)),
    (b"__restrict", Class::Storage(Storage::Plain)),
    (b"__extension__", Class::Storage(Storage::Plain)),
    (b"auto", Class::Storage(Storage::Auto)),
    (b"volatile", Class::Storage(Storage::Volatile)),
    (b"__volatile__", Class::Storage(Storage::Volatile)),
    (b"static", Class::Storage(Storage::Static)),
    (b"extern", Class::Storage(Storage::Extern)),
    (b"__attribute__", Class::Storage(Storage::Attribute)),
    (b"abort", Class::Library(Library::Abort)),
    (b"assert", Class::Library(Library::Assert)),
    (b"exit", Class::Library(Library::Exit)),
    (b"omp_set_dynamic", Class::Library(Library::Setting)),
    (b"omp_set_nested", Class::Library(Library::Setting)),
    (
        b"omp_set_max_active_levels",
        Class::Library(Library::Setting),
    ),
    (b"omp_set_schedule", Class::Library(Library::Setting)),
    (b"sleep", Class::Library(Library::Wait)),
    (b"usleep", Class::Library(Library::Wait)),
    (b"sched_yield", Class::Library(Library::Wait)),
    (b"fflush", Class::Library(Library::Wait)),
    (b"srand", Class::Library(Library::Wait)),
    (b"omp_get_dynamic", Class::Library(Library::Zero)),
    (b"omp_get_nested", Class::Library(Library::Zero)),
    (b"omp_in_final", Class::Library(Library::Zero)),
    (b"omp_in_parallel", Class::Library(Library::InParallel)),
    (b"fprintf", Class::Library(Library::PrintTo)),
    (b"stderr", Class::Library(Library::ErrorStream)),
    (b"stdout", Class::Library(Library::OutputStream)),
    (b"puts", Class::Library(Library::Puts)),
    (b"true", Class::Library(Library::One)),
    (b"EXIT_FAILURE", Class::Library(Library::One)),
    (b"false", Class::Library(Library::Nought)),
    (b"EXIT_SUCCESS", Class::Library(Library::Nought)),
    (b"INT_MAX", Class::Library(Library::Largest)),
    (b"INT_MIN", Class::Library(Library::Least)),
    (b"NDEBUG", Class::Library(Library::NoDebug)),
    (b"assert__ok", Class::Library(Library::BroughtIn)),
    (b"malloc", Class::Library(Library::Lacking(Lack::Memory))),
    (b"calloc", Class::Library(Library::Lacking(Lack::Memory))),
    (b"realloc", Class::Library(Library::Lacking(Lack::Memory))),
    (b"scanf", Class::Library(Library::Lacking(Lack::Input))),
    (b"fscanf", Class::Library(Library::Lacking(Lack::Input))),
    (b"sscanf", Class::Library(Library::Lacking(Lack::Input))),
    (b"fgets", Class::Library(Library::Lacking(Lack::Input))),
    (b"getchar", Class::Library(Library::Lacking(Lack::Input))),
    (b"fopen", Class::Library(Library::Lacking(Lack::Input))),
    (b"rand", Class::Library(Library::Lacking(Lack::Random))),
    (b"rand_r", Class::Library(Library::Lacking(Lack::Random))),
    (b"random", Class::Library(Library::Lacking(Lack::Random))),
    (b"drand48", Class::Library(Library::Lacking(Lack::Random))),
    (
        b"omp_init_lock",
        Class::Library(Library::Lacking(Lack::Lock)),
    ),
    (
        b"omp_destroy_lock",
        Class::Library(Library::Lacking(Lack::Lock)),
    ),
    (
        b"omp_set_lock",
        Class::Library(Library::Lacking(Lack::Lock)),
    ),
    (
        b"omp_unset_lock",
        Class::Library(Library::Lacking(Lack::Lock)),
    ),
    (
        b"omp_test_lock",
        Class::Library(Library::Lacking(Lack::Lock)),
    ),
    (
        b"omp_set_num_threads",
        Class::Library(Library::Lacking(Lack::Threads)),
    ),
    (
        b"omp_get_max_threads",
        Class::Library(Library::Lacking(Lack::Threads)),
    ),
    (
        b"omp_get_num_procs",
        Class::Library(Library::Lacking(Lack::Threads)),
    ),
    (
        b"omp_get_wtime",
        Class::Library(Library::Lacking(Lack::Floating)),
    ),
    (b"atoi", Class::Library(Library::Lacking(Lack::Input))),
    (b"schedule", Class::Clause(Clause::Schedule)),
    (b"guided", Class::Clause(Clause::Guided)),
    (b"runtime", Class::Clause(Clause::Runtime)),
    (b"untied", Class::Clause(Clause::Bare)),
    (b"mergeable", Class::Clause(Clause::Bare)),
    (b"acquire", Class::Clause(Clause::Bare)),
    (b"release", Class::Clause(Clause::Bare)),
    (b"acq_rel", Class::Clause(Clause::Bare)),
    (b"proc_bind", Class::Clause(Clause::Called)),
    (b"priority", Class::Clause(Clause::Called)),
    (b"hint", Class::Clause(Clause::Called)),
    (b"affinity", Class::Clause(Clause::Called)),
    (b"allocate", Class::Clause(Clause::Called)),
    (b"collapse", Class::Clause(Clause::Collapse)),
    (b"reduction", Class::Clause(Clause::Reduction)),
    (b"lastprivate", Class::Clause(Clause::Lacking)),
    (b"linear", Class::Clause(Clause::Lacking)),
    (b"ordered", Class::Clause(Clause::Lacking)),
    (b"depend", Class::Clause(Clause::Lacking)),
    (b"doacross", Class::Clause(Clause::Lacking)),
    (b"copyprivate", Class::Clause(Clause::Lacking)),
    (b"copyin", Class::Clause(Clause::Lacking)),
    (b"threadprivate", Class::Clause(Clause::Lacking)),
    (b"detach", Class::Clause(Clause::Lacking)),
    (b"in_reduction", Class::Clause(Clause::Lacking)),
    (b"task_reduction", Class::Clause(Clause::Lacking)),
    (b"capture", Class::Clause(Clause::Lacking)),
    (b"compare", Class::Clause(Clause::Lacking)),
    (b"taskloop", Class::Clause(Clause::Lacking)),
    (b"simd", Class::Clause(Clause::Lacking)),
    (b"target", Class::Clause(Clause::Lacking)),
    (b"teams", Class::Clause(Clause::Lacking)),
    (b"distribute", Class::Clause(Clause::Lacking)),
    (b"cancel", Class::Clause(Clause::Lacking)),
    (b"cancellation", Class::Clause(Clause::Lacking)),
    (b"declare", Class::Clause(Clause::Lacking)),
    (b"include", Class::Hash(Hash::Include)),
    (b"define", Class::Hash(Hash::Define)),
    (b"pragma", Class::Hash(Hash::Pragma)),
    (b"omp", Class::Hash(Hash::Omp)),
    (b"stdio", Class::Hash(Hash::Stdio)),
    (b"stdlib", Class::Hash(Hash::Stdlib)),
    (b"return", Class::Word(Word::Return)),
    (b"else", Class::Word(Word::Branch)),
    (b"do", Class::Word(Word::Branch)),
    (b"main", Class::Word(Word::Main)),
    (b"argc", Class::Word(Word::Argument)),
    (b"argv", Class::Word(Word::Argument)),
    (b"goto", Class::Word(Word::Lacking(Lack::Statement))),
    (b"asm", Class::Word(Word::Lacking(Lack::Statement))),
    (b"__asm__", Class::Word(Word::Lacking(Lack::Statement))),
    (b"_Generic", Class::Word(Word::Lacking(Lack::Statement))),
    (b"union", Class::Word(Word::Lacking(Lack::Union))),
    (b"struct", Class::Word(Word::Lacking(Lack::Struct))),
    (b"omp_lock_t", Class::Word(Word::Lacking(Lack::Lock))),
    (b"omp_nest_lock_t", Class::Word(Word::Lacking(Lack::Lock))),
];

const SIGNS: [Row; 29] = [
    (b"(", Class::Sign(Sign::Open)),
    (b")", Class::Sign(Sign::Close)),
    (b"{", Class::Sign(Sign::OpenBrace)),
    (b"}", Class::Sign(Sign::CloseBrace)),
    (b"[", Class::Sign(Sign::OpenBracket)),
    (b"]", Class::Sign(Sign::CloseBracket)),
    (b";", Class::Sign(Sign::Semicolon)),
    (b",", Class::Sign(Sign::Comma)),
    (b":", Class::Sign(Sign::Colon)),
    (b"#", Class::Sign(Sign::Hash)),
    (b"*", Class::Sign(Sign::Star)),
    (b"&", Class::Sign(Sign::And)),
    (b"-", Class::Sign(Sign::Minus)),
    (b"<", Class::Sign(Sign::Less)),
    (b">", Class::Sign(Sign::Greater)),
    (b"->", Class::Sign(Sign::Arrow)),
    (b"=", Class::Sign(Sign::Changes)),
    (b"++", Class::Sign(Sign::Steps)),
    (b"--", Class::Sign(Sign::Steps)),
    (b"+=", Class::Sign(Sign::Changes)),
    (b"-=", Class::Sign(Sign::Changes)),
    (b"*=", Class::Sign(Sign::Changes)),
    (b"/=", Class::Sign(Sign::Changes)),
    (b"%=", Class::Sign(Sign::Changes)),
    (b"&=", Class::Sign(Sign::Changes)),
    (b"|=", Class::Sign(Sign::Changes)),
    (b"^=", Class::Sign(Sign::Changes)),
    (b"<<=", Class::Sign(Sign::Changes)),
    (b">>=", Class::Sign(Sign::Changes)),
];

// Whether a row has this name.
fn is_named(row: &Row, name: &[u8]) -> bool
    ensures { result ≡ bytes_eq row.now.0.now name.now }
{
    row.0 == name
}

// The class of the first row of this name, or else this one.
fn class_in(rows: &[Row], other: Class, name: &[u8]) -> Class
    ensures { result ≡ class_in (map (λ row. (row.0.now, row.1)) rows.now) other name.now }
{
    for row in rows {
        if is_named(row, name) {
            return row.1;
        }
    }
    other
}

// The class of a word.
fn word_class(name: &[u8]) -> Class
    ensures { result ≡ word_class name.now }
{
    class_in(&WORDS, Class::Word(Word::Other), name)
}

// The class of a punctuator.
fn sign_class(name: &[u8]) -> Class
    ensures { result ≡ sign_class name.now }
{
    class_in(&SIGNS, Class::Sign(Sign::Other), name)
}

/// The class of a piece.
pub fn class_of(piece: &Piece) -> Class
    ensures { result ≡ class_of piece.now }
{
    class_by(piece.kind, piece.text.as_slice())
}

// The class of a piece of this kind, with these bytes.
fn class_by(kind: PieceKind, text: &[u8]) -> Class
    ensures { result ≡ class_by kind text.now }
{
    match kind {
        PieceKind::LineEnd => Class::LineEnd,
        PieceKind::Space => gap_class(text),
        PieceKind::Comment => gap_class(text),
        PieceKind::Word => word_class(text),
        PieceKind::Number => Class::Number(form_of(text)),
        PieceKind::Text => text_class(text),
        PieceKind::Character => Class::Character(character_number(text)),
        PieceKind::Mark => sign_class(text),
    }
}

// The class of white space in a line, or of a comment.
fn gap_class(text: &[u8]) -> Class
    ensures { result ≡ gap_class text.now }
{
    if has_one_of(b"\n", text) {
        Class::Join
    } else {
        Class::Gap
    }
}

// The class of a text.
fn text_class(text: &[u8]) -> Class
    ensures { result ≡ text_class text.now }
{
    if has_one_of(b"\n", text) {
        return Class::Sign(Sign::Other);
    }
    Class::Text(format_of(text))
}

/// The classes of all pieces, in order. The only error is out of memory.
pub fn classes_of(alloc: Global, pieces: &[Piece]) -> AllocResult<Vec<Class>>
    ensures { IfOk result (λ classes. classes.items ≡ classes_of pieces.now) }
{
    pieces.iter().map(class_of).collect(alloc)
}
