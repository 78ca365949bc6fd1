//! The words that a directive line can have.

ghost use Rattle.std.specs.Prelude.{◌≡◌};
ghost use Rattle.om_lexer.specs.declared.token.TokenKind.TheVariants as kinds;
ghost use Rattle.om_pragma.specs.Reading.{all_clauses, reduction_operators, schedule_kinds, default_words, no_word};
ghost use Rattle.om_pragma.specs.Words.{same_kind, among, begun_by, clause_word, operator_word, schedule_word, sharing_word};

use crate::clause::{ClauseKind, ReductionOperator, ScheduleKind, Sharing};
use crate::tree::DirectiveKind;
use om_lexer::{FaultCode, Keyword, Punctuator, SourceFault, Token, TokenKind};

/// The directive that a token is alone, as the first word of its line. A combined directive may go
/// on behind it.
pub fn begun_by(kind: &TokenKind) -> Option<DirectiveKind>
    ensures { result ≡ begun_by kind.now }
{
    if is_named(kind, b"parallel") {
        Some(DirectiveKind::Parallel)
    } else if is_keyword(kind, Keyword::For) {
        Some(DirectiveKind::For)
    } else if is_named(kind, b"sections") {
        Some(DirectiveKind::Sections)
    } else if is_named(kind, b"section") {
        Some(DirectiveKind::Section)
    } else if is_named(kind, b"single") {
        Some(DirectiveKind::Single)
    } else if is_named(kind, b"masked") {
        Some(DirectiveKind::Masked)
    } else if is_named(kind, b"master") {
        Some(DirectiveKind::Master)
    } else if is_named(kind, b"critical") {
        Some(DirectiveKind::Critical)
    } else if is_named(kind, b"atomic") {
        Some(DirectiveKind::Atomic)
    } else if is_named(kind, b"task") {
        Some(DirectiveKind::Task)
    } else if is_named(kind, b"taskgroup") {
        Some(DirectiveKind::Taskgroup)
    } else if is_named(kind, b"barrier") {
        Some(DirectiveKind::Barrier)
    } else if is_named(kind, b"taskwait") {
        Some(DirectiveKind::Taskwait)
    } else if is_named(kind, b"taskyield") {
        Some(DirectiveKind::Taskyield)
    } else if is_named(kind, b"flush") {
        Some(DirectiveKind::Flush)
    } else {
        None
    }
}

/// The clause whose word a token is.
pub fn clause_word(kind: &TokenKind) -> Option<ClauseKind>
    ensures { result ≡ among clause_word all_clauses kind.now }
{
    if is_named(kind, b"num_threads") {
        Some(ClauseKind::NumThreads)
    } else if is_named(kind, b"filter") {
        Some(ClauseKind::Filter)
    } else if is_keyword(kind, Keyword::Default) {
        Some(ClauseKind::Default)
    } else if is_named(kind, b"shared") {
        Some(ClauseKind::Shared)
    } else if is_named(kind, b"private") {
        Some(ClauseKind::Private)
    } else if is_named(kind, b"firstprivate") {
        Some(ClauseKind::Firstprivate)
    } else if is_named(kind, b"reduction") {
        Some(ClauseKind::Reduction)
    } else if is_named(kind, b"schedule") {
        Some(ClauseKind::Schedule)
    } else if is_named(kind, b"nowait") {
        Some(ClauseKind::Nowait)
    } else if is_named(kind, b"update") {
        Some(ClauseKind::Update)
    } else if is_named(kind, b"read") {
        Some(ClauseKind::Read)
    } else if is_named(kind, b"write") {
        Some(ClauseKind::Write)
    } else if is_named(kind, b"seq_cst") {
        Some(ClauseKind::SeqCst)
    } else if is_named(kind, b"relaxed") {
        Some(ClauseKind::Relaxed)
    } else {
        None
    }
}

/// What `default` says by a token.
pub fn sharing(kind: &TokenKind) -> Option<Sharing>
    ensures { result ≡ among sharing_word default_words kind.now }
{
    if is_named(kind, b"shared") {
        Some(Sharing::Shared)
    } else if is_named(kind, b"none") {
        Some(Sharing::None)
    } else {
        None
    }
}

/// The operator of a reduction that a token is.
pub fn reduction_operator(kind: &TokenKind) -> Option<ReductionOperator>
    ensures { result ≡ among operator_word reduction_operators kind.now }
{
    if is_mark(kind, Punctuator::Plus) {
        Some(ReductionOperator::Add)
    } else if is_mark(kind, Punctuator::Star) {
        Some(ReductionOperator::Multiply)
    } else if is_named(kind, b"max") {
        Some(ReductionOperator::Max)
    } else if is_named(kind, b"min") {
        Some(ReductionOperator::Min)
    } else {
        None
    }
}

/// The kind of a schedule that a token is.
pub fn schedule_kind(kind: &TokenKind) -> Option<ScheduleKind>
    ensures { result ≡ among schedule_word schedule_kinds kind.now }
{
    if is_keyword(kind, Keyword::Static) {
        Some(ScheduleKind::Static)
    } else if is_named(kind, b"dynamic") {
        Some(ScheduleKind::Dynamic)
    } else {
        None
    }
}

/// Whether a token is this name.
pub fn is_named(kind: &TokenKind, wanted: &[u8]) -> bool
    ensures { result ≡ same_kind kind.now (kinds.Name wanted.now) }
{
    let TokenKind::Name(found) = kind else {
        return false;
    };
    found.as_slice() == wanted
}

/// Whether a token is this keyword.
pub fn is_keyword(kind: &TokenKind, wanted: Keyword) -> bool
    ensures { result ≡ same_kind kind.now (kinds.Keyword wanted) }
{
    let TokenKind::Keyword(found) = kind else {
        return false;
    };
    *found == wanted
}

/// Whether a token is this punctuator.
pub fn is_mark(kind: &TokenKind, wanted: Punctuator) -> bool
    ensures { result ≡ same_kind kind.now (kinds.Punctuator wanted) }
{
    let TokenKind::Punctuator(found) = kind else {
        return false;
    };
    *found == wanted
}

/// The fault of tokens of which the first is no word that may stand there.
pub fn no_word(tokens: &[Token]) -> SourceFault
    ensures { result ≡ no_word tokens.now }
{
    let [first, ..] = tokens else {
        return SourceFault {
            code: FaultCode::Syntax,
            at: u32::MAX,
        };
    };
    let code = match first.kind {
        TokenKind::Name(_) => FaultCode::UnknownDirective,
        TokenKind::Keyword(_) => FaultCode::UnknownDirective,
        _ => FaultCode::Syntax,
    };
    SourceFault {
        code,
        at: first.span.start,
    }
}
