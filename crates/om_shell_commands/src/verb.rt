//! The words that begin commands.

ghost use Rattle.std.specs.Prelude.{◌≡◌, map};
ghost use Rattle.std.specs.Str.{bytes_eq};
ghost use Rattle.om_shell_commands.specs.Verbs.{verb_in, verb_of};

/// The first word of a command.
#[derive(Clone, Copy)]
pub(crate) enum Verb {
    Step,
    Start,
    Undo,
    Next,
    Back,
    Print,
    Where,
    History,
    Events,
    Output,
    Tasks,
    Break,
    Watch,
    Delete,
    Run,
    Free,
    Roll,
    Quit,
}

// A word that begins commands, and the verb that it is.
type Row = (&'static [u8], Verb);

const VERBS: [Row; 18] = [
    (b"step", Verb::Step),
    (b"start", Verb::Start),
    (b"undo", Verb::Undo),
    (b"next", Verb::Next),
    (b"back", Verb::Back),
    (b"print", Verb::Print),
    (b"where", Verb::Where),
    (b"history", Verb::History),
    (b"events", Verb::Events),
    (b"output", Verb::Output),
    (b"tasks", Verb::Tasks),
    (b"break", Verb::Break),
    (b"watch", Verb::Watch),
    (b"delete", Verb::Delete),
    (b"run", Verb::Run),
    (b"free", Verb::Free),
    (b"roll", Verb::Roll),
    (b"quit", Verb::Quit),
];

// Whether a word is this one.
fn is_word(word: &[u8], wanted: &[u8]) -> bool
    ensures { result ≡ bytes_eq word.now wanted.now }
{
    word == wanted
}

// The verb of the first row that has this word.
fn verb_in(rows: &[Row], word: &[u8]) -> Option<Verb>
    ensures { result ≡ verb_in (map (λ row. (row.0.now, row.1)) rows.now) word.now }
{
    for row in rows {
        if is_word(word, row.0) {
            return Some(row.1);
        }
    }
    None
}

/// The verb that a word is; `None` exactly where it is none.
pub(crate) fn verb_of(word: &[u8]) -> Option<Verb>
    ensures { result ≡ verb_of word.now }
{
    verb_in(&VERBS, word)
}
