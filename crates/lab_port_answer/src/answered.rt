//! An answer, and whether it is held back.

ghost use Rattle.std.specs.Prelude.{◌≡◌};
ghost use Rattle.lab_port_answer.specs.Answers.{is_held_back};

/// What is answered for a source.
#[derive(Drop)]
pub struct Answer {
    /// The text that the source becomes.
    pub text: Vec<u8>,
    /// The list of its changes, of the tokens without a form, and the verdict, in lines.
    pub list: Vec<u8>,
    /// How many changes have a warning.
    pub warnings: u128,
    /// 0 where the text is accepted, and 1 where it is refused.
    pub status: u8,
}

/// Whether the text of an answer is one that `--strict` holds back: it is not accepted, or a change has a warning.
pub fn is_held_back(answer: &Answer) -> bool
    ensures { result ≡ is_held_back answer.now }
{
    answer.status != 0 || answer.warnings != 0
}
