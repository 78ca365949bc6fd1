//! What comes of a session that is to be drawn.

/// What comes of a session.
#[derive(Drop)]
pub enum Page {
    /// The session was run.
    Drawn {
        /// The page, as HTML.
        page: Vec<u8>,
        /// A line for each command of the session that was answered by H1, H2, `full`, `blocked` or
        /// `refused`, as `turned_down` of lab_text writes it.
        turned_down: Vec<u8>,
    },
    /// The source was refused: the line that tells why and where, with its line feed.
    Refused(Vec<u8>),
}
