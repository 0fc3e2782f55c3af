//! What a command line asks for.

/// The line that a wrong command line is answered by.
pub const USAGE: &str =
    "usage: oom_probe login | start | reset | end | relay | book | view | console | strike";

/// What is asked again where memory is refused.
#[derive(Clone, Copy, Drop)]
pub enum Kind {
    /// A login is over; another one is begun.
    Login,
    /// The start of a link hands its end back.
    Start,
    /// The reset of a link hands its end back.
    Reset,
    /// An end in memory ends by a fault.
    End,
    /// A lease that isn't begun hands both its ends back.
    Relay,
    /// A lease book, and what it shows.
    Book,
    /// What a desk shows.
    View,
    /// The console's answers.
    Console,
    /// The request of a cancel.
    Strike,
}

/// The kind of a command line, whose first word is the program's name.
pub fn kind_of(words: &[String]) -> Option<Kind> {
    if words.len() != 2 {
        return None;
    }
    match words[1].as_str() {
        "login" => Some(Kind::Login),
        "start" => Some(Kind::Start),
        "reset" => Some(Kind::Reset),
        "end" => Some(Kind::End),
        "relay" => Some(Kind::Relay),
        "book" => Some(Kind::Book),
        "view" => Some(Kind::View),
        "console" => Some(Kind::Console),
        "strike" => Some(Kind::Strike),
        _ => None,
    }
}
