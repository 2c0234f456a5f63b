//! What a machine of one user, or the system of many, answers to an event.
ghost use Rattle.std.specs.Prelude.{◌≡◌};
ghost use Rattle.machine_devices.specs.Replies.{said_to_line, saying, silent};

use crate::line::LineOutcome;
use cp_console::console_line::ConsoleLine;
use cp_console::responses::Response;
use s370_intr::Ran;
use user_names::UserNo;

/// How an event ended.
#[derive(Clone, Copy, PartialEq, Eq)]
pub enum Ended {
    /// A run: so many units were done, and why no more.
    Ran(Ran),
    /// A serve: whether there was a program.
    Served(bool),
    /// Any other event is done.
    Done,
    /// An event that is no run needs a page for which there is no room. Nothing has happened.
    FramesOut,
}

/// What is said to a user.
#[derive(Clone, Copy, Debug, PartialEq, Eq)]
pub enum UserResponse {
    /// Nothing.
    Nothing,
    /// A response.
    Said(Response),
    /// His files, one line each: the decks of his reader, in their order.
    Files,
}

impl UserResponse {
    /// Returns what a user is shown: this response, or nothing if there is none.
    #[inline]
    pub fn of(response: Option<Response>) -> UserResponse
        ensures { result ≡ saying response }
    {
        match response {
            None => UserResponse::Nothing,
            Some(response) => UserResponse::Said(response),
        }
    }
}

/// What an installation answers to an event. It has no memory of its own.
#[derive(Clone, Copy, PartialEq, Eq)]
pub struct Reply {
    /// How the event ended.
    pub ended: Ended,
    /// What is said to the user whom the event names: the answer to his line, or the notice of a
    /// machine that stopped.
    pub said: UserResponse,
    /// How many lines have joined the console of that user, the last of its output.
    pub lines: usize,
    /// What was delivered, and to whom. The cards of a deck are those of the last deck of his
    /// reader.
    pub delivered: Option<Delivered>,
}

impl Reply {
    /// Returns the reply to an event that ended so, which shows nothing, adds no lines and delivers
    /// nothing.
    pub fn silent(ended: Ended) -> Reply
        ensures { result ≡ silent ended }
    {
        Reply {
            ended,
            said: UserResponse::Nothing,
            lines: 0,
            delivered: None,
        }
    }
}

/// What was delivered to a user.
#[derive(Clone, Copy, Debug, PartialEq, Eq)]
pub enum Delivery {
    /// The deck of the file with this number, which is the last of his reader.
    Deck(u64),
    /// A message, as the whole line that his console prints.
    Message(ConsoleLine),
}

/// What was delivered by an event, and to whom.
#[derive(Clone, Copy, Debug, PartialEq, Eq)]
pub struct Delivered {
    /// The number of the user.
    pub to: UserNo,
    /// What he gets.
    pub what: Delivery,
}

/// Returns what a user is shown of the outcome of his line; a file that it closed has this number.
pub fn said_to_line(number: u64, reported: &LineOutcome) -> UserResponse
    ensures { result ≡ said_to_line number reported.now }
{
    match reported {
        LineOutcome::Silent => UserResponse::Nothing,
        LineOutcome::Said(response) => UserResponse::Said(*response),
        LineOutcome::Files => UserResponse::Files,
        LineOutcome::Sent(_, _) => UserResponse::Said(Response::Sent),
        LineOutcome::Closed(_) => UserResponse::Said(Response::FileClosed(number)),
        LineOutcome::LoggedOff(_) => UserResponse::Said(Response::LogoffOk),
    }
}
