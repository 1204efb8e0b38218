//! What is asked of a text.

#[derive(Clone, Copy, Debug)]
pub enum Subject {
    /// the bytes of a page of these nodes
    Page,
    /// the page of an error that shows them
    ErrorPage,
    /// a page that shows a text
    TextPage,
    /// the requests of bytes in pieces
    Splits,
    /// a text that a run prints
    Report,
    /// the one of two schemas
    Schemas,
    /// what a server answers
    Serves,
    /// something of code
    Code(Question),
}

/// What is asked of code.
#[derive(Clone, Copy, Debug)]
pub enum Question {
    /// the texts of types
    Types,
    /// its listing
    Listing,
    /// whether it fits its types
    Verified,
    /// whether a route that answers GET writes
    Effects,
    /// the type of what an operation gives
    Gives,
    /// whether patterns leave no value of a type out
    Covers,
    /// the types of what a pattern binds
    Binds,
    /// the types of a route's arguments
    Arguments,
    /// the path of a call
    Path,
    /// the call of a path
    Call,
    /// the value of a segment
    Value,
}

/// What a word names.
pub fn subject_of(word: &str) -> Option<Subject> {
    match word {
        "page" => Some(Subject::Page),
        "error-page" => Some(Subject::ErrorPage),
        "text-page" => Some(Subject::TextPage),
        "splits" => Some(Subject::Splits),
        "report" => Some(Subject::Report),
        "schemas" => Some(Subject::Schemas),
        "serves" => Some(Subject::Serves),
        _ => match question_of(word) {
            Some(question) => Some(Subject::Code(question)),
            None => None,
        },
    }
}

fn question_of(word: &str) -> Option<Question> {
    match word {
        "types" => Some(Question::Types),
        "listing" => Some(Question::Listing),
        "verified" => Some(Question::Verified),
        "effects" => Some(Question::Effects),
        "gives" => Some(Question::Gives),
        "covers" => Some(Question::Covers),
        "binds" => Some(Question::Binds),
        "arguments" => Some(Question::Arguments),
        "path" => Some(Question::Path),
        "call" => Some(Question::Call),
        "value" => Some(Question::Value),
        _ => None,
    }
}
