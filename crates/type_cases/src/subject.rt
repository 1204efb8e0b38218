//! What is asked of a text.

#[derive(Clone, Copy, Debug)]
pub enum Subject {
    /// how many tokens it has
    Tokens,
    /// the kind of a constructor
    Kind,
    /// the normal form of a constructor
    Normal,
    /// whether two rows are apart
    Apart,
    /// what comes of statements
    Statement(Statement),
    /// the type of an expression of SQL, where columns may be bare or not
    Sql(bool),
    /// something of XML
    Xml(Part),
}

/// What is asked of statements.
#[derive(Clone, Copy, Debug)]
pub enum Statement {
    /// the typing of a query or a change
    Typed,
    /// the rows that a query answers
    Answers,
    /// what a change does to a table's rows
    Changes,
    /// the keys of a query that a change drops
    Sites,
}

/// A part of XML at its place.
#[derive(Clone, Copy, Debug)]
pub enum Part {
    /// a tag
    Node,
    /// a text
    Text,
    /// what is asked of what is spliced
    Splice,
    /// a value that is shown
    Shown,
    /// the elements of a page
    Frame,
    /// two fields of a form
    Fields,
}

/// What a word names.
pub fn subject_of(word: &str) -> Option<Subject> {
    match word {
        "tokens" => Some(Subject::Tokens),
        "kind" => Some(Subject::Kind),
        "normal" => Some(Subject::Normal),
        "apart" => Some(Subject::Apart),
        "typed" => Some(Subject::Statement(Statement::Typed)),
        "answers" => Some(Subject::Statement(Statement::Answers)),
        "changes" => Some(Subject::Statement(Statement::Changes)),
        "sites" => Some(Subject::Statement(Statement::Sites)),
        "sql" => Some(Subject::Sql(false)),
        "sql-bare" => Some(Subject::Sql(true)),
        _ => match part_of(word) {
            Some(part) => Some(Subject::Xml(part)),
            None => None,
        },
    }
}

fn part_of(word: &str) -> Option<Part> {
    match word {
        "node" => Some(Part::Node),
        "text" => Some(Part::Text),
        "splice" => Some(Part::Splice),
        "shown" => Some(Part::Shown),
        "frame" => Some(Part::Frame),
        "fields" => Some(Part::Fields),
        _ => None,
    }
}
