//! What a text is to be read as, or what is asked of the project that it is.

#[derive(Clone, Copy, Debug)]
pub enum Subject {
    Part(Part),
    Step(Step),
    /// how far a part reaches
    End(Part),
    /// one token
    Token,
    /// the modules that a file of a project names
    Project,
}

/// A part of the grammar.
#[derive(Clone, Copy, Debug)]
pub enum Part {
    Kind,
    Con,
    /// beside `~`, where a field may stand alone
    ConBeside,
    /// before the keys of a table
    ConBeforeKeys,
    ConParam,
    Param,
    Binder,
    Pat,
    /// what stands behind `--`
    Removed,
    Exp,
    Sql,
    /// in UPDATE and DELETE, where a column may stand alone
    SqlBare,
    Query,
    Change,
    Xml,
    Decl,
    Signature,
    Module,
}

/// A step of the compiler over a whole project.
#[derive(Clone, Copy, Debug)]
pub enum Step {
    Names,
    Kinds,
}

impl Subject {
    /// What a word names.
    pub fn of_word(word: &str) -> Option<Subject> {
        match word {
            "names" => Some(Subject::Step(Step::Names)),
            "kinds" => Some(Subject::Step(Step::Kinds)),
            "token" => Some(Subject::Token),
            "project" => Some(Subject::Project),
            _ => part_of_word(word),
        }
    }
}

fn part_of_word(word: &str) -> Option<Subject> {
    match word {
        "kind" => Some(Subject::Part(Part::Kind)),
        "con" => Some(Subject::Part(Part::Con)),
        "con-beside" => Some(Subject::Part(Part::ConBeside)),
        "con-before-keys" => Some(Subject::Part(Part::ConBeforeKeys)),
        "con-param" => Some(Subject::Part(Part::ConParam)),
        "param" => Some(Subject::Part(Part::Param)),
        "binder" => Some(Subject::Part(Part::Binder)),
        "pat" => Some(Subject::Part(Part::Pat)),
        "removed" => Some(Subject::Part(Part::Removed)),
        "exp" => Some(Subject::Part(Part::Exp)),
        "sql" => Some(Subject::Part(Part::Sql)),
        "sql-bare" => Some(Subject::Part(Part::SqlBare)),
        "query" => Some(Subject::Part(Part::Query)),
        "change" => Some(Subject::Part(Part::Change)),
        "xml" => Some(Subject::Part(Part::Xml)),
        "decl" => Some(Subject::Part(Part::Decl)),
        "signature" => Some(Subject::Part(Part::Signature)),
        "module" => Some(Subject::Part(Part::Module)),
        _ => end_of_word(word),
    }
}

fn end_of_word(word: &str) -> Option<Subject> {
    match word {
        "kind-end" => Some(Subject::End(Part::Kind)),
        "con-end" => Some(Subject::End(Part::Con)),
        "sql-end" => Some(Subject::End(Part::Sql)),
        "exp-end" => Some(Subject::End(Part::Exp)),
        _ => None,
    }
}
