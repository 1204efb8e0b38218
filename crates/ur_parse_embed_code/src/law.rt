//! The laws of skeletons.
ghost use Rattle.std.specs.Prelude.{ℕ, ◌+◌, List};
ghost use Rattle.ur_lex.specs.declared.token.Lexeme.{Lexeme};
ghost use Rattle.ur_parse_rules.specs.Rules.{Slot};
ghost use Rattle.ur_parse_rules.specs.Quoted.{expressions, raw};
ghost use Rattle.ur_parse_rules.specs.SqlParts as s;
ghost use Rattle.ur_parse_rules.specs.XmlParts as x;
ghost use Rattle.ur_parse_rules.specs.Parts.{Part, of_sql, of_xml};
ghost use Rattle.ur_parse_embed_code.specs.Filled.{OpensBeyond, OpensBehind};
ghost use Rattle.ur_parse_embed_code.specs.Laws.{StaysWithin, HasSkeleton, IsFilled, IsFilledOrOpen, NeedsCode, literal, query, change};

/// Where more than `n` are open behind a front of the tokens, just one more than `n` are, behind a front of that.
pub fn nesting_is_reached()
    ensures { (n : ℕ) (slots : List (Slot Part)) (tokens : List Lexeme) → OpensBeyond n slots tokens → OpensBehind (n + 1) slots tokens }
{}

/// An XML literal is its skeleton with the code filled in, and is refused for its code or for its depth alone.
pub fn literals_are_filled()
    ensures read { HasSkeleton (literal raw) (literal expressions) }
    ensures filled { IsFilled (literal raw) (literal expressions) }
    ensures known { IsFilledOrOpen (of_xml expressions x.literal) (literal raw) (literal expressions) }
    ensures missing { NeedsCode (literal raw) (literal expressions) }
{}

/// So is a query.
pub fn queries_are_filled()
    ensures read { HasSkeleton (query raw) (query expressions) }
    ensures filled { IsFilled (query raw) (query expressions) }
    ensures known { IsFilledOrOpen (of_sql expressions s.query) (query raw) (query expressions) }
    ensures missing { NeedsCode (query raw) (query expressions) }
{}

/// So is a change.
pub fn changes_are_filled()
    ensures read { HasSkeleton (change raw) (change expressions) }
    ensures filled { IsFilled (change raw) (change expressions) }
    ensures known { IsFilledOrOpen (of_sql expressions s.change) (change raw) (change expressions) }
    ensures missing { NeedsCode (change raw) (change expressions) }
{}

/// What is open behind a front of code is open within the code: no front goes past the bracket that closes it.
pub fn fronts_stay_within()
    ensures { StaysWithin }
{}
