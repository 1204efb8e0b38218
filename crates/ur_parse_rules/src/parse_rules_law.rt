//! Any tokens have at most one tree.
ghost use Rattle.ur_parse_rules.specs.Rules.{OneTree};
ghost use Rattle.ur_parse_rules.specs.Quoted.{Quoting};
ghost use Rattle.ur_parse_rules.specs.ConParts as c;
ghost use Rattle.ur_parse_rules.specs.ExpParts as e;
ghost use Rattle.ur_parse_rules.specs.SqlParts as s;
ghost use Rattle.ur_parse_rules.specs.XmlParts as x;
ghost use Rattle.ur_parse_rules.specs.DeclParts as d;
ghost use Rattle.ur_parse_rules.specs.Parts.{of_con, of_exp, of_sql, of_xml, of_decl, of_quote};
ghost use Rattle.ur_parse_rules.specs.Language.{language, IsModule, IsSignature};
ghost use Rattle.ur_parse_rules.specs.Laws.{HasOneTree};

/// Of kinds and constructors.
pub fn one_constructor()
    ensures { (p : c.ConPart) → OneTree language (of_con p) }
{}

/// Of expressions and patterns. A `|` belongs to the innermost `case` that is still being read.
pub fn one_expression()
    ensures { (p : e.ExpPart) → OneTree language (of_exp p) }
{}

/// Of SQL's queries, changes and expressions, and of their skeletons.
pub fn one_statement()
    ensures { (q : Quoting) (p : s.SqlPart) → OneTree language (of_sql q p) }
{}

/// Of XML, and of its skeletons.
pub fn one_literal()
    ensures { (q : Quoting) (p : x.XmlPart) → OneTree language (of_xml q p) }
{}

/// Of the code of antiquotes: an expression, or tokens with their brackets in pairs.
pub fn one_quote()
    ensures { (q : Quoting) → OneTree language (of_quote q) }
{}

/// Of declarations.
pub fn one_declaration()
    ensures { (p : d.DeclPart) → OneTree language (of_decl p) }
{}

/// A list of tokens spells at most one module.
pub fn one_module()
    ensures { HasOneTree IsModule }
{}

/// A list of tokens spells at most one signature.
pub fn one_signature()
    ensures { HasOneTree IsSignature }
{}
