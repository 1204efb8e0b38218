//! A law of the small grammar with open ends.
ghost use Rattle.ur_parse_rules.specs.Rules.{OneTree};
ghost use Rattle.ur_parse_rules.specs.Lines.{Part, lines};

/// A list of tokens spells at most one tree.
pub fn one_tree_of_lines()
    ensures { (p : Part) → OneTree lines p }
{}
