//! The code of antiquotes, beside what they stand in.
ghost use Rattle.std.specs.Prelude.{◌≡◌, ◌++◌, ◌∷◌, [], length, IfOk};
ghost use Rattle.ur_parse_rules.specs.Places.{IfRefused};

use std::alloc::Global;
use ur_base::{List, Stop};
use ur_parse_rules::pushed;

/// The tokens of an antiquote's code, from one place up to another, and how many expressions may nest there.
#[derive(Clone, Copy, Debug)]
pub struct Range {
    pub begin: usize,
    pub end: usize,
    pub depth: usize,
}

/// The code of antiquotes and of attributes, each in written order.
#[derive(Drop)]
pub struct Quotes {
    pub exps: List<Range>,
    pub attributes: List<Range>,
}

impl Quotes {
    /// No code.
    pub fn new(alloc: Global) -> Quotes
        ensures exps { result.exps ≡ [] }
        ensures attributes { result.attributes ≡ [] }
    {
        Quotes {
            exps: List::new(alloc),
            attributes: List::new(alloc),
        }
    }

    /// Puts the code of an antiquote behind the others. The answer is its number.
    pub fn push_exp(&mut self, range: Range) -> Result<u32, Stop>
        ensures number { IfOk result (λ n. n ≡ length self.old.exps) }
        ensures exps { IfOk result (λ n. self.new.exps ≡ self.old.exps ++ range ∷ []) }
        ensures attributes { IfOk result (λ n. self.new.attributes ≡ self.old.attributes) }
        ensures refused { IfRefused result (λ r. ⊥) }
    {
        let number = number(self.exps.len())?;
        pushed(&mut self.exps, range)?;
        Ok(number)
    }

    /// Puts the code of an attribute behind the others. The answer is its number.
    pub fn push_attribute(&mut self, range: Range) -> Result<u32, Stop>
        ensures number { IfOk result (λ n. n ≡ length self.old.attributes) }
        ensures attributes { IfOk result (λ n. self.new.attributes ≡ self.old.attributes ++ range ∷ []) }
        ensures exps { IfOk result (λ n. self.new.exps ≡ self.old.exps) }
        ensures refused { IfRefused result (λ r. ⊥) }
    {
        let number = number(self.attributes.len())?;
        pushed(&mut self.attributes, range)?;
        Ok(number)
    }
}

/// A count as a number, or want of memory where it does not fit.
fn number(count: usize) -> Result<u32, Stop>
    ensures found { IfOk result (λ n. n ≡ count) }
    ensures refused { IfRefused result (λ r. ⊥) }
{
    match u32::try_from(count) {
        Ok(number) => Ok(number),
        Err(_) => Err(Stop::Memory),
    }
}
