//! Why there is no type.
ghost use Rattle.std.specs.Prelude.{◌≡◌, ◌≢◌, IfOk};
ghost use Rattle.ur_verify_operations.specs.Saying.{same_texts, told_apart, two_types, one_type, nothing, FirstUnlike, IsFound};

use std::alloc::Global;
use ur_base::{List, Memory, Text};
use ur_code::Code;
use ur_values::{ValueType, same_type, type_text};

/// Two texts that differ: what was found, a type or one of two words, and what was wanted.
#[derive(Drop)]
pub struct Misfit {
    pub left: Text,
    pub right: Text,
    ghost differ: { left ≢ right },
    ghost found: { ∥ IsFound left ∥₁ },
}

/// There is no type, as two texts say, or want of memory.
#[derive(Drop)]
pub enum Untyped {
    Misfit(Misfit),
    Memory,
}

impl From<Memory> for Untyped {
    ghost use Rattle.ur_verify_operations.specs.declared.misfit.Untyped.TheVariants as untyped;

    ghost from_gives = { λ _ given. given ≡ untyped.Memory };

    fn from(_want: Memory) -> Untyped {
        Untyped::Memory
    }
}

/// A type was found where another one is wanted.
pub fn mismatch(
    alloc: Global,
    code: &Code,
    found: &ValueType,
    wanted: &ValueType,
) -> Result<Misfit, Memory>
    ensures { IfOk result (λ m. (m.left, m.right) ≡ two_types code.now.names found.now wanted.now) }
{
    let left = type_text(alloc, code.names.as_slice(), found)?;
    let right = type_text(alloc, code.names.as_slice(), wanted)?;
    differing(alloc, left, right)
}

/// A type was found where one of other types is wanted, as the words say.
pub fn unlike(
    alloc: Global,
    code: &Code,
    found: &ValueType,
    wanted: &[u8],
) -> Result<Misfit, Memory>
    ensures { IfOk result (λ m. (m.left, m.right) ≡ one_type code.now.names found.now wanted.now) }
{
    let left = type_text(alloc, code.names.as_slice(), found)?;
    differing(alloc, left, List::from_slice(alloc, wanted)?)
}

/// There is none of what is wanted, as the words say.
pub fn no_type(alloc: Global, wanted: &[u8]) -> Result<Misfit, Memory>
    ensures { IfOk result (λ m. (m.left, m.right) ≡ nothing wanted.now) }
{
    let left = List::from_slice(alloc, b"no type")?;
    differing(alloc, left, List::from_slice(alloc, wanted)?)
}

/// The first type that is not the one in its place, or that there are more or fewer.
pub fn unlike_these(
    alloc: Global,
    code: &Code,
    found: &[ValueType],
    wanted: &[ValueType],
) -> Result<Misfit, Memory>
    ensures { IfOk result (λ m. FirstUnlike code.now.names found.now wanted.now (m.left, m.right)) }
{
    for place in 0..found.len().min(wanted.len()) {
        let of = &found[place];
        let other = &wanted[place];
        if !same_type(of, other) {
            return mismatch(alloc, code, of, other);
        }
    }
    no_type(alloc, b"as many arguments as parameters")
}

/// The two texts, or where they are the same, two words that say no more than that there are two types. Types have one
/// text where names of fields repeat.
fn differing(alloc: Global, left: Text, right: Text) -> Result<Misfit, Memory>
    requires { ∥ IsFound left ∥₁ }
    ensures { IfOk result (λ m. (m.left, m.right) ≡ told_apart left right) }
{
    if left.as_slice() == right.as_slice() {
        return two_words(alloc);
    }
    Ok(Misfit { left, right })
}

fn two_words(alloc: Global) -> Result<Misfit, Memory>
    ensures { IfOk result (λ m. (m.left, m.right) ≡ same_texts) }
{
    let left = List::from_slice(alloc, b"a type")?;
    let right = List::from_slice(alloc, b"another type")?;
    Ok(Misfit { left, right })
}
