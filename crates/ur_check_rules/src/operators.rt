//! What operators ask of their sides.
ghost use Rattle.std.specs.Prelude.{◌≡◌};
ghost use Rattle.std.specs.Option.{option_copied};
ghost use Rattle.ur_tree.specs.Typing.{operation};
ghost use Rattle.ur_rows.specs.Types.{list_of};
ghost use Rattle.ur_tree.specs.Scalars as scalars;
ghost use Rattle.ur_typed.specs.Rules as rules;
ghost use Rattle.ur_check_scopes.specs.Views.{mode_of};
ghost use Rattle.ur_check_rules.specs.Views.{operation_in};

use ur_check_scopes::of_list;
use ur_rows::NormalType;
use ur_syntax::Binary as Written;
use ur_tree::Binary;

/// What an operator asks of its sides and gives: two of one type, two equal types that are compared, `::`, or `++` of
/// records.
#[derive(Drop)]
pub enum Operation {
    OfTwo(NormalType, NormalType),
    Equates,
    Orders,
    Conses,
    Joins,
}

pub fn operator_of(op: Written) -> Binary
    ensures { result ≡ rules.operator_of op }
{
    match op {
        Written::Or => Binary::Or,
        Written::And => Binary::And,
        Written::Eq => Binary::Equal,
        Written::Ne => Binary::Unequal,
        Written::Lt => Binary::Less,
        Written::Le => Binary::LessEqual,
        Written::Gt => Binary::Greater,
        Written::Ge => Binary::GreaterEqual,
        Written::Cons => Binary::Cons,
        Written::Append => Binary::Append,
        Written::Concat => Binary::Join,
        Written::Add => Binary::Add,
        Written::Sub => Binary::Sub,
        Written::Mul => Binary::Mul,
        Written::Div => Binary::Div,
        Written::Rem => Binary::Rem,
    }
}

pub fn operation_of(op: Binary) -> Operation
    ensures { operation_in result ≡ operation op }
{
    match op {
        Binary::Add => Operation::OfTwo(NormalType::Int, NormalType::Int),
        Binary::Sub => Operation::OfTwo(NormalType::Int, NormalType::Int),
        Binary::Mul => Operation::OfTwo(NormalType::Int, NormalType::Int),
        Binary::Div => Operation::OfTwo(NormalType::Int, NormalType::Int),
        Binary::Rem => Operation::OfTwo(NormalType::Int, NormalType::Int),
        Binary::Append => Operation::OfTwo(NormalType::Str, NormalType::Str),
        Binary::And => Operation::OfTwo(NormalType::Bool, NormalType::Bool),
        Binary::Or => Operation::OfTwo(NormalType::Bool, NormalType::Bool),
        Binary::Equal => Operation::Equates,
        Binary::Unequal => Operation::Equates,
        Binary::Less => Operation::Orders,
        Binary::LessEqual => Operation::Orders,
        Binary::Greater => Operation::Orders,
        Binary::GreaterEqual => Operation::Orders,
        Binary::Cons => Operation::Conses,
        Binary::Join => Operation::Joins,
    }
}

/// What is wanted of the left side.
pub fn left_mode<'a>(
    operation: &'a Operation,
    wanted: Option<&'a NormalType>,
) -> Option<&'a NormalType>
    ensures { mode_of (option_copied result) ≡ rules.left_mode (operation_in operation.now) (mode_of (option_copied wanted.entry)) }
{
    match operation {
        Operation::OfTwo(side, _) => Some(side),
        Operation::Conses => of_list(wanted),
        _ => None,
    }
}

/// What is wanted of the right side, where this is found of the left one; `list` is its list.
pub fn right_mode<'a>(
    operation: &'a Operation,
    left: &'a NormalType,
    list: &'a NormalType,
) -> Option<&'a NormalType>
    ensures { list.now ≡ list_of left.now → mode_of (option_copied result) ≡ rules.right_mode (operation_in operation.now) left.now }
{
    match operation {
        Operation::OfTwo(side, _) => Some(side),
        Operation::Equates => Some(left),
        Operation::Orders => Some(left),
        Operation::Conses => Some(list),
        Operation::Joins => None,
    }
}

pub fn is_basic(of: &NormalType) -> bool
    ensures { result ≡ scalars.is_basic of.now }
{
    match of {
        NormalType::Int => true,
        NormalType::Str => true,
        NormalType::Bool => true,
        _ => false,
    }
}

fn is_ordered(of: &NormalType) -> bool
    ensures { result ≡ scalars.is_ordered of.now }
{
    match of {
        NormalType::Int => true,
        NormalType::Str => true,
        _ => false,
    }
}

/// Whether the left side may have the type.
pub fn left_may(operation: &Operation, of: &NormalType) -> bool
    ensures { result ≡ rules.left_may (operation_in operation.now) of.now }
{
    match operation {
        Operation::Equates => is_basic(of),
        Operation::Orders => is_ordered(of),
        _ => true,
    }
}
