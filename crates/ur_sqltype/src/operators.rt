//! Operators and kinds.
ghost use Rattle.std.specs.Prelude.{◌≡◌};
ghost use Rattle.ur_sqltype.specs.Expression.{same_kind, may_compare, side_kind, operator_of, is_optional, is_equality};

use ur_sql::Comparison;
use ur_syntax::SqlBinary;
use ur_values::ColumnKind;

/// An operator both of whose sides have one type, which is the type of the whole.
#[derive(Clone, Copy)]
pub enum Join {
    Or,
    And,
    Add,
    Sub,
    Mul,
}

/// An operator joins its sides or compares them.
#[derive(Clone, Copy)]
pub enum Operator {
    Joins(Join),
    Compares(Comparison),
}

pub fn same_kind(a: ColumnKind, b: ColumnKind) -> bool
    ensures { result ≡ same_kind a b }
{
    match a {
        ColumnKind::Int => match b {
            ColumnKind::Int => true,
            _ => false,
        },
        ColumnKind::Str => match b {
            ColumnKind::Str => true,
            _ => false,
        },
        ColumnKind::Bool => match b {
            ColumnKind::Bool => true,
            _ => false,
        },
        ColumnKind::OptInt => match b {
            ColumnKind::OptInt => true,
            _ => false,
        },
        ColumnKind::OptStr => match b {
            ColumnKind::OptStr => true,
            _ => false,
        },
        ColumnKind::OptBool => match b {
            ColumnKind::OptBool => true,
            _ => false,
        },
    }
}

/// Whether a comparison stands between two of a kind.
pub fn may_compare(c: Comparison, kind: ColumnKind) -> bool
    ensures { result ≡ may_compare c kind }
{
    match c {
        Comparison::Equal => true,
        Comparison::Unequal => true,
        _ => kind.is_ordered(),
    }
}

/// Whether NULL may stand beside a comparison.
pub fn is_equality(c: Comparison) -> bool
    ensures { result ≡ is_equality c }
{
    match c {
        Comparison::Equal => true,
        Comparison::Unequal => true,
        _ => false,
    }
}

pub fn is_optional(kind: ColumnKind) -> bool
    ensures { result ≡ is_optional kind }
{
    match kind {
        ColumnKind::OptInt => true,
        ColumnKind::OptStr => true,
        ColumnKind::OptBool => true,
        _ => false,
    }
}

/// The kind of both sides of an operator that joins them.
pub fn side_kind(join: Join) -> ColumnKind
    ensures { result ≡ side_kind join }
{
    match join {
        Join::Or => ColumnKind::Bool,
        Join::And => ColumnKind::Bool,
        Join::Add => ColumnKind::Int,
        Join::Sub => ColumnKind::Int,
        Join::Mul => ColumnKind::Int,
    }
}

pub fn operator_of(o: &SqlBinary) -> Operator
    ensures { result ≡ operator_of o.now }
{
    match o {
        SqlBinary::Or => Operator::Joins(Join::Or),
        SqlBinary::And => Operator::Joins(Join::And),
        SqlBinary::Eq => Operator::Compares(Comparison::Equal),
        SqlBinary::Ne => Operator::Compares(Comparison::Unequal),
        SqlBinary::Lt => Operator::Compares(Comparison::Less),
        SqlBinary::Le => Operator::Compares(Comparison::LessEqual),
        SqlBinary::Gt => Operator::Compares(Comparison::Greater),
        SqlBinary::Ge => Operator::Compares(Comparison::GreaterEqual),
        SqlBinary::Add => Operator::Joins(Join::Add),
        SqlBinary::Sub => Operator::Joins(Join::Sub),
        SqlBinary::Mul => Operator::Joins(Join::Mul),
    }
}
