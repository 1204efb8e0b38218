use ur_base::List;
use ur_sql::Change;
use ur_values::ColumnKind;

/// A change with the types of its antiquotes.
#[derive(Drop)]
pub struct TypedChange {
    pub core: Change,
    pub antiquotes: List<ColumnKind>,
}
