use ur_base::List;
use ur_rows::Part;
use ur_sql::Query;
use ur_values::ColumnKind;

/// A query with the types of its antiquotes and the row of its answer.
#[derive(Drop)]
pub struct TypedQuery {
    pub core: Query,
    pub antiquotes: List<ColumnKind>,
    pub row: List<Part>,
}
