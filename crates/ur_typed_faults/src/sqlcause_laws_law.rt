ghost use Rattle.ur_typed_faults.specs.SqlcauseLawsConverse.{NoneExpressionIsFaulty, NoneQueryIsFaulty, NoneChangeIsFaulty};

/// An expression that stands for nothing has a fault.
pub fn none_expression_is_faulty()
    ensures { NoneExpressionIsFaulty }
{}

/// A query that has no core has a fault.
pub fn none_query_is_faulty()
    ensures { NoneQueryIsFaulty }
{}

/// A change that has no core has a fault.
pub fn none_change_is_faulty()
    ensures { NoneChangeIsFaulty }
{}
