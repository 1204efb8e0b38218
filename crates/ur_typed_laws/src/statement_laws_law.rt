ghost use Rattle.ur_typed_laws.specs.Fitting.{ChangeFitsMore, ProjectStatementsFit, QueryFitsMore, StatementsFit};

use ur_sqltype::{change_of_fits, query_of_fits};

/// A query that fits a schema fits one with more tables behind.
pub fn query_fits_more()
    ensures { QueryFitsMore }
{}

/// A change that fits a schema fits one with more tables behind.
pub fn change_fits_more()
    ensures { ChangeFitsMore }
{}

/// The statements that the walk of an expression numbers fit the tables that are in scope.
pub fn statements_fit()
    ensures { StatementsFit }
{
    query_of_fits();
    change_of_fits();
}

/// The statements that the function of a project gives fit the tables of the project.
pub fn project_statements_fit()
    ensures { ProjectStatementsFit }
{
    query_of_fits();
    change_of_fits();
}
