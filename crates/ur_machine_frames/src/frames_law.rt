//! Laws of runs.
ghost use Rattle.ur_machine_frames.specs.Pure.{TablesPlay, PureAlike, PureNeverStops, SafeAnywhere};

/// The table of operations plays its part in the contracts of runs, whatever queries and changes do. A call of code
/// without operations on tables comes to the same whatever those do, and its runs never stop at one. A run that does
/// not get stuck before its next operation on tables over some tables does not over none.
pub fn laws_of_runs()
    ensures tables { TablesPlay }
    ensures alike { PureAlike }
    ensures never_stops { PureNeverStops }
    ensures anywhere { SafeAnywhere }
{}
