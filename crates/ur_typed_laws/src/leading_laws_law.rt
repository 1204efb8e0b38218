ghost use Rattle.ur_typed_laws.specs.Led.{WalkIsLed};

/// What the walk gives of an expression it gives too where less is declared, if that agrees in what the names in scope stand
/// for.
pub fn walk_is_led()
    ensures { WalkIsLed }
{}
