ghost use Rattle.ur_compile_laws.specs.Served.{RoutesCanBeServed};

/// The routes of a loaded project's typed source, where they are fewer than 2 ^ 32, have names that are text and not
/// empty, and no two have the same names.
pub fn routes_can_be_served()
    ensures { RoutesCanBeServed }
{}
