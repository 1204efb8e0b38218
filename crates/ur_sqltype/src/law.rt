ghost use Rattle.ur_sqltype.specs.Faults.{FaultyIsNone};
ghost use Rattle.ur_sqltype.specs.Fits.{KindedFits, ValuedFits};

/// What has a fault stands for nothing.
pub fn faulty_is_none()
    ensures { FaultyIsNone }
{}

/// What an expression stands for has its kind in the core.
pub fn kinded_fits()
    ensures { KindedFits }
{}

/// What is given to a column has its kind in the core.
pub fn valued_fits()
    ensures { ValuedFits }
{}
