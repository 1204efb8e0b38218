//! Laws of instances.
ghost use Rattle.ur_rows_laws.specs.Instances.{InstanceKeepsKinds, InstanceOfUnion, InstanceOfMap, InstanceOfApplied};

/// An instance at constructors of the variables' kinds is in scope where these are.
pub fn instance_keeps_kinds()
    ensures { InstanceKeepsKinds }
{}

/// The instance of a union is the union of the instances.
pub fn instance_of_union()
    ensures { InstanceOfUnion }
{}

/// The instance of a map is the map of the instances.
pub fn instance_of_map()
    ensures { InstanceOfMap }
{}

/// The instance of a function at an argument is of the instances.
pub fn instance_of_applied()
    ensures { InstanceOfApplied }
{}
