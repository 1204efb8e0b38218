ghost use Rattle.ur_typed_laws.specs.Judged.{TypedIsSound};

/// What is typed resolves, has its type by the rules, and numbers its statements in order.
pub fn typed_is_sound()
    ensures { TypedIsSound }
{}
