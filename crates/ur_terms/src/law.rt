//! Laws of first-order terms.
ghost use Rattle.ur_terms.specs.Laws.{CallsAreBodies, CostsAreBodies, EventsFollow, TypedAreSound, UnitsNeverRise};

/// A call of a typed function comes to a value of its type, to a program error or to a budget that is spent.
pub fn typed_terms_are_sound()
    ensures { TypedAreSound }
{}

/// What a call comes to, and the steps that it takes, are its body's; no run raises the units; a run's events stand behind
/// earlier ones.
pub fn calls_are_bodies()
    ensures body { CallsAreBodies }
    ensures costs { CostsAreBodies }
    ensures units { UnitsNeverRise }
    ensures events { EventsFollow }
{}
