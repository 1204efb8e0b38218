//! What a function's body does by itself.
ghost use Rattle.std.specs.Prelude.{◌≡◌};
ghost use Rattle.ur_effects.specs.Acts.{write_deed};
ghost use Rattle.ur_effects.specs.Refused.{deed_text};

/// How a body writes: it changes a table, raises a sequence, or sets a cookie.
#[derive(Clone, Copy, Debug, PartialEq, Eq)]
pub enum Write {
    Change,
    Number,
    Cookie,
}

/// A call of a function, or a write.
#[derive(Clone, Copy, Debug, PartialEq, Eq)]
pub enum Act {
    Calls(u32),
    Writes(Write),
}

/// How a write is written.
pub fn write_text(write: Write) -> &'static [u8]
    ensures { result.now ≡ deed_text (write_deed write) }
{
    match write {
        Write::Change => b"dml",
        Write::Number => b"nextval",
        Write::Cookie => b"setCookie",
    }
}
