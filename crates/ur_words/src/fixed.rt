//! Texts that are the same in each run. They take no memory.
ghost use Rattle.std.specs.Prelude.{◌≡◌};
ghost use Rattle.ur_words.specs.Texts as texts;

/// Of words that read as no command.
pub fn usage() -> &'static [u8]
    ensures { result.now ≡ texts.usage }
{
    b"usage: urweb check P | sites P | replay P | serve P --port n | load SEED N\n"
}

/// Of files that could not be read.
pub fn shelf_fault() -> &'static [u8]
    ensures { result.now ≡ texts.shelf_fault }
{
    b"shelf fault\n"
}

/// Of connections that could not be taken, or of one that failed.
pub fn wire_fault() -> &'static [u8]
    ensures { result.now ≡ texts.wire_fault }
{
    b"wire fault\n"
}

/// Of tables that could not be attached.
pub fn keeper_fault() -> &'static [u8]
    ensures { result.now ≡ texts.keeper_fault }
{
    b"keeper fault\n"
}

/// Of want of memory.
pub fn memory() -> &'static [u8]
    ensures { result.now ≡ texts.memory }
{
    b"memory\n"
}
