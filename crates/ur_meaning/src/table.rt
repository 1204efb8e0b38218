//! What the code knows of a language.
ghost use Rattle.std.specs.Prelude.{◌≡◌, ◌<◌, ◌↔◌, List, Some, IsTrue, length, slice_get};
ghost use Rattle.ur_meaning.specs.Form.{Language};
ghost use Rattle.ur_meaning.specs.Opening.{OpensTo, Embodies, IsNameAt, Lasts};

use crate::halt::Halt;
use crate::head::Opened;
use std::alloc::Global;

/// A language as a table of forms, and the instances that are numbered so far. A piece stands for an expression.
pub trait Table {
    ghost use Rattle.std.specs.Prelude.{ℕ, List};
    ghost use Rattle.ur_meaning.specs.Form.{Language};

    type Piece: Drop;

    ghost Item: { Type 0 };

    ghost Instance: { Type 0 };

    ghost language: { Self → Language Item Instance };

    ghost instances: { Self → List Instance };

    ghost stands: { Self → Self.Piece → Item → Type 0 };

    /// Which instances are too large to be unfolded.
    ghost large: { Instance → Type 0 };

    /// Which numbers name an instance where it is one too many.
    ghost named: { ℕ → Instance → Type 0 };

    /// What holds of a table whose instances are told apart. A piece may stand for an expression in such a table alone.
    ghost sound: { Self → Type 0 };

    /// The form of an expression. What it calls is numbered.
    fn form(&mut self, alloc: Global, piece: &Self::Piece) -> Result<Opened<Self::Piece>, Halt>
        ensures form { (i : Item) → stands self.old piece.now i → OpensTo (language self.old) large named (stands self.new) (instances self.old) (instances self.new) i result }
        ensures lasts { Lasts language instances stands sound self.old self.new };

    /// What the body of the instance with this number is.
    fn body(&mut self, alloc: Global, number: u32) -> Result<Self::Piece, Halt>
        ensures body { (k : Instance) → slice_get (instances self.old) number ≡ Some k → sound self.old → Embodies (language self.old) (stands self.new) k result }
        ensures numbered { instances self.new ≡ instances self.old }
        ensures lasts { Lasts language instances stands sound self.old self.new };

    /// Whether there is an instance with this number.
    fn has(&self, number: u32) -> bool
        ensures { IsTrue result ↔ number < length (instances self.now) };

    /// What names the instance with this number, if there is one.
    fn name(&self, number: u32) -> Option<u32>
        ensures { IsNameAt named (instances self.now) number result };
}
