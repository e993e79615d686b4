//! The signature of a scheme.
ghost use Rattle.std.specs.Prelude.{◌≡◌, ℕ, ◌<◌, slice_index};
ghost use Rattle.std.specs.Option.{unwrap_or};
ghost use Rattle.forest.specs.Signs.{Signs};

use crate::signature::Signature;
use scheme::Scheme;

/// The sorts of the faces, 0 where there is no face.
fn sorts_of<S: Scheme>(scheme: &S) -> [u8; 8]
    ensures { (g : ℕ) → g < 8 → slice_index result g ≡ unwrap_or ((S.Scheme.meaning scheme.now).sort g) 0 }
{
    [0, 1, 2, 3, 4, 5, 6, 7].map(|face| scheme.sort(face).unwrap_or(0))
}

impl Signature {
    /// The signature of a scheme.
    pub fn of<S: Scheme>(scheme: &S) -> Signature
        ensures { Signs (S.Scheme.meaning scheme.now) result }
    {
        Signature {
            width: scheme.width(),
            faces: scheme.faces(),
            depth: scheme.depth(),
            sorts: sorts_of(scheme),
        }
    }
}
