ghost use Rattle.std.specs.Prelude.{◌+◌, ◌<◌};
ghost use Rattle.product.specs.Carrying.{face_of, Carried};

use scheme::Crossing;

/// A factor's crossing made the product's: what becomes of a place and of an edge number is said by the closures, and the
/// factor's faces come after `before` others.
pub(crate) fn carried<P: FnOnce(u64) -> u64 + Drop, E: FnOnce(u64) -> u64 + Drop>(
    crossing: Crossing,
    before: u8,
    place: P,
    edge: E,
) -> Crossing
    requires places { P.IsAlwaysCallable place }
    requires edges { E.IsAlwaysCallable edge }
    requires face { before + face_of crossing < 256 }
    ensures { Carried (P.post place) (E.post edge) before crossing result }
{
    match crossing {
        Crossing::Inside((inside, face)) => Crossing::Inside((place(inside), before + face)),
        Crossing::Edge(face, number) => Crossing::Edge(before + face, edge(number)),
    }
}
