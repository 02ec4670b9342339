// Whether ties are those of a class.
ghost use Rattle.std.specs.Prelude.{◌≡◌, ◌↔◌, IsTrue, Some, map, slice_get};
ghost use Rattle.ss_world.specs.Shape.{shape_of};

use ss_world::{Tie, TieShape};

// Whether a rank is that of one of these classes, and the ties have the shapes of that class.
pub fn fits_class(classes: &[Vec<TieShape>], rank: usize, ties: &[Tie]) -> bool
    ensures { IsTrue result ↔ (slice_get (map (λ shapes. shapes.items) classes.now) rank ≡ Some (map shape_of ties.now)) }
{
    let Some(shapes) = classes.get(rank) else {
        return false;
    };
    have_shapes(ties, shapes)
}

// Whether ties have these shapes in turn.
fn have_shapes(ties: &[Tie], shapes: &[TieShape]) -> bool
    ensures { IsTrue result ↔ (shapes.now ≡ map shape_of ties.now) }
{
    if ties.len() != shapes.len() {
        return false;
    }
    for (i, tie) in ties.iter().enumerate() {
        if tie.shape() != shapes[i] {
            return false;
        }
    }
    true
}
