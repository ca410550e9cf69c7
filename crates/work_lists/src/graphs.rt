//! Graphs.

ghost use Rattle.std.specs.Prelude.{◌≡◌, ◌<◌, ◌∷◌, [], ℕ, List, IfSome, length};
ghost use Rattle.work_lists.specs.Graphs.{row};

use arrayvec::ArrayVec;

/// A graph, of whose items each leads to two at most.
pub trait Edges {
    /// For each item those to which it leads.
    ghost rows: { Self → List (List ℕ) };

    /// How many items it has.
    fn len(&self) -> usize
        ensures { result ≡ length (rows self.now) };

    /// The items to which an item leads.
    fn succ(&self, item: usize) -> ArrayVec<usize, 2>
        requires { item < length (rows self.now) }
        ensures { result.items ≡ row (rows self.now) item };

    /// The one item to which an item leads, by a look at it, or none.
    fn only(&self, item: usize) -> Option<usize>
        requires { item < length (rows self.now) }
        ensures { IfSome result (λ j. row (rows self.now) item ≡ j ∷ []) };
}
