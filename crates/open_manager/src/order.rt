ghost use Rattle.std.specs.Prelude.{◌≡◌, ℕ, true, false, ◌&&◌};
ghost use Rattle.jobs.specs.Jobs.{member};
ghost use Rattle.jobs.specs.Relations.{related};

mod changes;

use jobs::relation::Relation;
use jobs::set::JobSet;

// Which jobs are pending, which of them have voted, and how they are related. No job precedes itself, no voted job reads
// from a pending one, and no two voted jobs stand in either order. Whoever precedes or reads from another is pending.
#[derive(Clone, Copy)]
pub(crate) struct Order {
    precedes: Relation,
    reads_from: Relation,
    pending: JobSet,
    voted: JobSet,
    ghost itself: { (j : ℕ) → related precedes j j ≡ false },
    ghost reading: { (j k : ℕ) → (member voted j && related reads_from j k) ≡ false },
    ghost unordered: { (i k : ℕ) → (member voted i && (member voted k && related precedes i k)) ≡ false },
    ghost ahead: { (i k : ℕ) → related precedes i k ≡ true → member pending i ≡ true },
    ghost readers: { (k i : ℕ) → related reads_from k i ≡ true → member pending k ≡ true },
}
