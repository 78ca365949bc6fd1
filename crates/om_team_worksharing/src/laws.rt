//! Laws of static schedules, over the definitions alone.

ghost use Rattle.std.specs.Prelude.{ℕ, ◌≤◌, Option};
ghost use Rattle.om_team_worksharing.specs.Chunks.{IsChunkSize, IsPartition, AreShares};

/// Each iteration of a loop lies in exactly one chunk of exactly one thread of its team, and no chunk
/// holds anything else, with a chunk size of at least 1 and without one (OpenMP 5.2, 11.5.3).
pub fn partition()
    ensures { (size : Option ℕ) (n t : ℕ) → IsChunkSize size → 1 ≤ t → IsPartition size n t }
{}

/// With a chunk size, an iteration lies in a thread's chunk of a number exactly where its own chunk's
/// number says so, going round by thread number; without one, exactly where it lies in the thread's
/// block, and the first `n % t` threads have one iteration more than the others (OpenMP 5.2, 11.5.3).
pub fn shares()
    ensures { (n t : ℕ) → AreShares n t }
{}
