//! What holds of every ranking, and of all rounds.

ghost use Rattle.std.specs.Prelude.{◌≡◌, ℕ, ◌+◌, ◌<◌, ◌≤◌, max, List, All, length, sum, slice_index_or};
ghost use Rattle.level_ranks.specs.Ranks.{Ranks, IsRanking, IsLayout};
ghost use Rattle.level_ranks.specs.Rounds.{raised, after, Rises, EachRises, IsSettled, NeedsWithin, IsAfterRounds};

/// There is only one ranking: which items grow, and in which rounds, follows from what they need.
pub fn one_ranking()
    ensures { (need : List ℕ → List ℕ) (tops : List ℕ) (one other : Ranks)
        → IsRanking need tops one → IsRanking need tops other → one ≡ other }
{}

/// There is a ranking, whatever items need.
pub fn some_ranking()
    ensures { (need : List ℕ → List ℕ) (tops : List ℕ) → (ranks : Ranks) × IsRanking need tops ranks }
{}

/// A layout takes at most one round more than there are levels above the lowest, whatever items need.
pub fn layouts_take_few_rounds()
    ensures { (need : List ℕ → List ℕ) (tops levels : List ℕ) (rounds : ℕ)
        → IsLayout need tops levels rounds → rounds ≤ 1 + sum tops }
{}

/// A round takes each level up to what is needed, and leaves it where that is no higher.
pub fn raised_by_index()
    ensures length { (levels needs : List ℕ) → length (raised levels needs) ≡ length levels }
    ensures level { (levels needs : List ℕ) (index : ℕ) → index < length levels
        → slice_index_or (raised levels needs) index 0
        ≡ max (slice_index_or levels index 0) (slice_index_or needs index 0) }
    ensures only { (levels needs later : List ℕ) → length later ≡ length levels
        → ((index : ℕ) → index < length levels → slice_index_or later index 0
        ≡ max (slice_index_or levels index 0) (slice_index_or needs index 0))
        → later ≡ raised levels needs }
{}

/// Rounds are counted from the start, and one more that raises a level is one more of such rounds.
pub fn one_round_more()
    ensures none { (need : List ℕ → List ℕ) (tops start : List ℕ) → length start ≡ length tops
        → All (λ level. level ≡ 0) start → NeedsWithin need tops
        → IsAfterRounds need tops start start 0 }
    ensures more { (need : List ℕ → List ℕ) (tops start levels later : List ℕ) (count : ℕ)
        → IsAfterRounds need tops start levels count → later ≡ raised levels (need levels)
        → Rises levels later → IsAfterRounds need tops start later (count + 1) }
{}

/// Where rounds that each raised a level end in one that raises none, they reached the levels that
/// the ranking takes, and their number is that of the layout.
pub fn rounds_reach_the_layout()
    ensures { (need : List ℕ → List ℕ) (tops start levels : List ℕ) (count : ℕ)
        → IsAfterRounds need tops start levels count → IsSettled need levels
        → IsLayout need tops levels (count + 1) }
{}

/// There is only one layout: its levels are those that as many rounds reach as there are levels above the lowest.
pub fn layouts_are_reached()
    ensures { (need : List ℕ → List ℕ) (tops start levels : List ℕ) (rounds : ℕ)
        → length start ≡ length tops → All (λ level. level ≡ 0) start → NeedsWithin need tops
        → IsLayout need tops levels rounds → levels ≡ after need start (sum tops) }
{}

/// There are at most as many rounds that raise a level as there are levels above the lowest.
pub fn rounds_are_few()
    ensures { (need : List ℕ → List ℕ) (tops start levels : List ℕ) (count : ℕ)
        → IsAfterRounds need tops start levels count → count ≤ sum tops }
{}

/// No level is above the top of its item.
pub fn levels_stay_within()
    ensures items { (need : List ℕ → List ℕ) (tops start levels : List ℕ) (count : ℕ)
        → IsAfterRounds need tops start levels count → length levels ≡ length tops }
    ensures tops { (need : List ℕ → List ℕ) (tops start levels : List ℕ) (count index : ℕ)
        → IsAfterRounds need tops start levels count → index < length tops
        → slice_index_or levels index 0 ≤ slice_index_or tops index 0 }
{}

/// Where a round raises no level, each is enough for what its item needs at these levels.
pub fn levels_hold()
    ensures { (need : List ℕ → List ℕ) (levels : List ℕ) (index : ℕ) → IsSettled need levels
        → index < length levels
        → slice_index_or (need levels) index 0 ≤ slice_index_or levels index 0 }
{}

/// No round lowers a level.
pub fn levels_never_fall()
    ensures { (need : List ℕ → List ℕ) (start : List ℕ) (earlier later index : ℕ)
        → earlier ≤ later → slice_index_or (after need start earlier) index 0
        ≤ slice_index_or (after need start later) index 0 }
{}
