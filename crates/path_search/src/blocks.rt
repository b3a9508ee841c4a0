//! Costs in blocks, each with its least, which tells its place.
ghost use Rattle.std.specs.Prelude.{◌≡◌, Some, ◌≢◌, ◌<◌, ◌≤◌, ◌^◌, ◌*◌, ◌%◌, ℕ, length, map, slice_set, MatchOption};
ghost use Rattle.path_search.specs.Front.{HoldsLeast};
ghost use Rattle.path_search.specs.Blocks.{AreBlocks, AreMarked, IsBlock, IsLeastNumber, num_at, shown_cost};
ghost use Rattle.path_search.specs.declared.blocks.TheConstants.{NOTHING};

use dom_base::Cost;

/// Stands for no cost; it is greater than every cost.
pub(crate) const NOTHING: u32 = u32::MAX;

/// The number of costs in a block.
pub(crate) const BLOCK: usize = 32;

// The least of numbers.
fn least_of(numbers: &[u32]) -> u32
    ensures { IsLeastNumber numbers.now result }
{
    let mut least = NOTHING;
    for number in numbers {
        if *number < least {
            least = *number;
        }
    }
    least
}

// The place of a number.
fn place_of(numbers: &[u32], number: u32) -> Option<usize>
    ensures { MatchOption result
        ((i : ℕ) → i < length numbers.now → num_at numbers.now i ≢ number)
        (λ i. (i < length numbers.now) × (num_at numbers.now i ≡ number)) }
{
    for (i, other) in numbers.iter().enumerate() {
        if *other == number {
            return Some(i);
        }
    }
    None
}

// The costs of a block.
fn block_of(costs: &[u32], block: usize) -> &[u32]
    requires start { block * 32 ≤ length costs.now }
    requires short { length costs.now < 2 ^ 31 }
    ensures { IsBlock costs.now (block * 32) result.now }
{
    let start = block * BLOCK;
    let end = (start + BLOCK).min(costs.len());
    &costs[start..end]
}

// The number that stands for a cost, with the place in its block.
fn marked(cost: Cost, place: usize) -> u32
    ensures cost { shown_cost result ≡ Some cost }
    ensures mark { result % 32 ≡ place % 32 }
{
    cost.get() * BLOCK as u32 + (place % BLOCK) as u32
}

// The number that stands for a cost at a place.
fn number_of(cost: &Option<Cost>, place: usize) -> u32
    ensures cost { shown_cost result ≡ cost.now }
    ensures mark { result < NOTHING → result % 32 ≡ place % 32 }
{
    match cost {
        Some(cost) => marked(*cost, place),
        None => NOTHING,
    }
}

/// Puts a cost at a place. Where the same stands there already, no block is looked through.
pub(crate) fn set_cost(costs: &mut [u32], least: &mut [u32], place: usize, cost: &Option<Cost>)
    requires blocks { AreBlocks costs.old least.old }
    requires marked { AreMarked costs.old }
    requires short { length costs.old < 2 ^ 31 }
    requires place { place < length costs.old }
    ensures blocks { AreBlocks costs.new least.new }
    ensures marked { AreMarked costs.new }
    ensures costs { map shown_cost costs.new ≡ slice_set (map shown_cost costs.old) place cost.now }
    ensures long { length costs.new ≡ length costs.old }
{
    let block = place / BLOCK;
    let number = number_of(cost, place);
    let was = costs[place];
    if number == was {
        return;
    }
    costs[place] = number;
    if number < least[block] {
        least[block] = number;
    } else if was == least[block] {
        least[block] = least_of(block_of(costs, block));
    }
}

/// The place of a least cost.
pub(crate) fn least_place(_costs: &[u32], least: &[u32]) -> Option<u32>
    requires blocks { AreBlocks _costs.now least.now }
    requires marked { AreMarked _costs.now }
    requires short { length _costs.now < 2 ^ 31 }
    ensures { HoldsLeast (map shown_cost _costs.now) result }
{
    let lowest = least_of(least);
    if lowest == NOTHING {
        return None;
    }
    let Some(block) = place_of(least, lowest) else {
        unreachable!()
    };
    Some((block * BLOCK) as u32 + lowest % BLOCK as u32)
}
