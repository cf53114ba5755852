// The fewest edges from any source to each node, past no stop, by one search, breadth first: a node gets its level when it is first
// met, and joins a queue of those to go on from. A stop has a mark for a level from the outset, and so never joins.
ghost use Rattle.std.specs.Prelude.{◌≡◌, ℕ, ◌≤◌, ◌<◌, get_or, length};
ghost use Rattle.theory_paths.specs.Found.{Clear, Leveled};
ghost use Rattle.search.specs.Steps.{Leads, Bounded, Room, Visited, Expanded};
ghost use Rattle.search.specs.Invariant.{State};

use chart::format::Chart;

// The queue has room for every node, and for one that is written behind its end.
const QUEUE: usize = 256;

// An edge leads to y, at the given level, which is y's where it had none. It is written behind the queue's end, and joins it if it had none. No
// branch depends on whether y is new.
fn visit(
    y: u8,
    level: u8,
    levels: &mut [u8; Chart::NODES],
    queue: &mut [u8; QUEUE],
    tail: usize,
) -> usize
    requires { Room levels.old queue.old tail × (y < 192) }
    ensures { Visited y level levels.old queue.old tail levels.new queue.new result }
{
    let at = y as usize;
    let old = levels[at];
    queue[tail] = y;
    levels[at] = if old == 0 { level } else { old };
    tail + usize::from(old == 0)
}

// The edges of x lead to nodes at the given level.
fn expand(
    values: &[u8; Chart::EDGES],
    places: &[usize; Chart::PLACES],
    x: u8,
    level: u8,
    levels: &mut [u8; Chart::NODES],
    queue: &mut [u8; QUEUE],
    before: usize,
) -> usize
    requires { Room levels.old queue.old before × (x < 192) × (0 < level) × Bounded values.now places.now }
    ensures { Expanded values.now places.now x level levels.old queue.old before levels.new queue.new result }
{
    let from = x as usize;
    let mut tail = before;
    for y in &values[places[from]..places[from + 1]] {
        tail = visit(*y, level, levels, queue, tail);
    }
    tail
}

// The sources' edges lead to nodes at level 1. At first only the stops have marks.
fn seed(
    values: &[u8; Chart::EDGES],
    places: &[usize; Chart::PLACES],
    sources: &[u8],
    levels: &mut [u8; Chart::NODES],
    queue: &mut [u8; QUEUE],
) -> usize
    requires total_bound { (length sources.now ≤ 64) × Bounded values.now places.now × (length levels.old ≡ 192) × (length queue.old ≡ 256) }
    requires by_index { (b : ℕ) → get_or sources.now b 0 < 192 }
    ensures { State (Leads values.now places.now) levels.old sources.now (length sources.now) (length sources.now) 1 0 levels.new queue.new result }
{
    let mut tail = 0;
    for source in sources {
        tail = expand(values, places, *source, 1, levels, queue, tail);
    }
    tail
}

// The levels, which are marks of the stops before. The queue's nodes are gone on from in their order.
pub fn search(
    values: &[u8; Chart::EDGES],
    places: &[usize; Chart::PLACES],
    sources: &[u8],
    levels: &mut [u8; Chart::NODES],
)
    requires total_bound { (length sources.now ≤ 64) × Bounded values.now places.now × (length levels.old ≡ 192) }
    requires by_index { (b : ℕ) → get_or sources.now b 0 < 192 }
    ensures { Leveled (Leads values.now places.now) (Clear levels.old) (Clear levels.old) sources.now (length sources.now) levels.new }
{
    let mut queue = [0u8; QUEUE];
    let mut tail = seed(values, places, sources, levels, &mut queue);
    let mut head = 0;
    while head < tail {
        let x = queue[head];
        let level = levels[x as usize] + 1;
        tail = expand(values, places, x, level, levels, &mut queue, tail);
        head += 1;
    }
}
