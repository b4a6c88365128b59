// A register in the log, in nine numbers: a head with its address, its type's row and its path's length, and the steps of its path.
#![tactic(auto)]

ghost use Rattle.std.specs.Prelude.{◌≡◌, ◌<◌};
ghost use Rattle.basics.specs.Limits.{definition_limit};
ghost use Rattle.register_log.specs.Log.{address_bound, depth_bound, place_bound, head_of, head_address, head_row, head_depth, step_of, step_start, step_end, step_index};

// The numbers of a register, and those of a log that holds as many registers as a map may have.
pub const LOG_WIDTH: usize = 1 + basics::NEST_LIMIT;

pub const LOG_SIZE: usize = basics::REGISTER_LIMIT * LOG_WIDTH;

// In a head: 2^41, above every address, which is cut at 2^40; above every type's row; above every path's length; and what a length is
// multiplied by.
const ADDRESS_BOUND: u64 = 2199023255552;

const ROW_BOUND: u64 = basics::DEFINITION_LIMIT as u64;

const DEPTH_BOUND: u64 = 16;

const LENGTHS_FROM: u64 = ADDRESS_BOUND * ROW_BOUND;

// In a step: 2^21, above every place in a text; 2^22, above every index and one more; and what an index is multiplied by.
const PLACE_BOUND: u64 = 2097152;

const STEP_INDEX_BOUND: u64 = 4194304;

const INDICES_FROM: u64 = PLACE_BOUND * PLACE_BOUND;

// The head of a register.
#[tactic(auto, unfolding(crate::specs::Log::head_of))]
pub fn head_of(address: u64, row: usize, depth: usize) -> u64
    requires { (address < address_bound) × (row < definition_limit) × (depth < depth_bound) }
    ensures { result ≡ head_of address row depth }
{
    address + ADDRESS_BOUND * (row as u64 + ROW_BOUND * depth as u64)
}

#[tactic(auto, unfolding(crate::specs::Log::head_address))]
pub fn head_address(head: u64) -> u64
    ensures { result ≡ head_address head }
{
    head % ADDRESS_BOUND
}

#[tactic(auto, unfolding(crate::specs::Log::head_row))]
pub fn head_row(head: u64) -> usize
    ensures { (result ≡ head_row head) × (result < definition_limit) }
{
    (head / ADDRESS_BOUND % ROW_BOUND) as usize
}

#[tactic(auto, unfolding(crate::specs::Log::head_depth))]
pub fn head_depth(head: u64) -> usize
    ensures { (result ≡ head_depth head) × (result < depth_bound) }
{
    (head / LENGTHS_FROM % DEPTH_BOUND) as usize
}

// A step of a path: its name's start and end, and its index and one more, or 0. A number that is too large for its bits is cut; none of
// an accepted text is.
#[tactic(auto, unfolding(crate::specs::Log::step_of))]
pub fn step_of(start: usize, end: usize, index: u64) -> u64
    ensures { result ≡ step_of start end index }
{
    start as u64 % PLACE_BOUND
        + PLACE_BOUND * (end as u64 % PLACE_BOUND + PLACE_BOUND * (index % STEP_INDEX_BOUND))
}

#[tactic(auto, unfolding(crate::specs::Log::step_start))]
pub fn step_start(step: u64) -> usize
    ensures { (result ≡ step_start step) × (result < place_bound) }
{
    (step % PLACE_BOUND) as usize
}

#[tactic(auto, unfolding(crate::specs::Log::step_end))]
pub fn step_end(step: u64) -> usize
    ensures { (result ≡ step_end step) × (result < place_bound) }
{
    (step / PLACE_BOUND % PLACE_BOUND) as usize
}

#[tactic(auto, unfolding(crate::specs::Log::step_index))]
pub fn step_index(step: u64) -> u64
    ensures { result ≡ step_index step }
{
    step / INDICES_FROM
}
