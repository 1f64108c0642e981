// What a plan is asked for with.
use codes::zero_points::ZeroPoints;

// The numbers of a plan. The size of a side is its bits, or in the signed split its highest code; the depth is the codes
// of a word; the interval is the most steps between drains, and 0 leaves it to the check; longest is the most columns
// that a run may accept.
#[derive(Clone, Copy, Debug, PartialEq, Eq)]
pub struct Request {
    pub weight_size: u16,
    pub activation_size: u16,
    pub depth: u16,
    pub interval: u32,
    pub rows: u16,
    pub longest: u32,
    pub zeros: ZeroPoints,
}
