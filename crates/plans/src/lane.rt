// The question of the lane: how many steps it takes, whatever the codes.
ghost use Rattle.std.specs.Prelude.{◌≡◌, ℕ, ◌<◌, ◌≤◌};
ghost use Rattle.codes.specs.Codes.{Range};
ghost use Rattle.plans.specs.Bounds.{lane_products, peak, room};
ghost use Rattle.plans.specs.Lanes.{LaneOverflows};

use crate::kind::Kind;
use crate::layout::{Layout, low_ones};

impl Layout {
    // The most steps that the lane takes, whatever the codes.
    pub(crate) fn most_steps(&self) -> u32
        ensures holds { (steps : ℕ) → steps ≤ result → LaneOverflows self.now.kind self.now.request steps → ⊥ }
        ensures breaks { (steps : ℕ) → result < steps → LaneOverflows self.now.kind self.now.request steps }
    {
        self.lane_room() / self.lane_peak()
    }

    // The most that a lane holds.
    fn lane_room(&self) -> u32
        ensures { result ≡ room self.now.kind self.now.request }
    {
        let request = &self.request;
        match self.kind {
            Kind::P1 => low_ones(16 / request.depth),
            Kind::P2 => low_ones(
                (16 - request.weight_size.max(request.activation_size)) / (request.depth - 1),
            ),
            Kind::Planes => u32::MAX,
            Kind::Split => 32767,
        }
    }

    // The most that one full group adds to a lane.
    fn lane_peak(&self) -> u32
        ensures value { result ≡ peak self.now.kind self.now.request }
        ensures some { 1 ≤ result }
    {
        let weight = self.kind.top_code(self.request.weight_size);
        let activation = self.kind.top_code(self.request.activation_size);
        self.lane_products() * (weight * activation)
    }

    // The products that one group adds to one lane.
    fn lane_products(&self) -> u32
        ensures value { result ≡ lane_products self.now.kind self.now.request }
        ensures small { Range 1 16 result }
    {
        match self.kind {
            Kind::P1 | Kind::P2 => self.request.depth as u32,
            Kind::Planes => 16,
            Kind::Split => 1,
        }
    }
}
