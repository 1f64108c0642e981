// The ends of codes, and the first code of a list that lies outside them.
ghost use Rattle.std.specs.Prelude.{◌≡◌};
ghost use Rattle.codes.specs.Codes.{holds};
ghost use Rattle.codes.specs.Places.{first_outside, FirstPlace};

// The lowest and the highest code of one side.
#[derive(Clone, Copy, Debug, PartialEq, Eq)]
pub struct Ends {
    pub low: i16,
    pub high: i16,
}

impl Ends {
    // Whether a code lies within these ends.
    pub fn hold(self, code: i16) -> bool
        ensures { result ≡ holds self code }
    {
        self.low <= code && code <= self.high
    }

    // The place of the first code outside these ends.
    pub fn first_outside(self, codes: &[i16]) -> Option<usize>
        ensures value { result ≡ first_outside self codes.now }
        ensures first { FirstPlace self codes.now result }
    {
        for (place, code) in codes.iter().enumerate() {
            if !self.hold(*code) {
                return Some(place);
            }
        }
        None
    }
}
