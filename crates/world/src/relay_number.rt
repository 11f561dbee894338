// The number of a relay: that it is one of the eight stands in its type, so that no function has to ask it of its callers.
ghost use Rattle.std.specs.Prelude.{◌≡◌, ◌≤◌, ◌<◌, None, IfSome};
ghost use Rattle.rules.specs.Sets.{relay_count};
ghost use Rattle.layout.specs.Layout.{relay_begin};

#[derive(Clone, Copy)]
pub(crate) struct RelayNumber {
    pub(crate) number: u8,
    ghost is_relay: { number < relay_count },
}

impl RelayNumber {
    // Who: "0..7 relays, 8..11 desks"; none where the number is not a relay's. (No plainer with `then`: its closure,
    // which makes the value, would have to ask for the test once more, in a `requires` of its own.)
    pub(crate) fn of(number: u8) -> Option<Self>
        ensures relay { IfSome result (λ s. s.number ≡ number) }
        ensures none { result ≡ None → relay_count ≤ number }
    {
        if rules::RELAYS <= number as usize {
            return None;
        }
        Some(Self { number })
    }

    // Where its row begins.
    pub(crate) fn row(self) -> usize
        ensures { result ≡ relay_begin self.number }
    {
        self.number as usize * layout::RELAY_WIDTH
    }
}
