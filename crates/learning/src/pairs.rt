// Two numbers packed in one, as arrays hold them: service and identifier of a package, identifier and count of a list of assets.
ghost use Rattle.std.specs.Prelude.{◌≡◌, ◌+◌, ◌*◌, ◌/◌, ◌%◌};

#[derive(Clone, Copy)]
pub struct Pair {
    pub first: u16,
    pub second: u16,
}

impl From<u32> for Pair {
    ghost from_gives = { λ packed p. (p.first ≡ packed / 65536) × (p.second ≡ packed % 65536) };

    fn from(packed: u32) -> Pair {
        Pair {
            first: (packed / 65536) as u16,
            second: (packed % 65536) as u16,
        }
    }
}

impl From<Pair> for u32 {
    ghost from_gives = { λ p packed. packed ≡ p.first * 65536 + p.second };

    fn from(p: Pair) -> u32 {
        u32::from(p.first) * 65536 + u32::from(p.second)
    }
}
