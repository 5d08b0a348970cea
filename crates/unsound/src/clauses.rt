// The clauses: 01's, and that of 02 [1], in the order in which they are told. That of a drop set carried in the record is none of them: ours
// carries none. Of each its words, and the number that makes its record unsound (`records`).

#[derive(Clone, Copy, PartialEq, Eq)]
pub enum Clause {
    WorkRoomLonger,
    WorkRoomShorter,
    FragmentRoomLonger,
    FragmentRoomShorter,
    MapRoomLonger,
    MapRoomShorter,
    WBelow,
    WAbove,
    TBelow,
    TAbove,
    MBelow,
    MAboveT,
    Held,
    HeldInCopyAll,
    Packages,
    Fragments,
    Maps,
    MapCount,
    ServiceEqual,
    ServiceFalling,
    MapTwice,
    FragmentTwice,
    FragmentLengths,
    Wishes,
}

pub const CLAUSES: [Clause; 24] = [
    Clause::WorkRoomLonger,
    Clause::WorkRoomShorter,
    Clause::FragmentRoomLonger,
    Clause::FragmentRoomShorter,
    Clause::MapRoomLonger,
    Clause::MapRoomShorter,
    Clause::WBelow,
    Clause::WAbove,
    Clause::TBelow,
    Clause::TAbove,
    Clause::MBelow,
    Clause::MAboveT,
    Clause::Held,
    Clause::HeldInCopyAll,
    Clause::Packages,
    Clause::Fragments,
    Clause::Maps,
    Clause::MapCount,
    Clause::ServiceEqual,
    Clause::ServiceFalling,
    Clause::MapTwice,
    Clause::FragmentTwice,
    Clause::FragmentLengths,
    Clause::Wishes,
];

// The number that makes a clause's record unsound, and the nearest with which it is sound.
#[derive(Clone, Copy)]
pub struct Numbers {
    pub unsound: usize,
    pub sound: usize,
}

fn two(unsound: usize, sound: usize) -> Numbers {
    Numbers { unsound, sound }
}

impl Clause {
    // The clause in a few words, those of 01 where they are few.
    pub fn words(self) -> &'static [u8] {
        match self {
            Clause::WorkRoomLonger => b"work room longer than the start's",
            Clause::WorkRoomShorter => b"work room shorter than the start's",
            Clause::FragmentRoomLonger => b"fragment room longer than the start's",
            Clause::FragmentRoomShorter => b"fragment room shorter than the start's",
            Clause::MapRoomLonger => b"map room longer than the start's",
            Clause::MapRoomShorter => b"map room shorter than the start's",
            Clause::WBelow => b"W below 4,096",
            Clause::WAbove => b"W above 131,078",
            Clause::TBelow => b"T below 1",
            Clause::TAbove => b"T above 16,777,216, asked of the lengths alone",
            Clause::MBelow => b"M below 1",
            Clause::MAboveT => b"M above T",
            Clause::Held => b"held bytes above P-1",
            Clause::HeldInCopyAll => b"held bytes in copy-all",
            Clause::Packages => b"over 255 packages",
            Clause::Fragments => b"over 256 fragments",
            Clause::Maps => b"over 64 maps",
            Clause::MapCount => b"a map count above 255",
            Clause::ServiceEqual => b"a service as the one before",
            Clause::ServiceFalling => b"a service below the one before",
            Clause::MapTwice => b"a map identifier twice",
            Clause::FragmentTwice => b"a fragment identifier twice",
            Clause::FragmentLengths => b"fragment lengths adding up to more than T",
            Clause::Wishes => b"captions and other assets both off",
        }
    }

    pub fn numbers(self) -> Numbers {
        match self {
            Clause::WorkRoomLonger | Clause::WorkRoomShorter => two(4097, 4096),
            Clause::FragmentRoomLonger | Clause::FragmentRoomShorter => two(17, 16),
            Clause::MapRoomLonger => two(32769, 32768),
            Clause::MapRoomShorter => two(32767, 32768),
            Clause::WBelow => two(4095, 4096),
            Clause::WAbove => two(131079, 131078),
            Clause::TBelow | Clause::MBelow | Clause::Wishes => two(0, 1),
            Clause::TAbove => two(16777217, 16777216),
            Clause::MAboveT => two(17, 16),
            Clause::Held => two(2048, 2047),
            Clause::HeldInCopyAll => two(1, 0),
            Clause::Packages | Clause::MapCount => two(256, 255),
            Clause::Fragments => two(257, 256),
            Clause::Maps => two(65, 64),
            Clause::ServiceEqual => two(2, 3),
            Clause::ServiceFalling => two(1, 3),
            Clause::MapTwice | Clause::FragmentTwice => two(7, 8),
            Clause::FragmentLengths => two(9, 8),
        }
    }
}
