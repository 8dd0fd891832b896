//! The two sides of an object in a tree.
ghost use Rattle.std.specs.Prelude.{◌≡◌};
ghost use Rattle.lsa_shape.specs.Flanks.{other_flank, near_link, far_link, near_heavy, far_heavy};

/// A side of an object: that of the objects before it, or that of those behind it.
#[derive(Clone, Copy, Debug, PartialEq, Eq)]
pub enum Flank {
    /// The side of the objects before it, which its link 3 leads to.
    Low,
    /// The side of the objects behind it, which its link 4 leads to.
    High,
}

impl Flank {
    /// The other side.
    pub fn other(self) -> Flank
        ensures { result ≡ other_flank self }
    {
        match self {
            Flank::Low => Flank::High,
            Flank::High => Flank::Low,
        }
    }

    /// The number of the link to this side: 3 or 4.
    pub fn near(self) -> u8
        ensures { result ≡ near_link self }
    {
        match self {
            Flank::Low => 3,
            Flank::High => 4,
        }
    }

    /// The number of the link to the other side: 4 or 3.
    pub fn far(self) -> u8
        ensures { result ≡ far_link self }
    {
        match self {
            Flank::Low => 4,
            Flank::High => 3,
        }
    }

    /// The balance of an object that is deeper on this side: 1 or 2.
    pub fn heavy(self) -> u8
        ensures { result ≡ near_heavy self }
    {
        match self {
            Flank::Low => 1,
            Flank::High => 2,
        }
    }

    /// The balance of an object that is deeper on the other side: 2 or 1.
    pub fn light(self) -> u8
        ensures { result ≡ far_heavy self }
    {
        match self {
            Flank::Low => 2,
            Flank::High => 1,
        }
    }
}
