// Draws.
ghost use Rattle.std.specs.Prelude.{◌<◌, ◌≡◌};
ghost use Rattle.fm_sample.specs.Draws.{drawn, next};

/// A row of draws, each from the number that the one before it left.
#[derive(Debug, Drop)]
pub struct Draws {
    pub number: u64,
}

impl Draws {
    /// A draw of 0, 1 or 2.
    pub fn draw(&mut self) -> u32
        ensures number { self.new.number ≡ next self.old.number }
        ensures drawn { result ≡ drawn self.new.number }
        ensures below { result < 3 }
    {
        self.number = self
            .number
            .wrapping_mul(6_364_136_223_846_793_005)
            .wrapping_add(1_442_695_040_888_963_407);
        ((self.number >> 33) % 3) as u32
    }
}
