ghost use Rattle.std.specs.Prelude.{◌≡◌};
ghost use Rattle.region_state.specs.Subregion.{read_counted, write_counted, recounted, is_due};

/// After how many reads a subregion that the host hasn't loaded is due.
const READS: u8 = 4;

/// After how many changes a subregion that the host has loaded is due again.
const CHANGES: u8 = 8;

/// Whether the host has loaded a subregion, and what is counted of it. A subregion is due, which is that the host is to
/// load it, where its count is at its limit.
#[derive(Clone, Copy, Debug, PartialEq, Eq)]
pub struct Subregion {
    /// Whether the host has loaded it and didn't give its region up since.
    pub loaded: bool,
    /// How often it was changed where it is loaded, and how often it was read where it isn't, up to the limit.
    pub count: u8,
}

impl Subregion {
    /// A subregion of which nothing is known.
    pub const UNLOADED: Subregion = Subregion {
        loaded: false,
        count: 0,
    };

    /// A subregion that the host has just loaded.
    pub const LOADED: Subregion = Subregion {
        loaded: true,
        count: 0,
    };

    /// This subregion after a plain read, which counts where it isn't loaded.
    pub fn read_counted(self) -> Subregion
        ensures { result ≡ read_counted self }
    {
        if self.loaded {
            return self;
        }
        Subregion {
            count: self.count.saturating_add(1).min(READS),
            ..self
        }
    }

    /// This subregion after a change, which counts where it is loaded.
    pub fn write_counted(self) -> Subregion
        ensures { result ≡ write_counted self }
    {
        if !self.loaded {
            return self;
        }
        Subregion {
            count: self.count.saturating_add(1).min(CHANGES),
            ..self
        }
    }

    /// This subregion, its count back at 0.
    pub fn recounted(self) -> Subregion
        ensures { result ≡ recounted self }
    {
        Subregion { count: 0, ..self }
    }

    /// Whether it is due.
    pub fn is_due(self) -> bool
        ensures { result ≡ is_due self }
    {
        if self.loaded {
            self.count == CHANGES
        } else {
            self.count == READS
        }
    }
}
