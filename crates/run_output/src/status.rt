ghost use Rattle.std.specs.Prelude.{◌≡◌};
ghost use Rattle.run_output.specs.Status.{number_of};

/// How a run ended.
#[derive(Clone, Copy, Debug, PartialEq, Eq)]
pub enum Status {
    /// The source was read to its end, and all was written.
    Done,
    /// This line, counted from 1, is the first that the trace can't have.
    BadLine(u32),
    /// The words aren't in form.
    Usage,
    /// A read of the source failed.
    ReadFault,
    /// A write to the sink failed, or took nothing.
    WriteFault,
    /// There isn't enough memory.
    Memory,
    /// A number of the words is outside its limits, or the chip isn't the one that they name.
    Geometry,
    /// More lines follow than a trace may have.
    LongTrace,
    /// A call of the chip failed while an image was read or written.
    ChipFault,
    /// The source begins with no image, by the number of the fault.
    BadImage(u8),
    /// No UPIU begins at this offset of a capture, by the number of the fault.
    BadCapture(u64, u8),
}

impl Status {
    /// The exit code of the program.
    pub fn number(self) -> u8
        ensures { result ≡ number_of self }
    {
        match self {
            Status::Done => 0,
            Status::BadLine(_) => 1,
            Status::Usage => 2,
            Status::ReadFault => 3,
            Status::WriteFault => 4,
            Status::Memory => 5,
            Status::Geometry => 6,
            Status::LongTrace => 7,
            Status::ChipFault => 8,
            Status::BadImage(_) => 9,
            Status::BadCapture(_, _) => 10,
        }
    }
}

/// How a run ended, and the chip that it was handed.
#[derive(Drop)]
pub struct Outcome<F> {
    pub status: Status,
    pub flash: F,
}
