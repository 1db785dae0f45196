/// Why an image isn't loaded.
#[derive(Clone, Copy, Debug, PartialEq, Eq)]
pub enum ImageFault {
    /// The first eight bytes are no magic word.
    Magic,
    /// The two numbers aren't those of the chip.
    Shape,
    /// The first byte of a page is neither 00h nor 01h.
    PageKind,
    /// The source ended within the image.
    Cut,
    /// A page that was to be programmed isn't erased.
    Taken,
    /// A read of the source failed.
    ReadFault,
    /// A call of the chip failed.
    ChipFault,
}

/// Why an image isn't written.
#[derive(Clone, Copy, Debug, PartialEq, Eq)]
pub enum DumpFault {
    /// A write to the sink failed, or took nothing.
    WriteFault,
    /// A read of the chip failed.
    ChipFault,
}
