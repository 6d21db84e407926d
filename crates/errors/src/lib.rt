// Why a call refuses. Each case has a number, which C gets and programs print.
#![tactic(auto)]

ghost use Rattle.std.specs.Prelude.{◌≡◌};
ghost use Rattle.errors.specs.Number.{number_of};

#[derive(Clone, Copy, Debug, PartialEq, Eq)]
pub enum Error {
    // Packets.
    Incomplete,
    NoStart,
    ShortPart,
    StrayZero,
    BlockPastEnd,
    PayloadLength,
    Checksum,
    MessageType,
    // The hub.
    Unlawful,
    NoSocket,
    IllegalCatalogue,
    UnknownDevice,
    NoSlot,
    UidElsewhere,
    NoDevice,
    NotReadable,
    DataLength,
    NoFlag,
    NotForHub,
    // Areas that are lent.
    NoRoom,
    // Lists.
    CutShort,
    NoListCode,
    NegativeCount,
    WrongForm,
    WrongString,
    UnknownCode,
    TooDeep,
    TooLong,
    BytesLeft,
    NoList,
    // Texts.
    NoTextForm,
    NoText,
    // Settings.
    NoEntry,
}

impl Error {
    pub fn number(self) -> u8
        ensures { result ≡ number_of self }
    {
        match self {
            Error::Incomplete => 1,
            Error::NoStart => 2,
            Error::ShortPart => 3,
            Error::StrayZero => 4,
            Error::BlockPastEnd => 5,
            Error::PayloadLength => 6,
            Error::Checksum => 7,
            Error::MessageType => 8,
            Error::Unlawful => 9,
            Error::NoSocket => 10,
            Error::IllegalCatalogue => 11,
            Error::UnknownDevice => 12,
            Error::NoSlot => 13,
            Error::UidElsewhere => 14,
            Error::NoDevice => 15,
            Error::NotReadable => 16,
            Error::DataLength => 17,
            Error::NoFlag => 18,
            Error::NotForHub => 19,
            Error::NoRoom => 20,
            Error::CutShort => 21,
            Error::NoListCode => 22,
            Error::NegativeCount => 23,
            Error::WrongForm => 24,
            Error::WrongString => 25,
            Error::UnknownCode => 26,
            Error::TooDeep => 27,
            Error::TooLong => 28,
            Error::BytesLeft => 29,
            Error::NoList => 30,
            Error::NoTextForm => 31,
            Error::NoText => 32,
            Error::NoEntry => 33,
        }
    }
}
